// What a sort of letters has to offer.
ghost use Rattle.std.specs.Prelude.{◌≡◌, Bool};
ghost use Rattle.words.specs.Words.{Lawful};

pub trait Letter: Sized {
    ghost opposed: { Self → Self };

    ghost equal: { Self → Self → Bool };

    fn opposite(self) -> Self
        ensures { result ≡ opposed self };

    fn same(self, other: Self) -> bool
        ensures { result ≡ equal self other };

    ghost lawful: { Lawful opposed equal };
}
