// What a new near end leaves of a funnel.
ghost use Rattle.std.specs.Prelude.{◌≡◌, ◌+◌, ◌<◌, true, [], ◌∷◌, MatchOption};
ghost use Rattle.deque.specs.Contents.{contents};
ghost use Rattle.funnel.specs.Ends.{seen};
ghost use Rattle.algebra.specs.Number.{quadratics, sign};
ghost use Rattle.geometry.specs.Plane.{Point};
ghost use Rattle.taut.specs.declared.Side.TheVariants.{Left};
ghost use Rattle.taut.specs.Funnel.{bears, Funnel};
ghost use Rattle.funnel.specs.Chains.{SameRoom, Turns, Settles};

use crate::ends::{first_two, other, pop};
use crate::{Corner, Working};
use geometry::Turn;
use geometry::kinds::PointKind;
use taut::Side;

// Whether the way from a over b turns strictly to a side towards c.
fn bears<P: PointKind>(side: Side, a: P, b: P, c: P) -> bool
    ensures { result ≡ bears quadratics sign side (P.at a) (P.at b) (P.at c) }
{
    match (side, P::turn(a, b, c)) {
        (Side::Left, Turn::Left) => true,
        (Side::Right, Turn::Right) => true,
        _ => false,
    }
}

// A memory that is only read is borrowed by name first, since its list is lent beside it.
impl<P: PointKind> Working<'_, P> {
    // Drops the corner at the near end, unless it turns strictly to the side on the way from a point.
    fn drop_near(&mut self, side: Side, from: P) -> bool
        requires { 0 < self.old.chains.near }
        ensures turns { Turns P.at side (P.at from) self.old self.new result }
        ensures fewer { result ≡ true → self.new.chains.near + self.new.chains.far < self.old.chains.near + self.old.chains.far }
        ensures room { SameRoom self.old self.new }
    {
        let slots = &mut *self.slots;
        let Some((corner, next)) = first_two(&self.chains.row, slots, side) else {
            return false;
        };
        // Where the way over the corner only touches it, the corner goes.
        let stays = bears(side, from, corner.point, next.point);
        if stays {
            return false;
        }
        pop(&mut self.chains.row, slots, side);
        self.chains.near -= 1;
        true
    }

    // Takes the apex off the row, so that the next corner of the far chain is the apex.
    fn pass_apex(&mut self, side: Side) -> Option<Corner<P>>
        requires { 0 < self.old.chains.far }
        ensures row { MatchOption result
            ((seen side (contents self.old.chains.row self.old.slots.now) ≡ []) × (self.new.chains.row ≡ self.old.chains.row))
            (λ x. seen side (contents self.old.chains.row self.old.slots.now) ≡ x ∷ seen side (contents self.new.chains.row self.new.slots.now)) }
        ensures near { self.new.chains.near ≡ self.old.chains.near }
        ensures far { self.new.chains.far + 1 ≡ self.old.chains.far }
        ensures bends { contents self.new.chains.bends self.new.places.now ≡ contents self.old.chains.bends self.old.places.now }
        ensures room { SameRoom self.old self.new }
    {
        let slots = &mut *self.slots;
        let apex = pop(&mut self.chains.row, slots, side);
        self.chains.far -= 1;
        apex
    }

    // Makes the next corner of the far chain the apex and a bend, if it stands strictly in the way from a point to the apex.
    fn move_apex(&mut self, side: Side, from: P) -> bool
        requires { (self.old.chains.near ≡ 0) × (0 < self.old.chains.far) }
        ensures turns { Turns P.at side (P.at from) self.old self.new result }
        ensures fewer { result ≡ true → self.new.chains.near + self.new.chains.far < self.old.chains.near + self.old.chains.far }
        ensures room { SameRoom self.old self.new }
    {
        let slots = &mut *self.slots;
        let Some((apex, next)) = first_two(&self.chains.row, slots, side) else {
            return false;
        };
        let across = other(side);
        // Where the way to the apex only touches the corner, the corner does not stand in it.
        let blocks = bears(across, from, next.point, apex.point);
        if !blocks {
            return false;
        }
        let bend = Corner {
            vertex: next.vertex,
            side: across,
            point: next.point,
        };
        let Ok(()) = self.chains.bends.push_front(self.places, bend) else {
            return false;
        };
        self.pass_apex(side);
        true
    }

    // One turn of the loop: whether it changed anything.
    fn drop_corner(&mut self, side: Side, from: P) -> bool
        ensures turns { Turns P.at side (P.at from) self.old self.new result }
        ensures fewer { result ≡ true → self.new.chains.near + self.new.chains.far < self.old.chains.near + self.old.chains.far }
        ensures room { SameRoom self.old self.new }
    {
        if self.chains.near > 0 {
            self.drop_near(side, from)
        } else if self.chains.far > 0 {
            self.move_apex(side, from)
        } else {
            false
        }
    }

    // Drops all corners that a new near end does not leave.
    pub(crate) fn settle(&mut self, side: Side, from: P)
        ensures settles { Settles P.at side (P.at from) self.old self.new }
        ensures room { SameRoom self.old self.new }
    {
        while self.drop_corner(side, from) {}
    }

    // The start is one more end on the left: what it leaves of the chains.
    pub(crate) fn meet_start(&mut self, start: P)
        ensures settles { Settles P.at Left (P.at start) self.old self.new }
    {
        self.settle(Side::Left, start);
    }
}
