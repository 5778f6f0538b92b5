// Theorems about the numbers, each on a contract so that its proof is asked for.
ghost use Rattle.algebra.specs.Number.{OrderedRing, SignsSay, CloseCalls};

// p + q√2 form an ordered commutative ring.
pub fn ordered_ring_stands()
    ensures { OrderedRing }
{}

// The sign that is computed says which numbers are positive, zero and negative.
pub fn signs_stand()
    ensures { SignsSay }
{}

// 7 - 5√2 is negative, 17 - 12√2 positive and 239 - 169√2 negative.
pub fn close_calls_stand()
    ensures { CloseCalls }
{}
