// The sign of p + q√2, by squares and never by a decimal for √2.
ghost use Rattle.std.specs.Prelude.{◌≡◌, ◌^◌, ℤ, pos, ◌*ℤ◌, ◌≤ℤ◌};
ghost use Rattle.algebra.specs.Number.{number, above, sign, square as square_of};

use crate::Sign;

// A square of 64 bits: two of them can be subtracted.
#[derive(Clone, Copy)]
struct Square {
    n: i128,
    ghost low: { pos 0 ≤ℤ n },
    ghost high: { n ≤ℤ pos (2 ^ 126) },
}

fn squared(a: i64) -> Square
    ensures { result.n ≡ square_of a }
{
    Square {
        n: a as i128 * a as i128,
    }
}

// Whether p + q√2 is positive.
fn is_above(p: i64, q: i64) -> bool
    ensures { result ≡ above (number p q) }
{
    let pp = squared(p);
    let qq = squared(q);
    if p < 0 {
        q > 0 && pp.n - qq.n < qq.n
    } else if q < 0 {
        qq.n < pp.n - qq.n
    } else {
        p > 0 || q > 0
    }
}

pub fn sign_of(p: i64, q: i64) -> Sign
    ensures { result ≡ sign (number p q) }
{
    if p == 0 && q == 0 {
        Sign::Zero
    } else if is_above(p, q) {
        Sign::Plus
    } else {
        Sign::Minus
    }
}
