// The order of quadratic numbers.
ghost use Rattle.std.specs.Cmp.{on_total, partial_order_from_agreeing_total};
ghost use Rattle.std.specs.Ordering.{on};
ghost use Rattle.std.specs.Prelude.{◌≡◌, Some, refl};
ghost use Rattle.algebra.specs.Number.{compare};
ghost use Rattle.coordinates.specs.Values.{value};
ghost use Rattle.algebra.proofs.Compared.{compare_total, compare_parts};

use crate::Quadratic;
use algebra::Sign;
use algebra::signs::sign_of;
use std::cmp::Ordering;

impl Ord for Quadratic {
    ghost cmp = { on value compare };

    ghost total = { on_total value compare_total };

    ghost matches_partial_cmp = { λ a b. refl };

    ghost matches_eq = { λ a b. compare_parts (value a) (value b) };

    fn cmp(&self, other: &Quadratic) -> Ordering {
        match sign_of(self.p - other.p, self.q - other.q) {
            Sign::Minus => Ordering::Less,
            Sign::Zero => Ordering::Equal,
            Sign::Plus => Ordering::Greater,
        }
    }
}

impl PartialOrd for Quadratic {
    ghost partial_cmp = { λ a b. Some (compare (value a) (value b)) };

    ghost laws = { partial_order_from_agreeing_total (on value compare) (on_total value compare_total) (λ a b. refl) (λ a b. compare_parts (value a) (value b)) };

    fn partial_cmp(&self, other: &Quadratic) -> Option<Ordering> {
        Some(self.cmp(other))
    }
}
