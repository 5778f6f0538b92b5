// A double-ended list, filled and emptied at both ends.
ghost use Rattle.std.specs.Prelude.{◌≡◌, ◌<◌, [], ◌∷◌, length, Some, MatchResult};
ghost use Rattle.base.specs.declared.refusals.Refusal.TheVariants.{ListFull};

use base::refusals::Refusal;
use deque::Deque;

// `b` goes in first, then `c` behind it and `a` before it; out come the first, the last and what was between them.
pub fn both_ends<T: Copy>(slots: &mut [T], a: T, b: T, c: T) -> Result<[Option<T>; 3], Refusal>
    ensures { MatchResult result
        (λ given. given ≡ Some a ∷ Some c ∷ Some b ∷ [])
        (λ e. (length slots.old < 3) × (e ≡ ListFull (length slots.old))) }
{
    let mut list = Deque::new();
    list.push_back(slots, b)?;
    list.push_back(slots, c)?;
    list.push_front(slots, a)?;
    let first = list.pop_front(slots);
    let last = list.pop_back(slots);
    let middle = list.pop_front(slots);
    Ok([first, last, middle])
}
