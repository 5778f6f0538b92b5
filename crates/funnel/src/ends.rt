// A double-ended list read from the end that a side names: the left end is the front.
// The memory is lent at each call, as the list itself has it: a look asks for no `&mut`.
ghost use Rattle.std.specs.Prelude.{◌≡◌, ◌≤◌, [], ◌∷◌, length, drop, MatchOption, MatchResult};
ghost use Rattle.std.specs.List.{slice_get};
ghost use Rattle.base.specs.Refusals.{refusal};
ghost use Rattle.deque.specs.Contents.{contents, full_refusal};
ghost use Rattle.taut.specs.Sleeve.{other};
ghost use Rattle.funnel.specs.Ends.{seen};

use base::refusals::Refusal;
use deque::Deque;
use taut::Side;

// The other side.
pub fn other(side: Side) -> Side
    ensures { result ≡ other side }
{
    match side {
        Side::Left => Side::Right,
        Side::Right => Side::Left,
    }
}

// Element `k`, counted from the side.
pub fn peek<T: Copy>(row: &Deque<T>, slots: &[T], side: Side, k: usize) -> Option<T>
    ensures { result ≡ slice_get (seen side (contents row.now slots.now)) k }
{
    match side {
        Side::Left => row.get(slots, k),
        Side::Right => {
            let count = row.len(slots);
            if k < count {
                row.get(slots, count - 1 - k)
            } else {
                None
            }
        }
    }
}

// The two elements next to the side.
pub fn first_two<T: Copy>(row: &Deque<T>, slots: &[T], side: Side) -> Option<(T, T)>
    ensures { MatchOption result
        (length (seen side (contents row.now slots.now)) ≤ 1)
        (λ p. seen side (contents row.now slots.now) ≡ p.0 ∷ p.1 ∷ drop 2 (seen side (contents row.now slots.now))) }
{
    let first = peek(row, slots, side, 0)?;
    let second = peek(row, slots, side, 1)?;
    Some((first, second))
}

// Takes the element at the side away.
pub fn pop<T: Copy>(row: &mut Deque<T>, slots: &[T], side: Side) -> Option<T>
    ensures { MatchOption result
        ((seen side (contents row.old slots.now) ≡ []) × (row.new ≡ row.old))
        (λ x. seen side (contents row.old slots.now) ≡ x ∷ seen side (contents row.new slots.now)) }
{
    match side {
        Side::Left => row.pop_front(slots),
        Side::Right => row.pop_back(slots),
    }
}

// Puts an element at the side.
pub fn push<T: Copy>(
    row: &mut Deque<T>,
    slots: &mut [T],
    side: Side,
    element: T,
) -> Result<(), Refusal>
    ensures verdict { refusal result ≡ full_refusal (contents row.old slots.old) (length slots.old) }
    ensures effect { MatchResult result
        (λ _. seen side (contents row.new slots.new) ≡ element ∷ seen side (contents row.old slots.old))
        (λ _. (row.new ≡ row.old) × (slots.new ≡ slots.old)) }
    ensures size { length slots.new ≡ length slots.old }
{
    match side {
        Side::Left => row.push_front(slots, element),
        Side::Right => row.push_back(slots, element),
    }
}
