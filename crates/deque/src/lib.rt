// A double-ended list of any kind of element, over memory that its owner hands in at each call.
#![tactic(auto)]

ghost use Rattle.std.specs.Prelude.{◌≡◌, ◌+◌, ◌-◌, ◌<◌, ◌≤◌, List, [], ◌∷◌, ◌++◌, length, MatchBool, MatchOption, MatchResult, ◌≢◌};
ghost use Rattle.std.specs.List.{slice_get};
ghost use Rattle.base.specs.Refusals.{refusal};
ghost use Rattle.deque.specs.Contents.{Over, contents, ring, round, full_refusal};

use base::refusals::Refusal;
use std::marker::PhantomData;

// Where the elements stand in the memory. The first stands at `head`, or at the start of the memory if `head` is its end;
// the others follow, and behind the end of the memory they go on at its start. Places that hold no element may hold anything.
#[derive(Clone, Copy)]
pub struct Deque<T> {
    head: usize,
    len: usize,
    elements: PhantomData<T>,
}

impl<T: Copy> Default for Deque<T> {
    ghost use Rattle.std.specs.Prelude.{◌≡◌, List, []};
    ghost use Rattle.deque.specs.Contents.{contents};

    ghost is_default = { λ d. (slots : List T) → contents d slots ≡ [] };

    fn default() -> Deque<T> {
        Self::new()
    }
}

// Front and back have calls of their own, as the library's double-ended list has them.
#[tactic(auto, using(crate::proofs::ListEquations::list_equations))]
impl<T: Copy> Deque<T> {
    pub fn new() -> Deque<T>
        ensures empty { (slots : List T) → contents result slots ≡ [] }
        ensures start { (result.head ≡ 0) × (result.len ≡ 0) }
    {
        Deque {
            head: 0,
            len: 0,
            elements: PhantomData,
        }
    }

    // The list as it stands over the memory: indices that do not fit it mean nothing there.
    fn read_over(self, slots: &[T]) -> Deque<T>
        ensures fits { Over self (length slots.now) result }
        ensures same { contents self slots.now ≡ ring slots.now result.head result.len }
    {
        if self.head <= slots.len() && self.len <= slots.len() {
            self
        } else {
            Deque::new()
        }
    }

    // The place of element `k`. The index is not added to the head, since their sum may not fit.
    fn place(self, k: usize, size: usize) -> usize
        requires { (self.head ≤ size) × (k < size) }
        ensures { result ≡ round self.head k size }
    {
        let rest = size - self.head;
        if k < rest { self.head + k } else { k - rest }
    }

    fn is_full(self, size: usize) -> bool
        ensures { MatchBool result (self.len ≡ size) (self.len ≢ size) }
    {
        self.len == size
    }

    pub fn len(&self, slots: &[T]) -> usize
        ensures { result ≡ length (contents self.now slots.now) }
    {
        self.read_over(slots).len
    }

    // Element `k`, counted from the front.
    pub fn get(&self, slots: &[T], k: usize) -> Option<T>
        ensures { result ≡ slice_get (contents self.now slots.now) k }
    {
        let list = self.read_over(slots);
        if k >= list.len {
            return None;
        }
        let i = list.place(k, slots.len());
        Some(slots[i])
    }

    pub fn push_back(&mut self, slots: &mut [T], element: T) -> Result<(), Refusal>
        ensures verdict { refusal result ≡ full_refusal (contents self.old slots.old) (length slots.old) }
        ensures effect { MatchResult result
            (λ _. contents self.new slots.new ≡ contents self.old slots.old ++ element ∷ [])
            (λ _. (self.new ≡ self.old) × (slots.new ≡ slots.old)) }
        ensures size { length slots.new ≡ length slots.old }
        ensures few { length (contents self.new slots.new) ≤ length slots.new }
    {
        let size = slots.len();
        let list = self.read_over(slots);
        if list.is_full(size) {
            return Err(Refusal::ListFull { size });
        }
        let i = list.place(list.len, size);
        slots[i] = element;
        self.head = list.head;
        self.len = list.len + 1;
        Ok(())
    }

    pub fn push_front(&mut self, slots: &mut [T], element: T) -> Result<(), Refusal>
        ensures verdict { refusal result ≡ full_refusal (contents self.old slots.old) (length slots.old) }
        ensures effect { MatchResult result
            (λ _. contents self.new slots.new ≡ element ∷ contents self.old slots.old)
            (λ _. (self.new ≡ self.old) × (slots.new ≡ slots.old)) }
        ensures size { length slots.new ≡ length slots.old }
        ensures few { length (contents self.new slots.new) ≤ length slots.new }
    {
        let size = slots.len();
        let list = self.read_over(slots);
        if list.is_full(size) {
            return Err(Refusal::ListFull { size });
        }
        let i = list.head.checked_sub(1).unwrap_or(size - 1);
        slots[i] = element;
        self.head = i;
        self.len = list.len + 1;
        Ok(())
    }

    pub fn pop_back(&mut self, slots: &[T]) -> Option<T>
        ensures { MatchOption result
            ((contents self.old slots.now ≡ []) × (self.new ≡ self.old))
            (λ x. contents self.old slots.now ≡ contents self.new slots.now ++ x ∷ []) }
    {
        let list = self.read_over(slots);
        let len = list.len.checked_sub(1)?;
        let i = list.place(len, slots.len());
        self.head = list.head;
        self.len = len;
        Some(slots[i])
    }

    pub fn pop_front(&mut self, slots: &[T]) -> Option<T>
        ensures { MatchOption result
            ((contents self.old slots.now ≡ []) × (self.new ≡ self.old))
            (λ x. contents self.old slots.now ≡ x ∷ contents self.new slots.now) }
    {
        let list = self.read_over(slots);
        let len = list.len.checked_sub(1)?;
        let i = list.place(0, slots.len());
        self.head = i + 1;
        self.len = len;
        Some(slots[i])
    }
}
