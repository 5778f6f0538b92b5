// Free reduction in lent memory: a word stands in the first places of a slice, which its owner lends with the word's length.
ghost use Rattle.std.specs.Prelude.{◌≡◌, ◌+◌, ◌-◌, ◌<◌, ◌≤◌, [], ◌∷◌, ◌++◌, length, take, drop, MatchBool, MatchResult};
ghost use Rattle.base.specs.Refusals.{refusal};
ghost use Rattle.words.specs.Words.{Reduced, Homotopic, added, reduction, peak, Reductions};
ghost use Rattle.words.specs.Places.{Stands, add_refusal};

use crate::letters::Letter;
use base::refusals::Refusal;

// Whether the letter cancels with the last letter of the word.
#[tactic(auto, using(crate::proofs::LastLetterTells::last_tells))]
fn cancels<L: Letter + Copy>(word: &[L], letter: L) -> bool
    ensures { MatchBool result
        ((0 < length word.now) × (added L.opposed L.equal word.now letter ≡ take (length word.now - 1) word.now))
        (added L.opposed L.equal word.now letter ≡ word.now ++ letter ∷ []) }
{
    match word.last() {
        Some(last) => last.same(letter.opposite()),
        None => false,
    }
}

// One letter more, where a place is free behind the word.
fn step<L: Letter + Copy>(word: &mut [L], len: usize, letter: L) -> usize
    requires { len < length word.old }
    ensures { Stands (added L.opposed L.equal (take len word.old) letter) result word.old word.new }
{
    if cancels(&word[..len], letter) {
        len - 1
    } else {
        word[len] = letter;
        len + 1
    }
}

// Adds a letter to the word in the first `len` places, and answers how many letters it has then.
// A letter that cancels with the last needs no place of its own.
pub fn add<L: Letter + Copy>(word: &mut [L], len: usize, letter: L) -> Result<usize, Refusal>
    ensures verdict { refusal result ≡ add_refusal L.opposed L.equal word.old len letter }
    ensures effect { MatchResult result
        (λ n. Stands (added L.opposed L.equal (take len word.old) letter) n word.old word.new)
        (λ _. word.new ≡ word.old) }
{
    if len < word.len() {
        return Ok(step(word, len, letter));
    }
    if len == word.len() && cancels(word, letter) {
        return Ok(len - 1);
    }
    Err(Refusal::OutputShort {
        needed: len.saturating_add(1),
    })
}

// Reduces the word that the slice holds, and answers how many letters are left. They stand in the first places;
// the places that were never needed on the way hold what they held.
pub fn reduce<L: Letter + Copy>(word: &mut [L]) -> usize
    ensures word { take result word.new ≡ reduction L.opposed L.equal word.old }
    ensures long { result ≡ length (reduction L.opposed L.equal word.old) }
    ensures within { result ≤ length word.old }
    ensures reduced { Reduced L.opposed (take result word.new) }
    ensures homotopic { Homotopic L.opposed word.old (take result word.new) }
    ensures rest { drop (peak L.opposed L.equal [] word.old) word.new ≡ drop (peak L.opposed L.equal [] word.old) word.old }
{
    let mut n = 0;
    // By index: the letters read and the letters written stand in the same slice.
    for i in 0..word.len() {
        let letter = word[i];
        n = step(word, n, letter);
    }
    n
}

// The laws of reduction, for every sort of letter.
pub fn reductions_stand<L: Letter>()
    ensures { Reductions L.opposed L.equal }
{}
