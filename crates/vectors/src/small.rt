// The small cases: words of signed generators and of crossings to reduce, calls on a double-ended list, signs of numbers.
use crate::reader::{Case, Line, Lines, first_word};
use crate::report::Outcome;
use algebra::Sign;
use algebra::signs::sign_of;
use base::ids::HalfEdgeId;
use base::refusals::Refusal;
use deque::Deque;
use described::rows::short;
use std::alloc::{AllocError, Global};
use words::letters::Letter;
use words::reducing::reduce;
use words::sorts::{Crossing, Generator};

pub fn run(heap: Global, case: &Case) -> anyhow::Result<Outcome> {
    let mut lines = case.lines();
    let line = lines.next_line("letters, doors, deque or sign")?;
    let (kind, rest) = line.first_word();
    match kind {
        "letters" => reduced::<Generator>(heap, rest, &mut lines),
        "doors" => reduced::<Crossing>(heap, rest, &mut lines),
        "deque" => deque_calls(heap, rest, &mut lines),
        "sign" => sign(heap, rest, &mut lines),
        _ => Err(line.malformed("letters, doors, deque or sign").into()),
    }
}

// Whether the next line, the last, answers `got`.
fn compared(heap: Global, lines: &mut Lines, got: String) -> anyhow::Result<Outcome> {
    let expected = lines.next_after("answer")?.text;
    lines.ends()?;
    if expected == got.as_str() {
        return Ok(Outcome::Agrees);
    }
    let expected = String::from_str(heap, expected)?;
    Ok(Outcome::Differs { expected, got })
}

// One word more on a line.
fn append(line: &mut String, word: &str) -> Result<(), AllocError> {
    if !line.is_empty() {
        line.push_str(" ")?;
    }
    line.push_str(word)
}

// A letter as a case writes it.
trait Written: Letter + Copy {
    const FORM: &'static str;

    fn read(word: &str) -> Option<Self>;

    fn write(self, heap: Global) -> Result<String, AllocError>;
}

impl Written for Generator {
    const FORM: &'static str = "whole numbers of 16 bits";

    fn read(word: &str) -> Option<Generator> {
        word.parse::<i16>().ok().map(Generator)
    }

    fn write(self, heap: Global) -> Result<String, AllocError> {
        let number = self.0;
        format!(in heap; "{number}")
    }
}

// `left>entered`.
impl Written for Crossing {
    const FORM: &'static str = "crossings such as 2>3";

    fn read(word: &str) -> Option<Crossing> {
        let (left, entered) = word.split_once('>')?;
        Some(Crossing {
            left: HalfEdgeId(short(left)?),
            entered: HalfEdgeId(short(entered)?),
        })
    }

    fn write(self, heap: Global) -> Result<String, AllocError> {
        let left = self.left.0;
        let entered = self.entered.0;
        format!(in heap; "{left}>{entered}")
    }
}

fn reduced<L: Written>(heap: Global, letters: Line, lines: &mut Lines) -> anyhow::Result<Outcome> {
    let mut word = Vec::new(heap);
    for letter in letters.text.split_whitespace() {
        word.push(L::read(letter).ok_or(letters.malformed(L::FORM))?)?;
    }
    let n = reduce(word.as_mut_slice());
    let mut got = String::new(heap);
    for letter in word.iter().take(n) {
        append(&mut got, letter.write(heap)?.as_str())?;
    }
    compared(heap, lines, got)
}

fn pushed(heap: Global, answer: Result<(), Refusal>) -> Result<String, AllocError> {
    match answer {
        Ok(()) => String::from_str(heap, "ok"),
        Err(refusal) => {
            let number = refusal.number();
            let place = refusal.place();
            format!(in heap; "refused {number} {place}")
        }
    }
}

fn popped(heap: Global, answer: Option<u32>) -> Result<String, AllocError> {
    match answer {
        Some(element) => format!(in heap; "ok {element}"),
        None => String::from_str(heap, "empty"),
    }
}

// What the list answers to one call; `None` if it is no call.
fn answered(
    heap: Global,
    list: &mut Deque<u32>,
    slots: &mut [u32],
    call: &str,
) -> Result<Option<String>, AllocError> {
    let (name, element) = first_word(call);
    let answer = match (name, element.parse::<u32>()) {
        ("push_front", Ok(element)) => pushed(heap, list.push_front(slots, element))?,
        ("push_back", Ok(element)) => pushed(heap, list.push_back(slots, element))?,
        ("pop_front", _) => popped(heap, list.pop_front(slots))?,
        ("pop_back", _) => popped(heap, list.pop_back(slots))?,
        _ => return Ok(None),
    };
    Ok(Some(answer))
}

fn deque_calls(heap: Global, head: Line, lines: &mut Lines) -> anyhow::Result<Outcome> {
    let size = head
        .text
        .parse::<usize>()
        .map_err(|_| head.malformed("the size of the list"))?;
    let mut slots = vec![in heap; 0u32; size]?;
    let mut list = Deque::new();
    for _ in 0..lines.count().div_ceil(2) {
        let call = lines.next_after(">")?;
        let expected = lines.next_after("<")?.text;
        let got = answered(heap, &mut list, slots.as_mut_slice(), call.text)?.ok_or(call.malformed(
            "a call of the list",
        ))?;
        if expected != got.as_str() {
            let expected = String::from_str(heap, expected)?;
            return Ok(Outcome::Differs { expected, got });
        }
    }
    Ok(Outcome::Agrees)
}

fn sign(heap: Global, numbers: Line, lines: &mut Lines) -> anyhow::Result<Outcome> {
    let (p, q) = first_word(numbers.text);
    let (Ok(p), Ok(q)) = (p.parse::<i64>(), q.parse::<i64>()) else {
        return Err(numbers.malformed("the two parts of a number").into());
    };
    let got = match sign_of(p, q) {
        Sign::Minus => "-1",
        Sign::Zero => "0",
        Sign::Plus => "1",
    };
    compared(heap, lines, String::from_str(heap, got)?)
}
