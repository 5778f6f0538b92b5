// The form that all vector files have: cases of some lines each, and words on a line.
ghost use Rattle.std.specs.Prelude.{◌≡◌, ◌+◌, ◌<◌, [], codes, length, min, string_bytes, IfErr, IfNone, IfOk, IfSome, IsSome, MatchResult};
ghost use Rattle.vectors.specs.Lines.{first_of, rest_of, line_of, IsFault, Marked, Takes, TakesAfter};

use std::alloc::Global;
use std::fmt;
use thiserror::Error;

// Where a file is not as it should be, and what should stand there.
#[derive(Clone, Copy, Debug, Error)]
#[error("line {line}: expected {expected}")]
pub struct Malformed {
    line: u64,
    expected: &'static str,
}

impl Malformed {
    fn at(line: u64, expected: &'static str) -> Malformed
        ensures { IsFault line expected.now result }
    {
        Malformed { line, expected }
    }
}

// What a case is about, by the letter of its name.
#[derive(Clone, Copy)]
pub enum Sort {
    Small,
    Vet,
    Walks,
    Calls,
    Gen,
}

impl fmt::Display for Sort {
    fn fmt<W: fmt::Write>(&self, f: &mut fmt::Formatter<W>) -> fmt::Result {
        f.write_str(match self {
            Sort::Small => "small",
            Sort::Vet => "vet",
            Sort::Walks => "walks",
            Sort::Calls => "calls",
            Sort::Gen => "gen",
        })
    }
}

impl Sort {
    // Of a name that begins with the sort's letter, so it is not written as text that is a sort.
    fn of(name: &str) -> Option<Sort> {
        match name.as_bytes() {
            [b's', ..] => Some(Sort::Small),
            [b'v', ..] => Some(Sort::Vet),
            [b'w', ..] => Some(Sort::Walks),
            [b'c', ..] => Some(Sort::Calls),
            [b'g', ..] => Some(Sort::Gen),
            _ => None,
        }
    }
}

// The lines between `case` and `done`, and the number of the first of them in the file.
#[derive(Drop)]
pub struct Case {
    pub sort: Sort,
    pub name: String,
    pub level: u32,
    lines: Vec<String>,
    first: u64,
}

impl Case {
    // All its lines are still to be read.
    pub fn lines(&self) -> Lines<'_>
        ensures { (result.rest.now ≡ self.now.lines.items) × (result.number ≡ self.now.first) }
    {
        Lines {
            rest: self.lines.as_slice(),
            number: self.first,
        }
    }
}

// A line of a case or a part of it, and its number in the file.
#[derive(Clone, Copy)]
pub struct Line<'a> {
    pub text: &'a str,
    number: u64,
}

impl<'a> Line<'a> {
    // A fault in this line.
    pub fn malformed(&self, expected: &'static str) -> Malformed
        ensures { IsFault self.now.number expected.now result }
    {
        Malformed::at(self.number, expected)
    }

    // The first word, and the line of what follows it.
    pub fn first_word(&self) -> (&'a str, Line<'a>)
        ensures { (result.0.now ≡ first_of self.now.text.now) × (result.1.text.now ≡ rest_of self.now.text.now) × (result.1.number ≡ self.now.number) }
    {
        let (word, text) = first_word(self.text);
        (
            word,
            Line {
                text,
                number: self.number,
            },
        )
    }

    // What its words mean. A meaning answers `None` and no error of its own, since only the line knows its number.
    pub(crate) fn read<T, F: FnOnce(&[&str]) -> Option<T>>(
        &self,
        heap: Global,
        meaning: F,
        expected: &'static str,
    ) -> anyhow::Result<T>
        requires { F.IsAlwaysCallable meaning }
    {
        let words: Vec<&str> = self.text.split_whitespace().collect(heap)?;
        let read = meaning(words.as_slice()).ok_or(self.malformed(expected))?;
        Ok(read)
    }
}

// The lines of a case that are still to be read, and the number of the first of them in the file.
// The heap is not kept here: a library call that may need it is handed it, and so are those that call one.
#[derive(Clone, Copy)]
pub struct Lines<'a> {
    rest: &'a [String],
    number: u64,
}

impl<'a> Lines<'a> {
    // How many they are.
    pub fn count(&self) -> usize
        ensures { result ≡ length self.now.rest.now }
    {
        self.rest.len()
    }

    // A fault in the next line, or where it should be.
    pub fn malformed(&self, expected: &'static str) -> Malformed
        ensures { IsFault self.now.number expected.now result }
    {
        let line = self.number;
        Malformed::at(line, expected)
    }

    // Takes the next line.
    pub fn next_line(&mut self, expected: &'static str) -> Result<Line<'a>, Malformed>
        ensures ok { IfOk result (λ line. Takes self.old line self.new) }
        ensures err { IfErr result (λ fault. (line_of self.old ≡ None) × IsFault self.old.number expected.now fault × (self.new ≡ self.old)) }
    {
        let [line, rest @ ..] = self.rest else {
            return Err(self.malformed(expected));
        };
        let number = self.number;
        self.rest = rest;
        self.number = number.saturating_add(1);
        Ok(Line {
            text: line.as_str(),
            number,
        })
    }

    // Takes what follows the word `mark` in the next line.
    pub fn next_after(&mut self, mark: &'static str) -> Result<Line<'a>, Malformed>
        ensures marked { IfOk result (λ rest. TakesAfter self.old mark.now rest self.new) }
        ensures other { IfErr result (λ fault. ¬ (Marked self.old mark.now) × IsFault self.old.number mark.now fault × (self.new ≡ self.old)) }
    {
        let mut ahead = *self;
        let line = ahead.next_line(mark)?;
        let (word, rest) = line.first_word();
        if word == mark {
            *self = ahead;
            Ok(rest)
        } else {
            Err(line.malformed(mark))
        }
    }

    // There is no further line.
    pub fn ends(&self) -> Result<(), Malformed>
        ensures { MatchResult result (λ _. self.now.rest.now ≡ []) (λ fault. (0 < length self.now.rest.now) × IsFault self.now.number (codes "done") fault) }
    {
        if self.rest.is_empty() {
            Ok(())
        } else {
            Err(self.malformed("done"))
        }
    }
}

// The first word of a line, and what follows it.
pub fn first_word(line: &str) -> (&str, &str)
    ensures { (result.0.now ≡ first_of line.now) × (result.1.now ≡ rest_of line.now) }
{
    match line.split_once(' ') {
        Some((word, rest)) => (word, rest.trim()),
        None => (line, ""),
    }
}

// Puts the lines of a file together to cases.
#[derive(Drop)]
pub struct Reader {
    line: u64,
    open: Option<Case>,
}

impl Reader {
    pub fn new() -> Reader
        ensures { (result.line ≡ 0) × (result.open ≡ None) }
    {
        Reader {
            line: 0,
            open: None,
        }
    }

    fn malformed(&self, expected: &'static str) -> Malformed {
        Malformed::at(self.line, expected)
    }

    // `case NAME`, or `case NAME level N`.
    fn header(&self, heap: Global, text: &str) -> anyhow::Result<Case> {
        let (word, rest) = first_word(text);
        let (name, rest) = first_word(rest);
        let (mark, level) = first_word(rest);
        if word != "case" {
            return Err(self.malformed("case").into());
        }
        let sort = Sort::of(name).ok_or(self.malformed("a name that begins with s, v, w, c or g"))?;
        let level = match (mark, level.parse::<u32>()) {
            ("", _) => 0,
            ("level", Ok(level)) => level,
            _ => return Err(self.malformed("level and a number").into()),
        };
        Ok(Case {
            sort,
            name: String::from_str(heap, name)?,
            level,
            lines: Vec::new(heap),
            first: self.line.saturating_add(1),
        })
    }

    // Takes the next line, and gives the case that it ends, if it ends one.
    pub fn read(&mut self, heap: Global, text: String) -> anyhow::Result<Option<Case>>
        ensures line { self.new.line ≡ min (self.old.line + 1) u64.MAX }
        ensures ended { IfOk result (λ given. IfSome given (λ case. (self.old.open ≡ Some case) × (self.new.open ≡ None) × (string_bytes text ≡ codes "done"))) }
        ensures going { IfOk result (λ given. IfNone given (IsSome self.new.open)) }
    {
        self.line = self.line.saturating_add(1);
        match self.open.take() {
            None => {
                self.open = Some(self.header(heap, text.as_str())?);
                Ok(None)
            }
            Some(case) if text.as_str() == "done" => Ok(Some(case)),
            Some(mut case) => {
                case.lines.push(text)?;
                self.open = Some(case);
                Ok(None)
            }
        }
    }

    // The file ends here.
    pub fn finish(&self) -> Result<(), Malformed>
        ensures { MatchResult result (λ _. self.now.open ≡ None) (λ fault. IsSome self.now.open × (fault.line ≡ min (self.now.line + 1) u64.MAX) × (fault.expected.now ≡ codes "done")) }
    {
        if self.open.is_some() {
            return Err(Malformed::at(self.line.saturating_add(1), "done"));
        }
        Ok(())
    }
}
