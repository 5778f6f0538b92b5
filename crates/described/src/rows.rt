// Rows of plain numbers, as the words of a line write them.
ghost use Rattle.std.specs.Prelude.{◌≡◌, [], ◌∷◌, All, map, length, slice_index, IfOk, IfNone, IfSome, MatchResult, Some};
ghost use Rattle.std.specs.Option.{SomeIff};
ghost use Rattle.base.specs.Refusals.{refusal};
ghost use Rattle.surfaces.specs.Sheet.{sheet_refusal};
ghost use Rattle.described.specs.declared.rows.Kind.{Kind};
ghost use Rattle.described.specs.Rows.{Is16, Is32, number16, number32, kind_name, kind_of, parts, numbers};

use base::ids::{HalfEdgeId, VertexId};
use base::refusals::Refusal;
use geometry::{IntegerRow, QuadraticRow};
use meshes::sheets::PerforatedSheet;
use std::fmt;
use std::str::FromStr;
use thiserror::Error;

// The kinds of points that a mesh may have.
#[derive(Clone, Copy, PartialEq, Eq, Debug)]
pub enum Kind {
    Integer,
    Quadratic,
}

impl fmt::Display for Kind {
    ghost output = { λ kind. Some (kind_name kind) };

    fn fmt<W: fmt::Write>(&self, f: &mut fmt::Formatter<W>) -> fmt::Result {
        f.write_str(match self {
            Kind::Integer => "integer",
            Kind::Quadratic => "quadratic",
        })
    }
}

// A word that names no kind.
#[derive(Clone, Copy, PartialEq, Eq, Debug, Error)]
#[error("expected integer or quadratic")]
pub struct UnknownKind;

impl FromStr for Kind {
    type Err = UnknownKind;

    ghost from_str_gives = { λ word named. MatchResult named (λ kind. word ≡ kind_name kind) (λ _. (kind : Kind) → ¬ (word ≡ kind_name kind)) };

    fn from_str(word: &str) -> Result<Kind, UnknownKind> {
        match word {
            "integer" => Ok(Kind::Integer),
            "quadratic" => Ok(Kind::Quadratic),
            _ => Err(UnknownKind),
        }
    }
}

// A point of either kind; its numbers may be out of range. An enum, since the kind is known only as a line is read.
#[derive(Clone, Copy)]
pub enum PointRow {
    Integer(IntegerRow),
    Quadratic(QuadraticRow),
}

impl PointRow {
    // A row of this kind.
    pub fn parse(kind: Kind, words: &[&str]) -> Option<PointRow>
        ensures kind { IfSome result (λ row. kind_of row ≡ kind) }
        ensures some { IfSome result (λ row. map (λ w. number32 w.now) words.now ≡ numbers row) }
        ensures none { IfNone result (¬ ((length words.now ≡ parts kind) × All (λ w. Is32 w.now) words.now)) }
    {
        match kind {
            Kind::Integer => integer_row(words).map(PointRow::Integer),
            Kind::Quadratic => quadratic_row(words).map(PointRow::Quadratic),
        }
    }
}

// One for each kind: numbers of any count, with a conversion for each kind, would be longer than these two.
fn integer_row(words: &[&str]) -> Option<IntegerRow>
    ensures some { IfSome result (λ row. map (λ w. number32 w.now) words.now ≡ row.x ∷ row.y ∷ []) }
    ensures none { IfNone result (¬ ((length words.now ≡ 2) × All (λ w. Is32 w.now) words.now)) }
{
    let [x, y] = words else {
        return None;
    };
    Some(IntegerRow {
        x: whole(*x)?,
        y: whole(*y)?,
    })
}

pub fn quadratic_row(words: &[&str]) -> Option<QuadraticRow>
    ensures some { IfSome result (λ row. map (λ w. number32 w.now) words.now ≡ row.xp ∷ row.xq ∷ row.yp ∷ row.yq ∷ []) }
    ensures none { IfNone result (¬ ((length words.now ≡ 4) × All (λ w. Is32 w.now) words.now)) }
{
    let [xp, xq, yp, yq] = words else {
        return None;
    };
    Some(QuadraticRow {
        xp: whole(*xp)?,
        xq: whole(*xq)?,
        yp: whole(*yp)?,
        yq: whole(*yq)?,
    })
}

fn whole(word: &str) -> Option<i32>
    ensures { SomeIff result (Is32 word.now) (number32 word.now) }
{
    word.parse::<i32>().ok()
}

// A number of 16 bits.
pub fn short(word: &str) -> Option<u16>
    ensures { SomeIff result (Is16 word.now) (number16 word.now) }
{
    word.parse::<u16>().ok()
}

// The corners of a triangle, and the codes across its sides.
#[derive(Clone, Copy)]
pub struct TriangleRow {
    pub corners: [VertexId; 3],
    pub across: [HalfEdgeId; 3],
}

// `None` if the words are no three numbers. A `Result` in an `Option`: words that are no numbers are a fault of the line, a refusal is an answer.
pub fn sheet_of(words: &[&str]) -> Option<Result<PerforatedSheet, Refusal>>
    ensures some { IfSome result (λ made. IfOk made (λ sheet. map (λ w. number16 w.now) words.now ≡ sheet.columns ∷ sheet.rows ∷ sheet.pitch ∷ [])) }
    ensures refused { IfSome result (λ made. let n = map (λ w. number16 w.now) words.now in refusal made ≡ sheet_refusal (slice_index n 0) (slice_index n 1) (slice_index n 2)) }
    ensures none { IfNone result (¬ ((length words.now ≡ 3) × All (λ w. Is16 w.now) words.now)) }
{
    let [columns, rows, pitch] = words else {
        return None;
    };
    Some(PerforatedSheet::new(short(*columns)?, short(*rows)?, short(*pitch)?))
}
