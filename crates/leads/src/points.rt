// A row of points of one kind, with its turns and its lengths.
use crate::stop::Stop;
use described::rows::{Kind, PointRow};
use gauge::rows::length_of_row;
use gauge::supplied::{L1, Maximum, Octagon};
use geometry::kinds::PointKind;
use geometry::{IntegerPoint, QuadraticPoint};
use std::alloc::Global;

// Points that were made, where described vertices are rows that may be refused; an enum, since the kind is known only as the script is read.
#[derive(Drop)]
pub enum Points {
    Integer(Vec<IntegerPoint>),
    Quadratic(Vec<QuadraticPoint>),
}

impl Points {
    pub(crate) fn new(heap: Global, kind: Kind) -> Points {
        match kind {
            Kind::Integer => Points::Integer(Vec::new(heap)),
            Kind::Quadratic => Points::Quadratic(Vec::new(heap)),
        }
    }

    pub(crate) fn kind(&self) -> Kind {
        match self {
            Points::Integer(_) => Kind::Integer,
            Points::Quadratic(_) => Kind::Quadratic,
        }
    }

    // A row of the other kind is no line of a script.
    pub(crate) fn add(&mut self, rt: &HostRuntime, row: PointRow) -> Result<(), Stop> {
        match (self, row) {
            (Points::Integer(points), PointRow::Integer(row)) => add(rt, points, row),
            (Points::Quadratic(points), PointRow::Quadratic(row)) => add(rt, points, row),
            _ => Ok(()),
        }
    }

    pub(crate) fn measure(&self, rt: &HostRuntime) -> Result<(), Stop> {
        match self {
            Points::Integer(points) => measure(rt, points.as_slice()),
            Points::Quadratic(points) => measure(rt, points.as_slice()),
        }
    }
}

fn add<P: PointKind>(rt: &HostRuntime, points: &mut Vec<P>, row: P::Row) -> Result<(), Stop> {
    let point = P::make(row)?;
    let number = points.len();
    let x = point.x();
    let y = point.y();
    points.push(point).map_err(|_| Stop::PointMemory)?;
    println!(rt; "point {number}: ({x}, {y})")?;
    Ok(())
}

fn measure<P: PointKind>(rt: &HostRuntime, points: &[P]) -> Result<(), Stop> {
    let count = points.len();
    if count < 2 {
        println!(rt; "measure: fewer than two points")?;
        return Ok(());
    }
    println!(rt; "measure: {count} points")?;
    print_turns(rt, points)?;
    let l1 = length_of_row(&L1, points);
    println!(rt; "length l1: {l1}")?;
    let maximum = length_of_row(&Maximum, points);
    println!(rt; "length maximum: {maximum}")?;
    let octagon = length_of_row(&Octagon, points);
    println!(rt; "length octagon: {octagon}")?;
    Ok(())
}

fn print_turns<P: PointKind>(rt: &HostRuntime, points: &[P]) -> Result<(), Stop> {
    for (i, three) in points.windows(3).enumerate() {
        if let [a, b, c] = three {
            let turn = P::turn(*a, *b, *c);
            let at = i + 1;
            println!(rt; "turn {at}: {turn}")?;
        }
    }
    Ok(())
}
