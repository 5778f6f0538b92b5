// The length of a row of points under a gauge.
ghost use Rattle.std.specs.Prelude.{◌≡◌, List, map};
ghost use Rattle.gauge.specs.Forms.{length_value};
ghost use Rattle.gauge.specs.Measure.{span, length_of};

use crate::Length;
use crate::gauges::Gauge;
use geometry::kinds::PointKind;

// How long the way is from a first point over the others.
pub fn span_of<P: PointKind, G: Gauge>(gauge: &G, start: P, row: &[P]) -> Length
    ensures { length_value result ≡ span (G.forms gauge.now) (P.at start) (map P.at row.now) }
{
    let mut total = Length { p: 0, q: 0 };
    let mut last = start;
    let mut left = row;
    while let [first, rest @ ..] = left {
        let piece = gauge.measure(P::step(last, *first));
        // Added here: that 128 bits hold the sum is known only from how long the row is.
        total = Length {
            p: total.p + piece.p as i128,
            q: total.q + piece.q as i128,
        };
        last = *first;
        left = rest;
    }
    total
}

// How long a row of points is; 0 where there are fewer than two.
pub fn length_of_row<P: PointKind, G: Gauge>(gauge: &G, row: &[P]) -> Length
    ensures { length_value result ≡ length_of (G.forms gauge.now) (map P.at row.now) }
{
    let [first, rest @ ..] = row else {
        return Length { p: 0, q: 0 };
    };
    span_of(gauge, *first, rest)
}
