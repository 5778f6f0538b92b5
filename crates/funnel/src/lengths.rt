// The exact length of a string.
ghost use Rattle.std.specs.Prelude.{◌≡◌, [], ◌∷◌, ◌++◌, map};
ghost use Rattle.algebra.specs.Number.{◌⊕◌};
ghost use Rattle.coordinates.specs.Values.{value};
ghost use Rattle.gauge.specs.Forms.{length_value};
ghost use Rattle.gauge.specs.Measure.{span};
ghost use Rattle.funnel.specs.Corners.{bend_point, Roomy};

use crate::Bend;
use coordinates::Quadratic;
use gauge::Length;
use gauge::gauges::Gauge;
use geometry::kinds::PointKind;
use meshes::Mesh;

// A length with one more piece.
fn grown(total: Length, piece: Quadratic) -> Length
    requires { Roomy total }
    ensures { length_value result ≡ length_value total ⊕ value piece }
{
    Length {
        p: total.p + piece.p as i128,
        q: total.q + piece.q as i128,
    }
}

// How long a string is that goes from a start over its bends to an end.
pub fn string_length<M: Mesh, G: Gauge>(
    mesh: &M,
    gauge: &G,
    start: M::Point,
    bends: &[Bend],
    end: M::Point,
) -> Length
    ensures { length_value result ≡ span (G.forms gauge.now) (M.Point.PointKind.at start) (map (bend_point (M.surface mesh.now)) bends.now ++ M.Point.PointKind.at end ∷ []) }
{
    let mut total = Length { p: 0, q: 0 };
    let mut last = start;
    let mut left = bends;
    // First and rest, with the previous point carried, as over points; a bend has no point, so the mesh is asked for each.
    while let [first, rest @ ..] = left {
        let point = mesh.point(first.vertex);
        total = grown(total, gauge.measure(M::Point::step(last, point)));
        last = point;
        left = rest;
    }
    grown(total, gauge.measure(M::Point::step(last, end)))
}
