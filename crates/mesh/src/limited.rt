// The rules that only need the lists to keep the limits: coordinates in range, corners that name vertices, sides that are paired.
ghost use Rattle.std.specs.Prelude.{◌≡◌, ◌*◌, ◌<◌, length, Decides, IfOk, IfErr};
ghost use Rattle.mesh.specs.Surface.{Has, Twins};
ghost use Rattle.mesh.specs.Sound.{CornerBelow, Paired};
ghost use Rattle.mesh.specs.Lists.{Limits, InRange};
ghost use Rattle.mesh.specs.MeshLists.{meant, surface_of};
ghost use Rattle.mesh.specs.Verdict.{FirstBad, Refused};

use crate::lists::MeshLists;
use crate::readable::ReadableLists;
use base::ids::{HalfEdgeId, VertexId};
use base::refusals::Refusal;
use geometry::kinds::PointKind;

// Lists that keep the limits: all numbers fit, and every half-edge has its entries.
// That a half-edge is one of theirs is asked at each look: a type for that would tie every id to its lists.
#[derive(Drop)]
pub(crate) struct LimitedLists<'a, P: PointKind> {
    pub(crate) given: MeshLists<'a, P>,
    ghost limits: { Limits (meant P.written given) },
}

impl<'a, P: PointKind> LimitedLists<'a, P> {
    // The lists as lists in which every corner has a point.
    pub(crate) fn readable(self) -> Result<ReadableLists<'a, P>, Refusal>
        ensures kept { IfOk result (λ s. s.limited.given ≡ self.entry.given) }
        ensures refused { IfErr result (λ e. Refused (meant P.written self.entry.given) e) }
    {
        if let Some(vertex) = self.first_out_of_range() {
            return Err(Refusal::VertexRange { vertex });
        }
        if let Some(corner) = self.first_far_corner() {
            return Err(Refusal::CornerRange { corner });
        }
        Ok(ReadableLists { limited: self })
    }

    // The number of half-edges.
    pub(crate) fn sides(&self) -> u16
        ensures { result ≡ 3 * self.now.given.triangles }
    {
        3 * self.given.triangles as u16
    }

    // The vertex at a corner.
    pub(crate) fn vertex(&self, h: HalfEdgeId) -> VertexId
        requires { Has (surface_of P.written self.now.given) h }
        ensures { result ≡ (surface_of P.written self.now.given).corner h }
    {
        self.given.corners[h.place()]
    }

    // What is written across a side.
    pub(crate) fn twin(&self, h: HalfEdgeId) -> Option<HalfEdgeId>
        requires { Has (surface_of P.written self.now.given) h }
        ensures { result ≡ (surface_of P.written self.now.given).twin h }
    {
        self.given.across[h.place()].leads()
    }

    // The first vertex that has a coordinate out of range.
    fn first_out_of_range(&self) -> Option<VertexId>
        ensures { FirstBad (λ v. v.0) (InRange (meant P.written self.now.given)) (length self.now.given.rows.now) result }
    {
        (0..self.given.rows.len() as u16)
            .find(|k| !self.is_in_range(VertexId(*k)))
            .map(VertexId)
    }

    // Whether the row of a vertex makes a point.
    fn is_in_range(&self, v: VertexId) -> bool
        requires { v.0 < length self.now.given.rows.now }
        ensures { Decides result (InRange (meant P.written self.now.given) v) }
    {
        P::make(self.given.rows[v.0 as usize]).is_ok()
    }

    // The first corner that names no vertex.
    fn first_far_corner(&self) -> Option<HalfEdgeId>
        ensures { FirstBad (λ h. h.0) (CornerBelow (surface_of P.written self.now.given)) (3 * self.now.given.triangles) result }
    {
        let vertices = self.given.rows.len();
        let place = self
            .given
            .corners
            .iter()
            .position(|v| v.0 as usize >= vertices)?;
        Some(HalfEdgeId(place as u16))
    }

    // The first side that is neither boundary nor paired with its twin.
    pub(crate) fn first_unpaired(&self) -> Option<HalfEdgeId>
        ensures { FirstBad (λ h. h.0) (Paired (surface_of P.written self.now.given)) (3 * self.now.given.triangles) result }
    {
        // A loop: tried with `find`; that the rule fails for the side that was found stayed open.
        for k in 0..self.sides() {
            if !self.is_paired(HalfEdgeId(k)) {
                return Some(HalfEdgeId(k));
            }
        }
        None
    }

    // Whether a side is boundary or paired with its twin.
    fn is_paired(&self, h: HalfEdgeId) -> bool
        requires { Has (surface_of P.written self.now.given) h }
        ensures { Decides result (Paired (surface_of P.written self.now.given) h) }
    {
        match self.twin(h) {
            Some(d) => self.are_twins(h, d),
            None => true,
        }
    }

    // Whether two sides lead to each other and share their ends crosswise.
    fn are_twins(&self, h: HalfEdgeId, d: HalfEdgeId) -> bool
        requires { Has (surface_of P.written self.now.given) h }
        ensures { Decides result (Twins (surface_of P.written self.now.given) h d) }
    {
        d.0 < self.sides()
            && self.twin(d) == Some(h)
            && self.vertex(h) == self.vertex(d.next())
            && self.vertex(h.next()) == self.vertex(d)
    }
}
