// The rule that needs points: every triangle turns left.
ghost use Rattle.std.specs.Prelude.{◌≡◌, ◌<◌, Decides, IfOk, IfErr};
ghost use Rattle.mesh.specs.Surface.{Has, Covers, spot, triangle_turn};
ghost use Rattle.mesh.specs.Sound.{TurnsLeft};
ghost use Rattle.mesh.specs.MeshLists.{meant, surface_of};
ghost use Rattle.mesh.specs.Stages.{Readable};
ghost use Rattle.mesh.specs.Verdict.{FirstBad, Refused};

use crate::limited::LimitedLists;
use crate::walkable::WalkableLists;
use base::ids::{HalfEdgeId, TriangleId};
use base::refusals::Refusal;
use geometry::Turn;
use geometry::kinds::PointKind;

// Lists in which every corner has a point: corners name vertices, and coordinates are in range.
#[derive(Drop)]
pub(crate) struct ReadableLists<'a, P: PointKind> {
    pub(crate) limited: LimitedLists<'a, P>,
    ghost readable: { ∥ Readable (meant P.written limited.given) ∥₁ },
}

impl<'a, P: PointKind> ReadableLists<'a, P> {
    // The lists as lists whose fans can be walked.
    pub(crate) fn walkable(self) -> Result<WalkableLists<'a, P>, Refusal>
        ensures kept { IfOk result (λ s. s.readable.limited.given ≡ self.entry.limited.given) }
        ensures refused { IfErr result (λ e. Refused (meant P.written self.entry.limited.given) e) }
    {
        if let Some(triangle) = self.first_wrong_turn() {
            return Err(Refusal::TriangleTurn { triangle });
        }
        if let Some(side) = self.limited.first_unpaired() {
            return Err(Refusal::TwinMismatch { side });
        }
        Ok(WalkableLists { readable: self })
    }

    // The point at a corner.
    fn spot(&self, h: HalfEdgeId) -> P
        requires { Has (surface_of P.written self.now.limited.given) h }
        ensures { P.at result ≡ spot (surface_of P.written self.now.limited.given) h }
    {
        let v = self.limited.vertex(h);
        match P::make(self.limited.given.rows[v.0 as usize]) {
            Ok(point) => point,
            Err(_) => unreachable(),
        }
    }

    fn turn(&self, t: TriangleId) -> Turn
        requires { t.0 < self.now.limited.given.triangles }
        ensures { result ≡ triangle_turn (surface_of P.written self.now.limited.given) t }
    {
        let a = self.spot(HalfEdgeId::of(t, 0));
        let b = self.spot(HalfEdgeId::of(t, 1));
        let c = self.spot(HalfEdgeId::of(t, 2));
        P::turn(a, b, c)
    }

    // The first triangle that does not turn left.
    fn first_wrong_turn(&self) -> Option<TriangleId>
        ensures { FirstBad (λ t. t.0) (TurnsLeft (surface_of P.written self.now.limited.given)) self.now.limited.given.triangles result }
    {
        (0..self.limited.given.triangles as u16)
            .find(|k| self.turn(TriangleId(*k)) != Turn::Left)
            .map(TriangleId)
    }

    // Whether the first ray of a fan lies in the sector of a later triangle.
    pub(crate) fn covers(&self, first: HalfEdgeId, h: HalfEdgeId) -> bool
        requires { Has (surface_of P.written self.now.limited.given) first × Has (surface_of P.written self.now.limited.given) h }
        ensures { Decides result (Covers (surface_of P.written self.now.limited.given) first h) }
    {
        let o = self.spot(h);
        let p = self.spot(first.next());
        let q = self.spot(h.next());
        let r = self.spot(h.previous());
        P::turn(o, q, p) != Turn::Right && P::turn(o, p, r) != Turn::Right
    }
}
