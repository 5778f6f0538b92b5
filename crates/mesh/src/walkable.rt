// The rules on fans. Round each vertex, every open fan is walked once from its first corner on.
ghost use Rattle.std.specs.Prelude.{◌≡◌, ◌+◌, ◌*◌, ◌⊎◌, Some};
ghost use Rattle.base.specs.declared.ids.HalfEdgeId.{HalfEdgeId as Corner};
ghost use Rattle.mesh.specs.Surface.{Has, on, Covers};
ghost use Rattle.mesh.specs.Sound.{FallsShort};
ghost use Rattle.mesh.specs.MeshLists.{meant, surface_of};
ghost use Rattle.mesh.specs.Stages.{Walkable, Starts, AtMost, Fresh, Fanned, Marked, WalkedTo, Walked};
ghost use Rattle.mesh.specs.Verdict.{FirstBad, Verdict};

use crate::marks::Marks;
use crate::readable::ReadableLists;
use base::ids::HalfEdgeId;
use base::refusals::Refusal;
use geometry::kinds::PointKind;

// Lists whose fans can be walked: every side is boundary or paired.
#[derive(Drop)]
pub(crate) struct WalkableLists<'a, P: PointKind> {
    pub(crate) readable: ReadableLists<'a, P>,
    ghost walkable: { ∥ Walkable (meant P.written readable.limited.given) ∥₁ },
}

impl<'a, P: PointKind> WalkableLists<'a, P> {
    // Accepts lists whose fans are all open and span less than a full turn.
    pub(crate) fn check_fans(&self) -> Result<(), Refusal>
        ensures { Verdict (meant P.written self.now.readable.limited.given) result }
    {
        let lists = &self.readable.limited;
        let mut opened = Marks::none();
        let round = self.walk_fans(&mut opened);
        if let Some(corner) = opened.first_unmarked(lists.sides()) {
            let vertex = lists.vertex(corner);
            return Err(Refusal::ClosedFan { corner, vertex });
        }
        if let Some(corner) = round {
            let vertex = lists.vertex(corner);
            return Err(Refusal::FullTurn { corner, vertex });
        }
        Ok(())
    }

    // Marks the corners of all open fans, and answers the smallest corner that comes round.
    fn walk_fans(&self, opened: &mut Marks) -> Option<HalfEdgeId>
        requires { (x : Corner) → Marked opened.old.marked x → ⊥ }
        ensures walked { Walked (surface_of P.written self.now.readable.limited.given) opened.new.marked }
        ensures short { FirstBad (λ h. h.0) (FallsShort (surface_of P.written self.now.readable.limited.given)) (3 * self.now.readable.limited.given.triangles) result }
    {
        let mut least = None;
        // By number: what is marked and what is least go on from corner to corner.
        for k in 0..self.readable.limited.sides() {
            least = self.walk_from(HalfEdgeId(k), least, opened);
        }
        least
    }

    // Walks the fan of h if h is its first corner; `least` is the smallest corner so far that comes round.
    fn walk_from(
        &self,
        h: HalfEdgeId,
        least: Option<HalfEdgeId>,
        opened: &mut Marks,
    ) -> Option<HalfEdgeId>
        requires there { Has (surface_of P.written self.now.readable.limited.given) h }
        requires walked { WalkedTo (surface_of P.written self.now.readable.limited.given) h.0 opened.old.marked least }
        ensures { WalkedTo (surface_of P.written self.now.readable.limited.given) (h.0 + 1) opened.new.marked result }
    {
        if self.readable.limited.twin(h).is_some() {
            return least;
        }
        lesser(least, self.walk_fan(h, opened))
    }

    // Marks the corners of the fan that begins at `first`, and answers the smallest of them that comes round.
    fn walk_fan(&self, first: HalfEdgeId, opened: &mut Marks) -> Option<HalfEdgeId>
        requires starts { Starts (surface_of P.written self.now.readable.limited.given) first }
        requires fresh { Fresh (surface_of P.written self.now.readable.limited.given) opened.old.marked first }
        ensures { Fanned (surface_of P.written self.now.readable.limited.given) first opened.old.marked opened.new.marked result }
    {
        let mut least = None;
        let mut h = first;
        opened.mark(h);
        while let Some(d) = self.following(h) {
            h = d;
            opened.mark(h);
            least = self.lowered(first, h, least);
        }
        least
    }

    // The corner that follows in the fan of h: across the side that runs into h.
    fn following(&self, h: HalfEdgeId) -> Option<HalfEdgeId>
        requires { Has (surface_of P.written self.now.readable.limited.given) h }
        ensures { result ≡ on (surface_of P.written self.now.readable.limited.given) h }
    {
        self.readable.limited.twin(h.previous())
    }

    // The smaller of `least` and h where the sector of h holds the first ray, else `least`.
    fn lowered(
        &self,
        first: HalfEdgeId,
        h: HalfEdgeId,
        least: Option<HalfEdgeId>,
    ) -> Option<HalfEdgeId>
        requires { Has (surface_of P.written self.now.readable.limited.given) first × Has (surface_of P.written self.now.readable.limited.given) h }
        ensures which { (result ≡ least) ⊎ ((result ≡ Some h) × Covers (surface_of P.written self.now.readable.limited.given) first h) }
        ensures less { (x : Corner) → AtMost least x → AtMost result x }
        ensures here { Covers (surface_of P.written self.now.readable.limited.given) first h → AtMost result h }
    {
        if self.readable.covers(first, h) {
            lesser(least, Some(h))
        } else {
            least
        }
    }
}

// The smaller of two corners, where there are two.
fn lesser(a: Option<HalfEdgeId>, b: Option<HalfEdgeId>) -> Option<HalfEdgeId>
    ensures which { (result ≡ a) ⊎ (result ≡ b) }
    ensures first { (x : Corner) → AtMost a x → AtMost result x }
    ensures second { (x : Corner) → AtMost b x → AtMost result x }
{
    match (a, b) {
        (Some(a), Some(b)) => Some(HalfEdgeId(a.0.min(b.0))),
        _ => a.or(b),
    }
}
