// Lists that may be a mesh, and whether they are a sound one.
ghost use Rattle.std.specs.Prelude.{◌≡◌, Decides, IfOk, IfErr};
ghost use Rattle.mesh.specs.Lists.{Limits};
ghost use Rattle.mesh.specs.MeshLists.{meant};
ghost use Rattle.mesh.specs.Verdict.{Refused, Verdict};

use crate::limited::LimitedLists;
use base::ids::{HalfEdgeId, VertexId};
use base::refusals::Refusal;
use geometry::kinds::PointKind;

const MOST_TRIANGLES: usize = 4_096;

const FEWEST_VERTICES: usize = 3;

const MOST_VERTICES: usize = 8_192;

// Lists that may be a mesh: how many triangles they claim, a row of coordinates for each vertex, and a corner and a code across for each half-edge.
#[derive(Clone, Copy)]
pub struct MeshLists<'a, P: PointKind> {
    pub triangles: usize,
    pub rows: &'a [P::Row],
    pub corners: &'a [VertexId],
    pub across: &'a [HalfEdgeId],
}

impl<'a, P: PointKind> MeshLists<'a, P> {
    // Accepts lists of a sound mesh, and names the first rule that other lists break and the smallest place where they break it.
    // A code across of 65,535 is boundary; any other code that is no half-edge of the mesh is paired with nothing.
    pub fn validate(self) -> Result<(), Refusal>
        ensures { Verdict (meant P.written self.entry) result }
    {
        self.limited()?.readable()?.walkable()?.check_fans()
    }

    // The lists as lists that keep the limits.
    fn limited(self) -> Result<LimitedLists<'a, P>, Refusal>
        ensures kept { IfOk result (λ s. s.given ≡ self.entry) }
        ensures refused { IfErr result (λ e. Refused (meant P.written self.entry) e) }
    {
        if self.keeps_limits() {
            Ok(LimitedLists { given: self })
        } else {
            Err(Refusal::MeshLimits)
        }
    }

    fn keeps_limits(&self) -> bool
        ensures { Decides result (Limits (meant P.written self.now)) }
    {
        (1..=MOST_TRIANGLES).contains(&self.triangles)
            && (FEWEST_VERTICES..=MOST_VERTICES).contains(&self.rows.len())
            && self.corners.len() == 3 * self.triangles
            && self.across.len() == 3 * self.triangles
    }
}
