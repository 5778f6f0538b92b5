// Which corners of a mesh are marked.
ghost use Rattle.std.specs.Prelude.{◌≡◌, ◌<◌, ◌≤◌, true, length, slice_set};
ghost use Rattle.base.specs.declared.ids.HalfEdgeId.{HalfEdgeId as Corner};
ghost use Rattle.mesh.specs.declared.marks.TheConstants.{MOST_SIDES};
ghost use Rattle.mesh.specs.Stages.{Marked};
ghost use Rattle.mesh.specs.Verdict.{FirstBad};

use base::ids::HalfEdgeId;

// As many as a mesh has corners at most. An array, so that no check fails for want of memory.
const MOST_SIDES: usize = 12_288;

// A mark for each corner; the first so many are those of the mesh.
#[derive(Drop)]
pub(crate) struct Marks {
    pub(crate) marked: [bool; MOST_SIDES],
    ghost sized: { length marked ≡ MOST_SIDES },
}

impl Marks {
    // No corner is marked.
    pub(crate) fn none() -> Marks
        ensures { (x : Corner) → Marked result.marked x → ⊥ }
    {
        Marks {
            marked: [false; MOST_SIDES],
        }
    }

    pub(crate) fn mark(&mut self, h: HalfEdgeId)
        requires { h.0 < MOST_SIDES }
        ensures { self.new.marked ≡ slice_set self.old.marked h.0 true }
    {
        self.marked[h.place()] = true;
    }

    // The first corner that is not marked, of this many.
    pub(crate) fn first_unmarked(&self, sides: u16) -> Option<HalfEdgeId>
        requires { sides ≤ MOST_SIDES }
        ensures { FirstBad (λ h. h.0) (Marked self.now.marked) sides result }
    {
        (0..sides)
            .find(|k| !self.marked[*k as usize])
            .map(HalfEdgeId)
    }
}
