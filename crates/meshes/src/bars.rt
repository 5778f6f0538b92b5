// A mesh with barred portals: up to 64 that it shows as boundary from both sides.
ghost use Rattle.std.specs.Prelude.{◌≡◌, [], ◌∷◌, ◌++◌, length, MatchResult};
ghost use Rattle.base.specs.Refusals.{refusal};
ghost use Rattle.surfaces.specs.Layers.{barred, among, bar_refusal};
ghost use Rattle.surfaces.proofs.BarredLawful.{barred_lawful};

use crate::Mesh;
use arrayvec::ArrayVec;
use base::ids::{HalfEdgeId, TriangleId, VertexId};
use base::refusals::Refusal;
use geometry::kinds::PointKind;

const LIMIT: usize = 64;

#[derive(Drop)]
pub struct Barred<M: Mesh> {
    below: M,
    bars: ArrayVec<HalfEdgeId, LIMIT>,
}

impl<M: Mesh> Barred<M> {
    // No bar stands yet.
    pub fn new(below: M) -> Barred<M>
        ensures below { result.below ≡ below }
        ensures none { result.bars.items ≡ [] }
    {
        Barred {
            below,
            bars: ArrayVec::new(),
        }
    }

    // Bars a portal, named by either of its sides.
    pub fn bar(&mut self, side: HalfEdgeId) -> Result<(), Refusal>
        ensures verdict { refusal result ≡ bar_refusal (barred self.old.bars.items (M.surface self.old.below)) side (length self.old.bars.items) }
        ensures below { self.new.below ≡ self.old.below }
        ensures effect { MatchResult result (λ _. self.new.bars.items ≡ self.old.bars.items ++ side ∷ []) (λ _. self.new ≡ self.old) }
    {
        if self.twin(side).is_none() {
            return Err(Refusal::NoPortal { side });
        }
        if self.bars.is_full() {
            return Err(Refusal::BarsFull);
        }
        self.bars.push(side);
        Ok(())
    }

    fn is_barred(&self, side: HalfEdgeId) -> bool
        ensures { result ≡ among self.now.bars.items side }
    {
        self.bars.contains(&side)
    }
}

impl<M: Mesh> Mesh for Barred<M> {
    type Point = M::Point;

    ghost surface = { λ m. barred m.bars.items (M.Mesh.surface m.below) };

    ghost sound = { λ m. barred_lawful m.bars.items (M.Mesh.surface m.below) (M.Mesh.sound m.below) };

    fn triangles(&self) -> u16 {
        self.below.triangles()
    }

    fn vertices(&self) -> u16 {
        self.below.vertices()
    }

    fn corners(&self, t: TriangleId) -> [VertexId; 3] {
        self.below.corners(t)
    }

    fn point(&self, v: VertexId) -> M::Point {
        self.below.point(v)
    }

    fn twin(&self, h: HalfEdgeId) -> Option<HalfEdgeId> {
        let d = self.below.twin(h)?;
        if self.is_barred(h) || self.is_barred(d) {
            None
        } else {
            Some(d)
        }
    }
}
