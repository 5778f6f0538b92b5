// A mesh that reads lent lists: a row of coordinates for each vertex, and a corner and a code across for each half-edge.
ghost use Rattle.mesh.specs.Lists.{listed};
ghost use Rattle.mesh.specs.MeshLists.{meant};
ghost use Rattle.surfaces.specs.Lawful.{Vetted, Holds};
ghost use Rattle.surfaces.proofs.ListedLawful.{vetted_lawful};

use crate::Mesh;
use crate::lists::{corners_at, twin_at};
use base::ids::{HalfEdgeId, TriangleId, VertexId};
use geometry::kinds::{Origin, PointKind};
use mesh::lists::MeshLists;

#[derive(Drop)]
pub struct IndexedMesh<'a, P: PointKind> {
    lists: MeshLists<'a, P>,
    ghost vetted: { ∥ Vetted (meant P.written lists) ∥₁ },
}

impl<'a, P: PointKind> IndexedMesh<'a, P> {
    // The mesh of these lists; of lists that are refused, the mesh with nothing in it.
    pub fn new(given: MeshLists<'a, P>) -> IndexedMesh<'a, P>
        ensures { Holds (meant P.written given.entry) (meant P.written result.lists) }
    {
        if given.validate().is_err() {
            return IndexedMesh {
                lists: MeshLists {
                    triangles: 0,
                    rows: &given.rows[..0],
                    corners: &given.corners[..0],
                    across: &given.across[..0],
                },
            };
        }
        IndexedMesh { lists: given }
    }
}

impl<'a, P: Origin> Mesh for IndexedMesh<'a, P> {
    type Point = P;

    ghost surface = { λ m. listed (meant P.written m.lists) };

    ghost sound = { λ m. vetted_lawful (meant P.written m.lists) m.vetted };

    fn triangles(&self) -> u16 {
        self.lists.triangles as u16
    }

    fn vertices(&self) -> u16 {
        self.lists.rows.len() as u16
    }

    fn corners(&self, t: TriangleId) -> [VertexId; 3] {
        corners_at(self.lists.corners, t)
    }

    fn point(&self, v: VertexId) -> P {
        let Some(row) = self.lists.rows.get(v.0 as usize) else {
            return P::origin();
        };
        match P::make(*row) {
            Ok(point) => point,
            Err(_) => unreachable(),
        }
    }

    fn twin(&self, h: HalfEdgeId) -> Option<HalfEdgeId> {
        twin_at(self.lists.across, h)
    }
}
