// Small meshes and what becomes of them.
#![tactic(auto)]

ghost use Rattle.std.specs.Prelude.{◌≡◌, map, Ok, Err};
ghost use Rattle.base.specs.Ids.{vertex, half_edge};
ghost use Rattle.base.specs.declared.refusals.Refusal.TheVariants.{ClosedFan, FullTurn};
ghost use Rattle.geometry.specs.Points.{integer_row};
ghost use Rattle.mesh.specs.Lists.{lists};
ghost use Rattle.mesh.specs.MeshLists.{meant};

use base::ids::{HalfEdgeId, VertexId};
use base::refusals::Refusal;
use geometry::{IntegerPoint, IntegerRow};
use mesh::lists::MeshLists;

const NONE: HalfEdgeId = HalfEdgeId::BOUNDARY;

// The corners of a square and its middle.
const POINTS: [IntegerRow; 5] = [
    IntegerRow { x: 0, y: 0 },
    IntegerRow { x: 4, y: 0 },
    IntegerRow { x: 4, y: 4 },
    IntegerRow { x: 0, y: 4 },
    IntegerRow { x: 2, y: 2 },
];

// Four triangles that meet in the middle.
const CORNERS: [VertexId; 12] = [
    VertexId(0),
    VertexId(1),
    VertexId(4),
    VertexId(1),
    VertexId(2),
    VertexId(4),
    VertexId(2),
    VertexId(3),
    VertexId(4),
    VertexId(3),
    VertexId(0),
    VertexId(4),
];

// The square of four triangles with these codes across.
fn round_the_middle(across: &[HalfEdgeId]) -> MeshLists<'_, IntegerPoint>
    ensures { meant integer_row result ≡ lists 4 (map integer_row POINTS) CORNERS across.now }
{
    MeshLists {
        triangles: 4,
        rows: &POINTS,
        corners: &CORNERS,
        across,
    }
}

// All sides at the middle are portals: the triangles close up round it.
pub fn closed_square() -> Result<(), Refusal>
    ensures { result ≡ Err (ClosedFan (half_edge 2) (vertex 4)) }
{
    let across = [
        NONE,
        HalfEdgeId(5),
        HalfEdgeId(10),
        NONE,
        HalfEdgeId(8),
        HalfEdgeId(1),
        NONE,
        HalfEdgeId(11),
        HalfEdgeId(4),
        NONE,
        HalfEdgeId(2),
        HalfEdgeId(7),
    ];
    round_the_middle(&across).validate()
}

// The side between vertex 0 and the middle is boundary from both sides: the triangles come all the way round to it.
pub fn slit_square() -> Result<(), Refusal>
    ensures { result ≡ Err (FullTurn (half_edge 11) (vertex 4)) }
{
    let across = [
        NONE,
        HalfEdgeId(5),
        NONE,
        NONE,
        HalfEdgeId(8),
        HalfEdgeId(1),
        NONE,
        HalfEdgeId(11),
        HalfEdgeId(4),
        NONE,
        NONE,
        HalfEdgeId(7),
    ];
    round_the_middle(&across).validate()
}

// The square cut along one diagonal is a sound mesh.
pub fn halved_square() -> Result<(), Refusal>
    ensures { result ≡ Ok tt }
{
    let rows = [
        IntegerRow { x: 0, y: 0 },
        IntegerRow { x: 4, y: 0 },
        IntegerRow { x: 4, y: 4 },
        IntegerRow { x: 0, y: 4 },
    ];
    let corners = [
        VertexId(0),
        VertexId(1),
        VertexId(2),
        VertexId(0),
        VertexId(2),
        VertexId(3),
    ];
    let across = [NONE, NONE, HalfEdgeId(3), HalfEdgeId(2), NONE, NONE];
    MeshLists::<IntegerPoint> {
        triangles: 2,
        rows: &rows,
        corners: &corners,
        across: &across,
    }
    .validate()
}
