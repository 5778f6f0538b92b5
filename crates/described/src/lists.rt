// A mesh as lines describe it: lists that may be anything.
ghost use Rattle.std.specs.Prelude.{◌≡◌, ◌+◌, [], ◌∷◌, ◌++◌, length, map, min, OnErr, OnOk, ⊤};
ghost use Rattle.mesh.specs.Surface.{Surface};
ghost use Rattle.mesh.specs.Lists.{Lists, lists, listed};
ghost use Rattle.mesh.specs.MeshLists.{meant};
ghost use Rattle.mesh.specs.Verdict.{Verdict};
ghost use Rattle.surfaces.specs.Lawful.{Holds};
ghost use Rattle.described.specs.Lists.{kind_of_all, points, placed, as_mesh, AddsTriangle};

use crate::rows::{Kind, PointRow, TriangleRow};
use base::ids::{HalfEdgeId, VertexId};
use base::refusals::Refusal;
use geometry::kinds::PointKind;
use geometry::{IntegerPoint, IntegerRow, QuadraticPoint, QuadraticRow};
use mesh::lists::MeshLists;
use meshes::Mesh;
use meshes::indexed::IndexedMesh;
use std::alloc::{AllocError, Global};

// Rows that may be refused; an enum, since the kind is known only as the lines are read.
#[derive(Clone, Drop)]
pub enum Vertices {
    Integer(Vec<IntegerRow>),
    Quadratic(Vec<QuadraticRow>),
}

impl Vertices {
    fn new(heap: Global, kind: Kind) -> Vertices
        ensures kind { kind_of_all result ≡ kind }
        ensures none { points result ≡ [] }
    {
        match kind {
            Kind::Integer => Vertices::Integer(Vec::new(heap)),
            Kind::Quadratic => Vertices::Quadratic(Vec::new(heap)),
        }
    }

    pub fn kind(&self) -> Kind
        ensures { result ≡ kind_of_all self.now }
    {
        match self {
            Vertices::Integer(_) => Kind::Integer,
            Vertices::Quadratic(_) => Kind::Quadratic,
        }
    }

    pub fn count(&self) -> usize
        ensures { result ≡ length (points self.now) }
    {
        match self {
            Vertices::Integer(rows) => rows.len(),
            Vertices::Quadratic(rows) => rows.len(),
        }
    }

    // One vertex more; a row of the other kind is left out.
    pub fn push(&mut self, row: PointRow) -> Result<(), AllocError>
        ensures kind { kind_of_all self.new ≡ kind_of_all self.old }
        ensures ok { OnOk result (points self.new ≡ points self.old ++ placed (kind_of_all self.old) row) }
        ensures err { OnErr result (points self.new ≡ points self.old) }
    {
        match (self, row) {
            (Vertices::Integer(rows), PointRow::Integer(row)) => rows.push(row)?,
            (Vertices::Quadratic(rows), PointRow::Quadratic(row)) => rows.push(row)?,
            _ => {}
        }
        Ok(())
    }
}

// The number of triangles that it claims, the vertices, and a corner and a code across for each half-edge: in two lists, as a mesh reads them.
#[derive(Clone, Drop)]
pub struct Described {
    pub triangles: usize,
    pub vertices: Vertices,
    pub corners: Vec<VertexId>,
    pub across: Vec<HalfEdgeId>,
}

impl Described {
    // With nothing in it yet.
    pub fn new(heap: Global, kind: Kind) -> Described
        ensures kind { kind_of_all result.vertices ≡ kind }
        ensures none { as_mesh result ≡ record { triangles = 0; points = []; corners = []; across = [] } }
    {
        Described {
            triangles: 0,
            vertices: Vertices::new(heap, kind),
            corners: Vec::new(heap),
            across: Vec::new(heap),
        }
    }

    // One triangle more.
    pub fn add_triangle(&mut self, row: TriangleRow) -> Result<(), AllocError>
        ensures vertices { self.new.vertices ≡ self.old.vertices }
        ensures ok { OnOk result (AddsTriangle row self.old self.new) }
        ensures err { OnErr result (as_mesh self.new ≡ as_mesh self.old) }
    {
        self.across.reserve(3)?;
        self.corners.extend_from_slice(&row.corners)?;
        self.across.extend_from_slice(&row.across).unwrap();
        self.triangles = self.triangles.saturating_add(1);
        Ok(())
    }

    // Whether the lists are a sound mesh.
    pub fn check(&self) -> Result<(), Refusal>
        ensures { Verdict (as_mesh self.now) result }
    {
        match &self.vertices {
            Vertices::Integer(rows) => self.lists::<IntegerPoint>(rows.as_slice()).validate(),
            Vertices::Quadratic(rows) => self.lists::<QuadraticPoint>(rows.as_slice()).validate(),
        }
    }

    // Does an act on the mesh of these lists; of lists that are refused, on the mesh with nothing in it.
    pub fn on_mesh<A: OnMesh>(&self, act: A) -> A::Answer
        ensures { (held : Lists) × Holds (as_mesh self.now) held × A.on_gives act (listed held) result }
    {
        match &self.vertices {
            Vertices::Integer(rows) => {
                act.on(IndexedMesh::new(self.lists::<IntegerPoint>(rows.as_slice())))
            }
            Vertices::Quadratic(rows) => {
                act.on(IndexedMesh::new(self.lists::<QuadraticPoint>(rows.as_slice())))
            }
        }
    }

    // The lists, with these rows for the vertices.
    fn lists<'a, P: PointKind>(&'a self, rows: &'a [P::Row]) -> MeshLists<'a, P>
        ensures { meant P.written result ≡ lists self.now.triangles (map P.written rows.now) self.now.corners.items self.now.across.items }
    {
        MeshLists {
            triangles: self.triangles,
            rows,
            corners: self.corners.as_slice(),
            across: self.across.as_slice(),
        }
    }
}

// What is done with a mesh of any kind.
pub trait OnMesh {
    type Answer;

    // What it may answer over a surface.
    ghost on_gives: { Self → Surface → Self.Answer → Type 0 } = { λ _ _ _. ⊤ };

    fn on<M: Mesh + Drop>(self, mesh: M) -> Self::Answer
        ensures { on_gives self (M.surface mesh) result };
}
