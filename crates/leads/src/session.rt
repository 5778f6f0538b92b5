// What a script works on: a row of points, the mesh that it describes, and the current mesh.
use crate::command::{Command, Kinds, parse};
use crate::current::{Base, Current};
use crate::points::Points;
use crate::stop::Stop;
use base::ids::HalfEdgeId;
use base::refusals::Refusal;
use described::lists::Described;
use described::rows::{Kind, PointRow, TriangleRow};
use meshes::Mesh;
use meshes::sheets::PerforatedSheet;
use std::alloc::Global;

const NO_MESH: &str = "a sheet before it, or a mesh that check finds sound";

#[derive(Drop)]
pub struct Session {
    heap: Global,
    points: Points,
    described: Option<Described>,
    current: Option<Current>,
}

impl Session {
    pub(crate) fn new(heap: Global) -> Session {
        Session {
            heap,
            points: Points::new(heap, Kind::Integer),
            described: None,
            current: None,
        }
    }

    fn kinds(&self) -> Kinds {
        Kinds {
            row: self.points.kind(),
            mesh: self.described.as_ref().map(|mesh| mesh.vertices.kind()),
        }
    }

    // Does what a line says, and prints it. A refusal is an answer: it is printed too, and nothing is changed.
    pub(crate) fn obey(&mut self, rt: &HostRuntime, line: &str) -> Result<(), Stop> {
        match self.try_obey(rt, line) {
            Err(Stop::Refused(refusal)) => println!(rt; "{refusal}")?,
            Err(Stop::Unsupported(mirror)) => println!(rt; "{mirror}")?,
            done => return done,
        }
        Ok(())
    }

    fn try_obey(&mut self, rt: &HostRuntime, line: &str) -> Result<(), Stop> {
        match parse(self.heap, line, self.kinds())? {
            Command::Pass => Ok(()),
            Command::SetKind(kind) => self.set_kind(rt, kind),
            Command::AddPoint(row) => self.points.add(rt, row),
            Command::Measure => self.points.measure(rt),
            Command::BeginMesh(kind) => self.begin_mesh(rt, kind),
            Command::AddVertex(row) => self.add_vertex(rt, row),
            Command::AddTriangle(row) => self.add_triangle(rt, row),
            Command::Check => self.check(rt),
            Command::Sheet(made) => self.sheet(rt, made),
            Command::Mirror => self.mirror(rt),
            Command::Bar(side) => self.bar(rt, side),
            Command::Show => self.show(rt),
        }
    }

    fn set_kind(&mut self, rt: &HostRuntime, kind: Kind) -> Result<(), Stop> {
        self.points = Points::new(self.heap, kind);
        println!(rt; "kind {kind}")?;
        Ok(())
    }

    fn begin_mesh(&mut self, rt: &HostRuntime, kind: Kind) -> Result<(), Stop> {
        self.described = Some(Described::new(self.heap, kind));
        println!(rt; "mesh {kind}")?;
        Ok(())
    }

    fn add_vertex(&mut self, rt: &HostRuntime, row: PointRow) -> Result<(), Stop> {
        if let Some(mesh) = &mut self.described {
            let number = mesh.vertices.count();
            mesh.vertices.push(row)?;
            println!(rt; "vertex {number}")?;
        }
        Ok(())
    }

    fn add_triangle(&mut self, rt: &HostRuntime, row: TriangleRow) -> Result<(), Stop> {
        if let Some(mesh) = &mut self.described {
            let number = mesh.triangles;
            mesh.add_triangle(row)?;
            println!(rt; "triangle {number}")?;
        }
        Ok(())
    }

    fn check(&mut self, rt: &HostRuntime) -> Result<(), Stop> {
        if let Some(mesh) = &self.described {
            let vertices = mesh.vertices.count();
            let triangles = mesh.triangles;
            println!(rt; "checked: {vertices} vertices, {triangles} triangles")?;
            mesh.check()?;
            self.current = Some(Current::new(self.heap, Base::Lists(mesh.clone()?)));
            println!(rt; "sound")?;
        }
        Ok(())
    }

    fn sheet(
        &mut self,
        rt: &HostRuntime,
        made: Result<PerforatedSheet, Refusal>,
    ) -> Result<(), Stop> {
        let sheet = made?;
        let triangles = sheet.triangles();
        let vertices = sheet.vertices();
        self.current = Some(Current::new(self.heap, Base::Sheet(sheet)));
        println!(rt; "sheet: {triangles} triangles, {vertices} vertices")?;
        Ok(())
    }

    fn mirror(&mut self, rt: &HostRuntime) -> Result<(), Stop> {
        let mesh = self.current.as_mut().ok_or(Stop::Expected(NO_MESH))?;
        mesh.mirror()?;
        println!(rt; "mirror")?;
        Ok(())
    }

    fn bar(&mut self, rt: &HostRuntime, side: HalfEdgeId) -> Result<(), Stop> {
        let mesh = self.current.as_mut().ok_or(Stop::Expected(NO_MESH))?;
        mesh.bar(side)?;
        let code = side.0;
        println!(rt; "bar {code}")?;
        Ok(())
    }

    fn show(&self, rt: &HostRuntime) -> Result<(), Stop> {
        let mesh = self.current.as_ref().ok_or(Stop::Expected(NO_MESH))?;
        mesh.show(rt)
    }
}
