// A mesh as it is shown: its triangles with their corners and what lies across their sides.
use crate::stop::Stop;
use base::ids::{HalfEdgeId, TriangleId};
use meshes::Mesh;
use std::fmt;

// The half-edge across a side, or `-` for the boundary. A type of its own, since an `Option` is not this crate's to print.
#[derive(Clone, Copy)]
struct Across(Option<HalfEdgeId>);

impl Across {
    fn side<M: Mesh>(mesh: &M, t: TriangleId, k: u8) -> Across {
        Across(mesh.twin(HalfEdgeId::of(t, k)))
    }
}

impl fmt::Display for Across {
    fn fmt<W: fmt::Write>(&self, f: &mut fmt::Formatter<W>) -> fmt::Result {
        match self.0 {
            Some(side) => {
                let code = side.0;
                write!(f, "{code}")
            }
            None => write!(f, "-"),
        }
    }
}

pub(crate) fn show<M: Mesh>(rt: &HostRuntime, mesh: &M) -> Result<(), Stop> {
    let triangles = mesh.triangles();
    let vertices = mesh.vertices();
    println!(rt; "shown: {triangles} triangles, {vertices} vertices")?;
    for t in (0..triangles).map(TriangleId) {
        show_triangle(rt, mesh, t)?;
    }
    Ok(())
}

fn show_triangle<M: Mesh>(rt: &HostRuntime, mesh: &M, t: TriangleId) -> Result<(), Stop> {
    let [c0, c1, c2] = mesh.corners(t);
    let t0 = Across::side(mesh, t, 0);
    let t1 = Across::side(mesh, t, 1);
    let t2 = Across::side(mesh, t, 2);
    let number = t.0;
    let c0 = c0.0;
    let c1 = c1.0;
    let c2 = c2.0;
    println!(rt; "triangle {number}: corners {c0} {c1} {c2}, across {t0} {t1} {t2}")?;
    Ok(())
}
