// The walks: the host of each must be a mesh, and its layers and bars must be accepted.
use crate::answer::Refused;
use crate::layers::read_layers;
use crate::lists::{Size, read_vertices, triangle_row};
use crate::reader::{Case, Line, Lines};
use crate::report::Outcome;
use base::refusals::Refusal;
use described::layers::Layers;
use described::lists::{Described, OnMesh};
use described::rows::sheet_of;
use meshes::Mesh;
use std::alloc::Global;

pub fn run(heap: Global, case: &Case) -> anyhow::Result<Outcome> {
    let mut lines = case.lines();
    let line = lines.next_after("host")?;
    let (name, rest) = line.first_word();
    match name {
        "sheet" => sheet(heap, rest, &mut lines),
        "table" => table(heap, rest, &mut lines),
        "packed" => Ok(Outcome::Skipped),
        _ => Err(
            line.malformed("host sheet, host table or host packed")
                .into(),
        ),
    }
}

// A walk that should have been accepted.
fn refused(heap: Global, refusal: Refusal) -> anyhow::Result<Outcome> {
    let refused = Refused::from(refusal);
    Ok(Outcome::Differs {
        expected: String::from_str(heap, "ok")?,
        got: format!(in heap; "{refused}")?,
    })
}

// Whether layers stand.
#[derive(Clone, Copy)]
struct Stand<'a> {
    layers: &'a Layers,
}

impl<'a> OnMesh for Stand<'a> {
    type Answer = Result<(), Refusal>;

    fn on<M: Mesh + Drop>(self, mesh: M) -> Result<(), Refusal> {
        self.layers.stand(mesh)
    }
}

fn sheet(heap: Global, head: Line, lines: &mut Lines) -> anyhow::Result<Outcome> {
    match head.read(heap, sheet_of, "host sheet and three sizes")? {
        Ok(sheet) => layered(heap, lines, |layers| layers.stand(sheet)),
        Err(refusal) => refused(heap, refusal),
    }
}

// The layers that the next lines name, over a base that says whether they stand.
fn layered<F: FnOnce(&Layers) -> Result<(), Refusal>>(
    heap: Global,
    lines: &mut Lines,
    base: F,
) -> anyhow::Result<Outcome>
    requires { F.IsAlwaysCallable base }
{
    let Some(layers) = read_layers(heap, lines)? else {
        return Ok(Outcome::Skipped);
    };
    match base(&layers) {
        Ok(()) => Ok(Outcome::Agrees),
        Err(refusal) => refused(heap, refusal),
    }
}

fn table(heap: Global, head: Line, lines: &mut Lines) -> anyhow::Result<Outcome> {
    let size = head.read(heap, Size::parse, "host table, a kind and two sizes")?;
    let mut table = Described::new(heap, size.kind);
    read_vertices(heap, lines, size.vertices, &mut table.vertices)?;
    for _ in 0..size.triangles {
        let line = lines.next_after("tri")?;
        table.add_triangle(line.read(heap, triangle_row, "tri and six numbers from 0 to 65535")?)?;
    }
    match table.check() {
        Ok(()) => layered(heap, lines, |layers| table.on_mesh(Stand { layers })),
        Err(refusal) => refused(heap, refusal),
    }
}
