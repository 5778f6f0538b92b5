// The mesh that the commands after it work on: a base, with layers over it.
use crate::shown::show;
use crate::stop::Stop;
use base::ids::HalfEdgeId;
use base::refusals::Refusal;
use described::layers::{Layers, Pile, SecondMirror};
use described::lists::{Described, OnMesh};
use meshes::Mesh;
use meshes::mirrors::Mirrored;
use meshes::sheets::PerforatedSheet;
use std::alloc::Global;

#[derive(Drop)]
pub enum Base {
    Sheet(PerforatedSheet),
    // Lists that were found sound.
    Lists(Described),
}

impl Base {
    fn on_mesh<A: OnMesh>(&self, act: A) -> A::Answer {
        match self {
            Base::Sheet(sheet) => act.on(*sheet),
            Base::Lists(lists) => lists.on_mesh(act),
        }
    }
}

#[derive(Drop)]
pub struct Current {
    base: Base,
    layers: Layers,
}

impl Current {
    pub(crate) fn new(heap: Global, base: Base) -> Current {
        Current {
            base,
            layers: Layers::none(heap),
        }
    }

    pub(crate) fn mirror(&mut self) -> Result<(), SecondMirror> {
        self.layers.put_mirror()
    }

    pub(crate) fn bar(&mut self, side: HalfEdgeId) -> Result<(), Stop> {
        let layers = &self.layers;
        self.base.on_mesh(TryBar { layers, side })?;
        self.layers.put_bar(side)?;
        Ok(())
    }

    pub(crate) fn show(&self, rt: &HostRuntime) -> Result<(), Stop> {
        let layers = &self.layers;
        self.base.on_mesh(Show { rt, layers })
    }
}

// Asks whether one bar more would stand.
#[derive(Clone, Copy)]
struct TryBar<'a> {
    layers: &'a Layers,
    side: HalfEdgeId,
}

impl<'a> OnMesh for TryBar<'a> {
    type Answer = Result<(), Refusal>;

    fn on<M: Mesh + Drop>(self, mesh: M) -> Result<(), Refusal> {
        self.layers.try_bar(mesh, self.side)
    }
}

// Shows the mesh under its layers.
#[derive(Clone, Copy)]
struct Show<'a> {
    rt: &'a HostRuntime,
    layers: &'a Layers,
}

impl<'a> OnMesh for Show<'a> {
    type Answer = Result<(), Stop>;

    fn on<M: Mesh + Drop>(self, base: M) -> Result<(), Stop> {
        // Here too: what lies over a base has another type for each pile.
        match self.layers.pile {
            Pile::Bare => show(self.rt, &base),
            Pile::Mirror => show(self.rt, &Mirrored::new(base)),
            Pile::Bars => show(self.rt, &self.layers.barred(base)?),
            Pile::MirrorBars => show(self.rt, &self.layers.barred(Mirrored::new(base))?),
            Pile::BarsMirror => show(self.rt, &Mirrored::new(self.layers.barred(base)?)),
        }
    }
}
