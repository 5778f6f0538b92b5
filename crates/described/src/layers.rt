// Layers over a mesh, and the mesh that they make of it.
ghost use Rattle.std.specs.Prelude.{◌≡◌, [], ◌∷◌, ◌++◌, length, take, IfOk, OnErr, OnOk, MatchOption, MatchResult};
ghost use Rattle.std.specs.Option.{option_or};
ghost use Rattle.base.specs.Refusals.{refusal};
ghost use Rattle.surfaces.specs.Layers.{barred as barred_surface, bar_refusal};
ghost use Rattle.described.specs.declared.layers.Pile.{Pile};
ghost use Rattle.described.specs.Bars.{Layer, from_below, mirror_layer, bar_layer, having_bars, under, first_refused, stands};

use base::ids::HalfEdgeId;
use base::refusals::Refusal;
use meshes::Mesh;
use meshes::bars::Barred;
use meshes::mirrors::Mirrored;
use std::alloc::{AllocError, Global};
use thiserror::Error;

// The piles of layers that are supported, each named from the bottom up.
#[derive(Clone, Copy, PartialEq, Eq, Debug)]
pub enum Pile {
    Bare,
    Mirror,
    Bars,
    MirrorBars,
    BarsMirror,
}

impl Pile {
    // With a mirror on top, if that is supported.
    pub fn with_mirror(self) -> Option<Pile>
        ensures { MatchOption result ((pile : Pile) → ¬ (from_below pile ≡ from_below self ++ mirror_layer ∷ [])) (λ pile. from_below pile ≡ from_below self ++ mirror_layer ∷ []) }
    {
        match self {
            Pile::Bare => Some(Pile::Mirror),
            Pile::Bars => Some(Pile::BarsMirror),
            Pile::Mirror | Pile::MirrorBars | Pile::BarsMirror => None,
        }
    }

    // With a layer of bars on top, if that is supported.
    pub fn with_bars(self) -> Option<Pile>
        ensures having { MatchOption result (having_bars self ≡ self) (λ pile. pile ≡ having_bars self) }
        ensures top { MatchOption result ((pile : Pile) → ¬ (from_below pile ≡ from_below self ++ bar_layer ∷ [])) (λ pile. from_below pile ≡ from_below self ++ bar_layer ∷ []) }
    {
        match self {
            Pile::Bare => Some(Pile::Bars),
            Pile::Mirror => Some(Pile::MirrorBars),
            Pile::Bars | Pile::MirrorBars | Pile::BarsMirror => None,
        }
    }
}

// A mirror over a mesh that has one.
#[derive(Clone, Copy, PartialEq, Eq, Debug, Error)]
#[error("unsupported: a second mirror over a mesh")]
pub struct SecondMirror;

// A pile, and the bars on its layer of bars.
#[derive(Drop)]
pub struct Layers {
    pub pile: Pile,
    pub bars: Vec<HalfEdgeId>,
}

impl Layers {
    // Nothing lies over the mesh yet.
    pub fn none(heap: Global) -> Layers
        ensures pile { result.pile ≡ Pile.Bare }
        ensures bars { result.bars.items ≡ [] }
    {
        Layers {
            pile: Pile::Bare,
            bars: Vec::new(heap),
        }
    }

    // Puts a mirror on top.
    pub fn put_mirror(&mut self) -> Result<(), SecondMirror>
        ensures ok { OnOk result (from_below self.new.pile ≡ from_below self.old.pile ++ mirror_layer ∷ []) }
        ensures err { OnErr result ((self.new.pile ≡ self.old.pile) × ((pile : Pile) → ¬ (from_below pile ≡ from_below self.old.pile ++ mirror_layer ∷ []))) }
        ensures bars { self.new.bars ≡ self.old.bars }
    {
        self.pile = self.pile.with_mirror().ok_or(SecondMirror)?;
        Ok(())
    }

    // One bar more, on a layer of its own on top unless there is one.
    pub fn put_bar(&mut self, side: HalfEdgeId) -> Result<(), AllocError>
        ensures ok { OnOk result ((self.new.pile ≡ having_bars self.old.pile) × (self.new.bars.items ≡ self.old.bars.items ++ side ∷ [])) }
        ensures err { OnErr result ((self.new.pile ≡ self.old.pile) × (self.new.bars.items ≡ self.old.bars.items)) }
    {
        self.bars.push(side)?;
        self.pile = self.pile.with_bars().unwrap_or(self.pile);
        Ok(())
    }

    // The mesh with a layer of the bars over it, set in their order, or the refusal of the first that cannot stand.
    pub fn barred<M: Mesh + Drop>(&self, below: M) -> Result<Barred<M>, Refusal>
        ensures verdict { refusal result ≡ first_refused (M.surface below) [] self.now.bars.items }
        ensures made { IfOk result (λ mesh. (mesh.below ≡ below) × (mesh.bars.items ≡ self.now.bars.items)) }
    {
        let mut mesh = Barred::new(below);
        for side in self.bars.iter() {
            mesh.bar(*side)?;
        }
        Ok(mesh)
    }

    // Whether the pile stands on this base.
    pub fn stand<M: Mesh + Drop>(&self, base: M) -> Result<(), Refusal>
        ensures { refusal result ≡ stands self.now.pile self.now.bars.items (M.surface base) }
    {
        match self.pile {
            Pile::Bare | Pile::Mirror => Ok(()),
            Pile::Bars | Pile::BarsMirror => self.barred(base).map(|_| ()),
            Pile::MirrorBars => self.barred(Mirrored::new(base)).map(|_| ()),
        }
    }

    // Like `stand` it goes through the piles by itself: what lies over a base has another type for each.
    // What the layer of bars over this base, there already or to be, answers to one bar more.
    pub fn try_bar<M: Mesh + Drop>(&self, base: M, side: HalfEdgeId) -> Result<(), Refusal>
        ensures { let f = under self.now.pile (M.surface base) in refusal result ≡ option_or (first_refused f [] self.now.bars.items) (bar_refusal (barred_surface self.now.bars.items f) side (length self.now.bars.items)) }
    {
        match self.pile {
            Pile::Bare | Pile::Bars | Pile::BarsMirror => self.barred(base)?.bar(side),
            Pile::Mirror | Pile::MirrorBars => self.barred(Mirrored::new(base))?.bar(side),
        }
    }
}
