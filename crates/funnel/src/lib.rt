// The funnel in code: it runs over any mesh and finds the bends of the taut string.
#![tactic(auto)]

mod beginning;
pub mod ends;
mod gaining;
pub mod lengths;
pub mod portals;
mod settling;
pub mod strings;
mod writing;

use base::ids::VertexId;
use deque::Deque;
use taut::Side;

// An end of a portal: its vertex, the side on which it lies, and its point.
#[derive(Clone, Copy)]
pub struct Corner<P: Copy> {
    pub vertex: VertexId,
    pub side: Side,
    pub point: P,
}

// A portal by its two ends.
#[derive(Clone, Copy)]
pub struct Portal<P: Copy> {
    pub left: Corner<P>,
    pub right: Corner<P>,
}

// A vertex at which a string bends, and the side on which that vertex lies.
#[derive(Clone, Copy, PartialEq, Eq, Debug)]
pub struct Bend {
    pub vertex: VertexId,
    pub side: Side,
}

// A funnel as it is seen from a side. Its row of corners is the near chain, the apex and the far chain, the near end at that side;
// `near` and `far` say how many corners the chains have. The bends that are final are a list too, the apex first if it is one.
#[derive(Clone, Copy)]
pub struct Chains<P: Copy> {
    row: Deque<Corner<P>>,
    bends: Deque<Corner<P>>,
    near: usize,
    far: usize,
}

// Chains with the memory that they stand in: the row in `slots` and the bends in `places`.
// Each call says that these keep their size (`SameRoom`): no invariant speaks of two moments.
// The side from which it is seen goes with each call: kept here it would have to be turned, and said, wherever the view turns.
#[derive(Drop)]
pub(crate) struct Working<'w, P: Copy> {
    slots: &'w mut [Corner<P>],
    places: &'w mut [Corner<P>],
    chains: Chains<P>,
}
