// The funnel at the last portal.
ghost use Rattle.std.specs.Prelude.{◌≡◌, length};
ghost use Rattle.funnel.specs.Chains.{Begins, Opens};

use crate::{Chains, Corner, Portal, Working};
use base::ids::VertexId;
use deque::Deque;
use geometry::kinds::PointKind;
use taut::Side;

impl<'w, P: PointKind> Working<'w, P> {
    // The end point alone. It is no bend, so its vertex and its side say nothing.
    fn at_end(slots: &'w mut [Corner<P>], places: &'w mut [Corner<P>], end: P) -> Working<'w, P>
        ensures begins { Begins P.at end result }
        ensures room { (length result.slots.now ≡ length slots.old) × (length result.places.now ≡ length places.old) }
    {
        let mut row = Deque::new();
        let apex = Corner {
            vertex: VertexId(0),
            side: Side::Left,
            point: end,
        };
        let _ = row.push_front(slots, apex);
        Working {
            slots,
            places,
            chains: Chains {
                row,
                bends: Deque::new(),
                near: 0,
                far: 0,
            },
        }
    }

    // The funnel between the ends of the last portal and the end point.
    pub(crate) fn open(
        slots: &'w mut [Corner<P>],
        places: &'w mut [Corner<P>],
        end: P,
        portal: Portal<P>,
    ) -> Working<'w, P>
        ensures opens { Opens P.at end portal result }
        ensures room { (length result.slots.now ≡ length slots.old) × (length result.places.now ≡ length places.old) }
    {
        let mut chains = Working::at_end(slots, places, end);
        chains.push_near(Side::Left, portal.left);
        chains.flip();
        chains.push_near(Side::Right, portal.right);
        chains.flip();
        chains
    }
}
