// The bends that a funnel leaves, written in their order.
ghost use Rattle.std.specs.Prelude.{◌≡◌, ◌≤◌, length};
ghost use Rattle.std.specs.List.{slice_get};
ghost use Rattle.deque.specs.Contents.{contents};
ghost use Rattle.funnel.specs.Strings.{string_of, Writes};

use crate::{Bend, Working};
use geometry::kinds::PointKind;
use taut::Side;

impl<P: PointKind> Working<'_, P> {
    // Bend `k` as it is seen from the start: the left chain comes first, then the bends that are final.
    fn bend(&self, k: usize) -> Option<Bend>
        ensures { self.now.chains.near ≤ length (contents self.now.chains.row self.now.slots.now)
            → result ≡ slice_get (string_of self.now) k }
    {
        if k < self.chains.near {
            let corner = self.chains.row.get(self.slots, k)?;
            return Some(Bend {
                vertex: corner.vertex,
                side: Side::Left,
            });
        }
        let corner = self.chains.bends.get(self.places, k - self.chains.near)?;
        Some(Bend {
            vertex: corner.vertex,
            side: corner.side,
        })
    }

    // Writes the bends in the first places and answers how many they are.
    pub(crate) fn write(&self, out: &mut [Bend]) -> usize
        ensures { Writes self.now result out.old out.new }
    {
        for (k, place) in out.iter_mut().enumerate() {
            let Some(bend) = self.bend(k) else {
                return k;
            };
            *place = bend;
        }
        out.len()
    }
}
