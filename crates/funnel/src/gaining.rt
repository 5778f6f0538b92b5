// A new end of the present portal.
ghost use Rattle.funnel.specs.Chains.{SameRoom, Pushes, Flips, Nears, Gains, Widens};

use crate::ends::push;
use crate::{Corner, Portal, Working};
use geometry::kinds::PointKind;
use taut::Side;

impl<P: PointKind> Working<'_, P> {
    // Puts a corner at the near end.
    pub(crate) fn push_near(&mut self, side: Side, corner: Corner<P>)
        ensures pushes { Pushes P.at side corner self.old self.new }
        ensures room { SameRoom self.old self.new }
    {
        let Ok(()) = push(&mut self.chains.row, self.slots, side, corner) else {
            return;
        };
        self.chains.near = self.chains.near.saturating_add(1);
    }

    // Turns to the other side.
    pub(crate) fn flip(&mut self)
        ensures flips { Flips P.at self.old self.new }
        ensures room { SameRoom self.old self.new }
    {
        std::mem::swap(&mut self.chains.near, &mut self.chains.far);
    }

    // Settles the chains for a new near end and puts it there.
    fn gain_near(&mut self, side: Side, corner: Corner<P>)
        ensures nears { Nears P.at side corner self.old self.new }
        ensures room { SameRoom self.old self.new }
    {
        self.settle(side, corner.point);
        self.push_near(side, corner);
    }

    // Takes in a new end on a side, seen from the left before and after.
    pub(crate) fn gain(&mut self, side: Side, corner: Corner<P>)
        ensures gains { Gains P.at side corner self.old self.new }
        ensures room { SameRoom self.old self.new }
    {
        match side {
            Side::Left => self.gain_near(side, corner),
            Side::Right => {
                self.flip();
                self.gain_near(side, corner);
                self.flip();
            }
        }
    }

    // Goes from a portal to the portal before it: the end that they do not share is new.
    pub(crate) fn widen(&mut self, before: Portal<P>, present: Portal<P>)
        ensures widens { Widens P.at before present self.old self.new }
        ensures room { SameRoom self.old self.new }
    {
        if before.left.vertex == present.left.vertex {
            self.gain(Side::Right, before.right);
        } else {
            self.gain(Side::Left, before.left);
        }
    }
}
