// The walk of a lead, kept without spurs.
#![tactic(auto)]

ghost use Rattle.std.specs.Prelude.{◌≡◌, ◌≤◌, [], MatchResult};
ghost use Rattle.base.specs.Refusals.{refusal};
ghost use Rattle.words.specs.Words.{added};
ghost use Rattle.words.specs.Sorts.{recrossed, same_crossing};

use base::ids::HalfEdgeId;
use base::refusals::Refusal;
use words::reducing::add;
use words::sorts::Crossing;

// At most 2,048 crossings, the oldest first. An array and a length: an `ArrayVec` cannot be copied, which a route can, and lends no spare places to the reduction.
#[derive(Clone, Copy)]
pub struct Route {
    crossings: [Crossing; 2048],
    len: usize,
    ghost few: { len ≤ 2048 },
}

impl Default for Route {
    ghost use Rattle.std.specs.Prelude.{◌≡◌, []};
    ghost use Rattle.route.specs.Routes.{walk};

    ghost is_default = { λ r. walk r ≡ [] };

    fn default() -> Route {
        Route::new()
    }
}

impl Route {
    ghost use Rattle.route.specs.Routes.{walk, route_refusal};

    // A route without crossings.
    pub fn new() -> Route
        ensures { walk result ≡ [] }
    {
        let none = Crossing {
            left: HalfEdgeId(0),
            entered: HalfEdgeId(0),
        };
        Route {
            crossings: [none; 2048],
            len: 0,
        }
    }

    // The crossings, the oldest first.
    pub fn crossings(&self) -> &[Crossing]
        ensures { result.now ≡ walk self.now }
    {
        &self.crossings[..self.len]
    }

    // Adds a crossing; one that crosses back the last takes that away.
    pub fn add(&mut self, crossing: Crossing) -> Result<(), Refusal>
        ensures verdict { refusal result ≡ route_refusal (added recrossed same_crossing (walk self.old) crossing) }
        ensures effect { MatchResult result
            (λ _. walk self.new ≡ added recrossed same_crossing (walk self.old) crossing)
            (λ _. self.new ≡ self.old) }
    {
        self.len = add(&mut self.crossings, self.len, crossing).map_err(|_| Refusal::RouteFull)?;
        Ok(())
    }
}
