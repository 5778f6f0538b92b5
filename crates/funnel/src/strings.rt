// The bends of a taut string.
ghost use Rattle.std.specs.Prelude.{◌≡◌, length, None, MatchResult};
ghost use Rattle.walks.specs.Walks.{portal_of};
ghost use Rattle.funnel.specs.Corners.{portal_meant};
ghost use Rattle.funnel.specs.Chains.{SameRoom, Widens};
ghost use Rattle.base.specs.Refusals.{refusal};
ghost use Rattle.funnel.specs.Strings.{Reads, Found, Taut, working_places, memory_refusal};

use crate::portals::portal_of;
use crate::{Bend, Corner, Portal, Working};
use base::refusals::Refusal;
use meshes::Mesh;
use words::sorts::Crossing;

// Goes back from a portal to the crossing before it, whose portal it answers.
fn step_back<M: Mesh>(
    mesh: &M,
    crossing: Crossing,
    present: Portal<M::Point>,
    chains: &mut Working<'_, M::Point>,
) -> Portal<M::Point>
    ensures portal { portal_meant M.Point.PointKind.at result ≡ portal_of (M.surface mesh.now) crossing }
    ensures widens { Widens M.Point.PointKind.at result present chains.old chains.new }
    ensures room { SameRoom chains.old chains.new }
{
    let before = portal_of(mesh, crossing);
    chains.widen(before, present);
    before
}

// Goes back from a portal to the first of the crossings before it.
fn read_back<M: Mesh>(
    mesh: &M,
    crossings: &[Crossing],
    mut present: Portal<M::Point>,
    chains: &mut Working<'_, M::Point>,
)
    ensures reads { Reads M.Point.PointKind.at (M.surface mesh.now) crossings.now present chains.old chains.new }
    ensures room { SameRoom chains.old chains.new }
{
    for &crossing in crossings.iter().rev() {
        present = step_back(mesh, crossing, present, chains);
    }
}

// How many places of working memory a string through so many portals needs; a number past 64 bits stops at the largest.
pub fn working_places(portals: usize) -> usize
    ensures { result ≡ working_places portals }
{
    portals.saturating_mul(2).saturating_add(3)
}

// Whether the places handed in are enough for a string through so many portals.
fn check_memory(portals: usize, output: usize, working: usize) -> Result<(), Refusal>
    ensures { refusal result ≡ memory_refusal portals output working }
{
    if output < portals {
        return Err(Refusal::OutputShort { needed: portals });
    }
    // 2 × portals + 3 may not fit a number of 64 bits
    if working.saturating_sub(portals).saturating_sub(portals) < 3 {
        return Err(Refusal::WorkingShort {
            needed: working_places(portals),
        });
    }
    Ok(())
}

// Finds the bends in working memory that suffices for them, and answers how many there are.
fn string_within<M: Mesh>(
    mesh: &M,
    start: M::Point,
    crossings: &[Crossing],
    end: M::Point,
    working: &mut [Corner<M::Point>],
    out: &mut [Bend],
) -> usize
    requires { None ≡ memory_refusal (length crossings.now) (length out.old) (length working.old) }
    ensures found { Found (M.surface mesh.now) (M.Point.PointKind.at start) crossings.now (M.Point.PointKind.at end) result out.old out.new }
    ensures taut { Taut (M.surface mesh.now) (M.Point.PointKind.at start) crossings.now (M.Point.PointKind.at end) result out.new }
{
    let [rest @ .., last] = crossings else {
        return 0;
    };
    let (slots, places) = working.split_at_mut(crossings.len() + 2);
    let portal = portal_of(mesh, *last);
    let mut chains = Working::open(slots, places, end, portal);
    read_back(mesh, rest, portal, &mut chains);
    chains.meet_start(start);
    chains.write(out)
}

// The bends of the string that is pulled taut from a start through the portals of crossings to an end.
// They stand in the first places of the output; the answer says how many they are.
pub fn taut_string<M: Mesh>(
    mesh: &M,
    start: M::Point,
    crossings: &[Crossing],
    end: M::Point,
    working: &mut [Corner<M::Point>],
    out: &mut [Bend],
) -> Result<usize, Refusal>
    ensures verdict { refusal result ≡ memory_refusal (length crossings.now) (length out.old) (length working.old) }
    ensures found { MatchResult result
        (λ m. Found (M.surface mesh.now) (M.Point.PointKind.at start) crossings.now (M.Point.PointKind.at end) m out.old out.new)
        (λ _. (out.new ≡ out.old) × (working.new ≡ working.old)) }
    ensures taut { MatchResult result
        (λ m. Taut (M.surface mesh.now) (M.Point.PointKind.at start) crossings.now (M.Point.PointKind.at end) m out.new)
        (λ _. Unit {0}) }
{
    check_memory(crossings.len(), out.len(), working.len())?;
    Ok(string_within(mesh, start, crossings, end, working, out))
}
