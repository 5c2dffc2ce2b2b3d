//! Least monotonous cubes.

ghost use Rattle.std.specs.Prelude.{ℕ, ◌<◌, ◌↔◌, Contains, IfOk, IfErr, IfSome, MatchOption};
ghost use Rattle.std.specs.Prelude.{IsTrue};
ghost use Rattle.si_base.specs.Codes.{code};
ghost use Rattle.si_base.specs.Order.{IsFirst};
ghost use Rattle.si_checks.specs.Loops.Lent.{coded_of};
ghost use Rattle.si_cube.specs.Cubes.{Covers};
ghost use Rattle.si_regions.specs.Regions.{IsRegion};
ghost use Rattle.si_cover.specs.Loops.Growing.{IsGrowing, IsDemanded, Demands};
ghost use Rattle.si_cover.specs.Mono.{IsFallingCover, CoversOutside, IsLeastCube, IsLeastMono};
ghost use Rattle.si_cover.specs.Mono.{ShowsNoMono, state_place};

use si_base::graph::Edge;
use si_base::ids::StateId;
use si_checks::distinct::Distinct;
use si_cube::cube::Cube;
use si_graph::coded::Coded;
use si_regions::regions::Region;
use si_regions::state_list::StateList;

/// Why a region has no monotonous cube.
#[derive(Clone, Copy, PartialEq, Eq, Debug)]
pub struct NoMono {
    /// The first state outside the excitation region and the quiescent region that is covered by
    /// the least cube with the two other properties.
    pub state: StateId,
}

/// The least monotonous cube of a region: it covers each state of the excitation region and no
/// state outside that and the quiescent region, and for each arc into the quiescent region whose
/// target it covers it covers the source (the book's monotonous cover). `NoMono` comes exactly
/// where there is no such cube. It takes no memory.
pub fn mono(graph: Distinct<'_>, region: &Region) -> Result<Cube, NoMono>
    requires { IsRegion (coded_of graph) region.now }
    ensures cube { IfOk result
        (IsLeastMono (coded_of graph.entry) region.now.er region.now.qr) }
    ensures none { IfErr result
        (λ e. ShowsNoMono (coded_of graph.entry) region.now.er region.now.qr e.state) }
{
    let coded = graph.proper().coded();
    let cube = least_falling(coded, region);
    match first_outside(coded, region, &cube) {
        Some(state) => Err(NoMono { state }),
        None => Ok(cube),
    }
}

/// The least cube that covers the excitation region and has the property of arcs into the
/// quiescent region.
fn least_falling(graph: &Coded, region: &Region) -> Cube
    requires { IsRegion graph.now region.now }
    ensures { IsLeastCube (IsFallingCover graph.now region.now.er region.now.qr) result }
{
    let mut cube = component_cube(graph, region);
    while let Some(s) = demanded(graph, &region.qr, &cube) {
        cube = cube.supercube(graph.code(s));
    }
    cube
}

/// The least cube that covers the excitation region.
fn component_cube(graph: &Coded, region: &Region) -> Cube
    requires { IsRegion graph.now region.now }
    ensures grows { IsGrowing graph.now region.now.er region.now.qr result }
    ensures covers { (s : ℕ) → Contains region.now.er s → Covers result (code graph.now s) }
{
    let signals = graph.graph().signals().len();
    let er = region.er.as_slice();
    let first = graph.code(er[0]);
    let mut cube = Cube::of_code(first, signals);
    for s in er {
        cube = cube.supercube(graph.code(*s));
    }
    cube
}

/// A state that the arcs into the quiescent region demand.
fn demanded(graph: &Coded, qr: &StateList, cube: &Cube) -> Option<StateId>
    ensures demanded { MatchOption result
        ((s : ℕ) → IsDemanded graph.now qr.now cube.now s → ⊥)
        (IsDemanded graph.now qr.now cube.now) }
    ensures within { IfSome result (λ s. s < graph.now.graph.states) }
{
    for a in graph.graph().arcs() {
        if demands(graph, qr, cube, a) {
            return Some(a.from);
        }
    }
    None
}

/// Whether the arc leads from a state that the cube doesn't cover to one of the set that it covers.
fn demands(graph: &Coded, qr: &StateList, cube: &Cube, a: &Edge) -> bool
    requires from { a.now.from < graph.now.graph.states }
    requires to { a.now.to < graph.now.graph.states }
    ensures { IsTrue result ↔ Demands graph.now qr.now cube.now a.now }
{
    cube.covers(graph.code(a.to)) && !cube.covers(graph.code(a.from)) && has(qr, a.to)
}

/// The first state outside both sets of the region that the cube covers.
fn first_outside(graph: &Coded, region: &Region, cube: &Cube) -> Option<StateId>
    ensures { MatchOption result
        ((s : ℕ) → CoversOutside graph.now region.now.er region.now.qr cube.now s → ⊥)
        (IsFirst state_place (CoversOutside graph.now region.now.er region.now.qr cube.now)) }
{
    for s in 0..graph.graph().states() {
        if covers_outside(graph, region, cube, StateId(s)) {
            return Some(StateId(s));
        }
    }
    None
}

/// Whether the cube covers the state, which is in neither set of the region.
fn covers_outside(graph: &Coded, region: &Region, cube: &Cube, s: StateId) -> bool
    requires { s < graph.now.graph.states }
    ensures { IsTrue result ↔ CoversOutside graph.now region.now.er region.now.qr cube.now s }
{
    cube.covers(graph.code(s)) && !has(&region.er, s) && !has(&region.qr, s)
}

/// Whether the state is in the set.
fn has(set: &StateList, s: StateId) -> bool
    ensures { IsTrue result ↔ Contains set.now s }
{
    set.as_slice().binary_search(&s).is_ok()
}
