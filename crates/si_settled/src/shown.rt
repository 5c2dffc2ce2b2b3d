//! What the cubes of a gate show, where some signals are known to have their start values.

ghost use Rattle.std.specs.Prelude.{◌≡◌, ◌&&◌, not, filter, slice_get};
ghost use Rattle.std.specs.List.{list_all, list_any};
ghost use Rattle.si_base.specs.Bits.{bit};
ghost use Rattle.si_base.specs.Graph.{IsNonInput};
ghost use Rattle.si_base.specs.Netlist.{gate_place, literal_value};
ghost use Rattle.si_netlist.specs.Loops.Parts.{gate_seen};
ghost use Rattle.si_settled.specs.Settling as settling;

use si_base::ids::{Code, Sig};
use si_cube::cube::Cube;
use si_cube::sum::Sum;
use si_netlist::gate::Gate;
use si_netlist::netlist::Netlist;

/// Whether the cubes of the signal's gate show its start value.
pub(crate) fn is_shown(netlist: &Netlist, z: Sig, known: Code) -> bool
    requires { IsNonInput netlist.now.signals z }
    ensures { result ≡ settling.shows_if_there (bit known) netlist.now.start
        (slice_get netlist.now.gates (gate_place netlist.now.signals z)) (bit netlist.now.start z) }
{
    let gate = netlist.gate_of(z);
    let start = netlist.start();
    gate_shows(gate, known, start, start.get(z))
}

/// Whether the cubes of the gate show the value.
fn gate_shows(gate: &Gate, known: Code, start: Code, value: bool) -> bool
    ensures { result ≡ settling.gate_shows (bit known) start (gate_seen gate.now) value }
{
    match gate {
        Gate::Sum(sum) => sum_shows(sum, known, start, value),
        Gate::Gc { set, .. } if value => shows_one(set, known, start),
        Gate::Gc { set, reset } => shows_zero(set, known, start) && shows_one(reset, known, start),
        Gate::Cell { sum, .. } => sum_shows(sum, known, start, value),
    }
}

/// Whether the cubes of the sum show the value.
fn sum_shows(sum: &Sum, known: Code, start: Code, value: bool) -> bool
    ensures { result ≡ settling.sum_shows (bit known) start sum.now value }
{
    if value {
        shows_one(sum, known, start)
    } else {
        shows_zero(sum, known, start)
    }
}

/// Whether all literals of some cube are known and true.
fn shows_one(sum: &Sum, known: Code, start: Code) -> bool
    ensures { result ≡ settling.shows_one (bit known) start sum.now }
{
    sum.cubes().iter().any(|cube| is_true(cube, known, start))
}

/// Whether some literal of each cube is known and false.
fn shows_zero(sum: &Sum, known: Code, start: Code) -> bool
    ensures { result ≡ settling.shows_zero (bit known) start sum.now }
{
    sum.cubes().iter().all(|cube| is_false(cube, known, start))
}

/// Whether all literals of the cube are known and true.
fn is_true(cube: &Cube, known: Code, start: Code) -> bool
    ensures { result ≡ list_all (λ l. bit known l.sig && literal_value start l) cube.now }
{
    is_known(cube, known) && cube.covers(start)
}

/// Whether some literal of the cube is known and false.
fn is_false(cube: &Cube, known: Code, start: Code) -> bool
    ensures { result ≡ list_any (λ l. bit known l.sig && not (literal_value start l)) cube.now }
{
    !known_part(cube, known).covers(start)
}

/// Whether all literals of the cube are known.
fn is_known(cube: &Cube, known: Code) -> bool
    ensures { result ≡ list_all (λ l. bit known l.sig) cube.now }
{
    known.0 & cube.care.0 == cube.care.0
}

/// The literals of the cube that are known.
fn known_part(cube: &Cube, known: Code) -> Cube
    ensures { result ≡ filter (λ l. bit known l.sig) cube.now }
{
    Cube {
        care: Code(cube.care.0 & known.0),
        value: Code(cube.value.0 & known.0),
    }
}
