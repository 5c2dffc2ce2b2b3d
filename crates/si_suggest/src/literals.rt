//! How many literals a netlist has.

ghost use Rattle.std.specs.Prelude.{◌≡◌, ◌+◌, IfOk, length};
ghost use Rattle.std.specs.List.{sum_by};
ghost use Rattle.si_netlist.specs.Loops.Parts.{gate_seen};
ghost use Rattle.si_suggest.specs.Literals.{gate_literals, literals_of};

use si_base::ids::{NoMemory, Sig};
use si_base::limits::CODE_WIDTH;
use si_cube::cube::Cube;
use si_cube::sum::Sum;
use si_netlist::gate::Gate;
use si_netlist::netlist::Netlist;

/// The number of literals of the sums of all gates. It fails only where that needs more than 64
/// bits, which is past any memory.
pub fn literals_of(netlist: &Netlist) -> Result<u64, NoMemory>
    ensures { IfOk result (λ count. count ≡ literals_of netlist.now) }
{
    let mut count = 0;
    let gates = netlist.gates();
    for gate in gates {
        count = total(count, gate_literals(gate)?)?;
    }
    Ok(count)
}

/// The number of literals of the sums of the gate.
fn gate_literals(gate: &Gate) -> Result<u64, NoMemory>
    ensures { IfOk result (λ count. count ≡ gate_literals (gate_seen gate.now)) }
{
    match gate {
        Gate::Sum(sum) => sum_literals(sum),
        Gate::Gc { set, reset } => total(sum_literals(set)?, sum_literals(reset)?),
        Gate::Cell { sum, .. } => sum_literals(sum),
    }
}

/// The number of literals of the cubes of the sum.
fn sum_literals(sum: &Sum) -> Result<u64, NoMemory>
    ensures { IfOk result (λ count. count ≡ sum_by length sum.now) }
{
    let mut count = 0;
    let cubes = sum.cubes();
    for cube in cubes {
        count = total(count, cube_literals(cube))?;
    }
    Ok(count)
}

/// The number of literals of the cube.
fn cube_literals(cube: &Cube) -> u64
    ensures { result ≡ length cube.now }
{
    let mut count = 0;
    for i in 0..CODE_WIDTH {
        if cube.care.get(Sig(i as u8)) {
            count += 1;
        }
    }
    count
}

/// Both counts together.
fn total(one: u64, other: u64) -> Result<u64, NoMemory>
    ensures { IfOk result (λ count. count ≡ one + other) }
{
    match one.checked_add(other) {
        Some(count) => Ok(count),
        None => Err(NoMemory),
    }
}
