//! Instances of cells.

ghost use Rattle.std.specs.Prelude.{◌≡◌, List, map, IfOk};
ghost use Rattle.si_genlib.specs.Expression.{Tree, trees, value_of};
ghost use Rattle.si_equations_reader.specs.Steps.{after_step, tree_of};
ghost use Rattle.si_verilog_reader.specs.Loops.Held.{connection_now};
ghost use Rattle.si_verilog_reader.specs.Modules as spec;

use crate::connections::Connection;
use si_base::ids::NoMemory;
use si_equations_reader::step::Step;
use std::alloc::Global;

/// The net of the port; that of a port that isn't connected has no name.
pub(crate) fn net_of<'a>(connections: &[Connection<'a>], port: &[u8]) -> &'a [u8]
    ensures { result.now ≡ spec.net_of (map connection_now connections.now) port.now }
{
    for connection in connections {
        if connection.port == port {
            return connection.net;
        }
    }
    b"".as_slice()
}

/// The step with the net in place of a port.
fn connected_step<'a>(connections: &[Connection<'a>], step: Step<'_>) -> Step<'a>
    ensures { (ts : List Tree) → after_step trees ts result
        ≡ after_step (spec.connected (map connection_now connections.now)) ts step.entry }
{
    match step {
        Step::Pin(port) => Step::Pin(net_of(connections, port)),
        Step::Constant(value) => Step::Constant(value),
        Step::Not => Step::Not,
        Step::And => Step::And,
        Step::Or => Step::Or,
    }
}

/// The expression with the nets in place of the ports.
pub(crate) fn connected_steps<'a>(
    alloc: Global,
    connections: &[Connection<'a>],
    steps: &[Step<'_>],
) -> Result<Vec<Step<'a>>, NoMemory>
    ensures { IfOk result (λ v. tree_of v.items
        ≡ value_of (spec.connected (map connection_now connections.now)) (tree_of steps.now)) }
{
    let mut connected = Vec::new(alloc);
    for step in steps {
        connected.push(connected_step(connections, *step))?;
    }
    Ok(connected)
}
