//! What the words of a command line ask for.

ghost use Rattle.std.specs.Prelude.{◌≡◌, IfOk, IfErr};
ghost use Rattle.si_refusals.specs.Ending.{ending_of};
ghost use Rattle.si_commands.specs.Command.{Asks, MayStopAsking};
ghost use Rattle.si_commands.specs.Loops.Reads.{request_of};

use crate::form::{Given, given_in};
use crate::table::rows;
use crate::task::Task;
use si_refusals::refusals::Refusal;
use std::alloc::Global;

/// A command: its task, and what its words give it.
#[derive(Drop)]
pub struct Command<'w> {
    pub task: Task,
    pub given: Given<'w>,
}

/// The command that the words ask for, or `Usage` exactly where they ask for none.
pub fn command_of<'w>(alloc: Global, words: &'w [String]) -> Result<Command<'w>, Refusal<'w>>
    ensures ok { IfOk result (λ command. Asks words.now (request_of command)) }
    ensures err { IfErr result (λ r. MayStopAsking words.now (ending_of r)) }
{
    for row in rows() {
        let task = row.task;
        match given_in(alloc, words, row.places, row.tail) {
            Ok(Some(given)) => return Ok(Command { task, given }),
            Ok(None) => {}
            Err(_) => return Err(Refusal::NoMemory),
        }
    }
    Err(Refusal::Usage)
}
