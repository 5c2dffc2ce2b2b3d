//! A refusal on `err`.

ghost use Rattle.std.specs.Prelude.{◌≡◌, ◌≤◌};
ghost use Rattle.si_io.specs.Outside.{AppendsPrefix, PutAnswer};
ghost use Rattle.si_refusals.specs.Ending.{ending_of, line_of as line_put};
ghost use Rattle.si_refusals.specs.Ending as ending;
ghost use Rattle.si_tool.specs.Run.{change, PutsDue};

use si_io::sink::{PutFault, Sink};
use si_refusals::refusals::Refusal;
use si_refusals::status::Status;
use std::alloc::Global;

/// Puts the line of a refusal on `err`, in one call. The status is then the refusal's, or
/// `NoMemory` where memory ran out.
pub fn refuse<E: Sink>(alloc: Global, refusal: &Refusal<'_>, err: &mut E) -> Status
    ensures puts { PutsDue (ending_of refusal.now)
        (change E.faults E.bytes E.puts err.old err.new) result }
    ensures later { E.faults err.old ≤ E.faults err.new }
{
    let Ok(line) = refusal.line(alloc) else {
        return put_no_memory(err);
    };
    match err.put(line.bytes()) {
        Ok(()) => refusal.status(),
        Err(PutFault::Failed) => refusal.status(),
        Err(PutFault::NoMemory) => Status::NoMemory,
    }
}

/// Puts the line `nomemory`.
fn put_no_memory<E: Sink>(err: &mut E) -> Status
    ensures status { result ≡ Status.NoMemory }
    ensures part { AppendsPrefix (E.bytes err.old) (line_put ending.NoMemory) (E.bytes err.new) }
    ensures once { (answer : PutAnswer)
        × E.puts err.old (line_put ending.NoMemory) answer err.new }
    ensures later { E.faults err.old ≤ E.faults err.new }
{
    match err.put(b"nomemory\n") {
        Ok(()) => Status::NoMemory,
        Err(_) => Status::NoMemory,
    }
}
