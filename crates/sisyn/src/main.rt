//! `sisyn`: synthesises speed-independent circuits from state graphs.
#![tactic(auto)]

#[cfg(test)]
mod failing_tests;
#[cfg(test)]
mod tests;

ghost use Rattle.std.specs.Prelude.{◌≡◌, ◌≢◌, ◌⊎◌, List, String, drop, IfErr, IfOk};
ghost use Rattle.std.specs.Process.{exit_status as exit_byte};
ghost use Rattle.std.specs.Vec.Iter.{into_iter_items};
ghost use Rattle.std.specs.declared.alloc.Global.{Global as GlobalMemory};
ghost use Rattle.std.specs.declared.io.ErrorKind.{ErrorKind as Kind};
ghost use Rattle.si_refusals.specs.ExitStatus.{exit_status};

use si_io::host::{HostShelf, HostSink};
use si_io::system::CommandLine;
use si_refusals::refusals::Refusal;
use si_refusals::status::Status;
use si_tool::refusing::refuse;
use si_tool::run::run;
use std::alloc::{AllocError, Global};
use std::env::Args;
use std::io::ErrorKind;
use std::process::ExitCode;

/// Does what the command line asks for, over the host's files, and ends with the status of the run.
fn main(rt: HostRuntime) -> ExitCode {
    let alloc = rt.alloc();
    let mut shelf = HostShelf::new(&rt);
    let mut out = HostSink::new(rt.stdout());
    let mut err = HostSink::new(rt.stderr());
    let status = match command_words(alloc, &rt) {
        Ok(words) => run(alloc, &words, &mut shelf, &mut out, &mut err),
        Err(refusal) => refuse(alloc, &refusal, &mut err),
    };
    exit_code(status)
}

/// The words of the command line without the program's name. Arguments that are no text match no
/// command; want of memory for them is no `Usage`.
fn command_words<R: CommandLine>(alloc: Global, system: &R) -> Result<Vec<String>, Refusal<'static>>
    ensures words { IfOk result (λ words. (all : List (String GlobalMemory))
        × R.gives system.now all × (words.items ≡ drop 1 all)) }
    ensures refused { IfErr result (λ refusal. (refusal ≡ Refusal.NoMemory)
        ⊎ ((refusal ≡ Refusal.Usage) × (kind : Kind) × R.refuses system.now kind
        × (kind ≢ ErrorKind.OutOfMemory))) }
{
    match system.arguments() {
        Ok(arguments) => match without_first(alloc, arguments) {
            Ok(words) => Ok(words),
            Err(_) => Err(Refusal::NoMemory),
        },
        Err(error) => match error.kind() {
            ErrorKind::OutOfMemory => Err(Refusal::NoMemory),
            _ => Err(Refusal::Usage),
        },
    }
}

/// The words but for the first.
fn without_first(alloc: Global, arguments: Args) -> Result<Vec<String>, AllocError>
    ensures { IfOk result (λ words. words.items ≡ drop 1 (into_iter_items arguments)) }
{
    arguments.skip(1).collect(alloc)
}

/// The exit code of the process: the number of the status.
fn exit_code(status: Status) -> ExitCode
    ensures { exit_byte result ≡ exit_status status }
{
    ExitCode::from(status.code())
}
