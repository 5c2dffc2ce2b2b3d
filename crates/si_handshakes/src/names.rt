//! Numbered names, and what has them.

ghost use Rattle.std.specs.Prelude.{◌≡◌, ◌++◌, IfOk, OnOk, codes};
ghost use Rattle.si_base.specs.GivenGraph.{signals_of};
ghost use Rattle.si_handshakes.specs.Handshakes.{numbered};

use si_base::graph::{SigKind, Signal};
use si_base::ids::NoMemory;
use si_base::names::{AddFault, Names};
use si_base::text::Name;
use std::alloc::Global;

/// Adds so many signals of the kind, with numbered names. It fails only where memory runs out.
pub fn add_signals(
    alloc: Global,
    signals: &mut Vec<Signal>,
    stem: &[u8],
    kind: SigKind,
    count: u32,
) -> Result<(), NoMemory>
    ensures { OnOk result (signals.new.items
        ≡ signals.old.items ++ signals_of kind (numbered stem.now count)) }
{
    for k in 0..count {
        let name = Name::numbered(alloc, stem, k as usize)?;
        signals.push(Signal { name, kind })?;
    }
    Ok(())
}

/// The names of so many states: `s0`, `s1`, and so on. It fails only where memory runs out.
pub fn state_names(alloc: Global, count: u32) -> Result<Names, NoMemory>
    ensures { IfOk result (λ names. names ≡ numbered (codes "s") count) }
{
    let mut names = Names::new(alloc)?;
    for k in 0..count {
        let name = Name::numbered(alloc, b"s", k as usize)?;
        match names.add(name.bytes(), count) {
            Ok(_) => {}
            Err(AddFault::NoMemory) => return Err(NoMemory),
            // Fewer names than are due are there so far.
            Err(AddFault::Full) => unreachable!(),
        }
    }
    Ok(names)
}
