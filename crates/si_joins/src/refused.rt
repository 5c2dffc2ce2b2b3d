//! What is told of an insertion that isn't accepted for the composed graph.

ghost use Rattle.std.specs.Prelude.{◌≡◌, ◌+◌, ◌≤◌, [], ◌∷◌, IfOk, length};
ghost use Rattle.si_base.specs.Limits.{max_states};
ghost use Rattle.si_insert.specs.Accepted.{copy_count};
ghost use Rattle.si_joins.specs.Loops.Parts.{ShowsWithin};
ghost use Rattle.si_joins.specs.Steps as stage;
ghost use Rattle.si_refusals.specs.Ending.{Answered, ending_of};
ghost use Rattle.si_refusals.specs.Refusal.{TextRefused};
ghost use Rattle.si_refusals.specs.Refusal as answer;

use si_base::ids::NoMemory;
use si_base::names::Names;
use si_base::text::Name;
use si_circuit::spelling::current_state_word;
use si_insert::accept::Rejected;
use si_insert::lineage::Lineage;
use si_insert::partition::Class;
use si_refusals::breach::event_word;
use si_refusals::refusals::Refusal;
use si_refusals::rejection::NamedRejection;
use std::alloc::Global;

/// The number of the next insertion, from 1.
pub(crate) fn next_number(lineage: &Lineage) -> u32
    ensures { result ≡ length lineage.now.trace + 1 }
{
    let inserted = lineage.trace().len();
    inserted as u32 + 1
}

/// What is told where the classes aren't accepted for the current graph. The signal is `own` in its
/// part.
pub(crate) fn told(
    alloc: Global,
    states: &Names,
    lineage: &Lineage,
    own: &Name,
    classes: &[Class],
    why: Rejected,
) -> Result<Refusal<'static>, NoMemory>
    requires count { length states.now ≡ lineage.now.given.graph.states }
    requires few { length classes.now ≤ max_states }
    requires within { ShowsWithin lineage.now.current.coded.graph why }
    ensures { IfOk result (λ r. ending_of r ≡ Answered (TextRefused
        (stage.told states.now lineage.now (length lineage.now.trace + 1) own.now classes.now
        why))) }
{
    let k = next_number(lineage);
    let signals = lineage.current().coded().graph().signals();
    match why {
        Rejected::DelaysInput { s, e } => {
            let state = current_state_word(alloc, lineage, states, s)?;
            let event = event_word(alloc, signals, e)?;
            let reason = NamedRejection::Delays { k, state, event };
            Ok(Refusal::Rejected { reason })
        }
        Rejected::BreaksPersistency { s, lost, by } => {
            let state = current_state_word(alloc, lineage, states, s)?;
            let lost = event_word(alloc, signals, lost)?;
            let by = event_word(alloc, signals, by)?;
            let reason = NamedRejection::Breaks { k, state, lost, by };
            Ok(Refusal::Rejected { reason })
        }
        Rejected::TooLarge { states } => too_large(alloc, own, states),
        Rejected::NoCodeBit => too_large(alloc, own, count_copies(classes)),
    }
}

/// That the composed graph would have so many states.
fn too_large(alloc: Global, own: &Name, states: u64) -> Result<Refusal<'static>, NoMemory>
    ensures { IfOk result (λ r. ending_of r ≡ Answered (TextRefused
        (answer.JoinedTooLarge own.now states))) }
{
    let signal = Name::copy_of(alloc, own.bytes())?;
    Ok(Refusal::JoinedTooLarge { signal, states })
}

/// How many states a graph has after the insertion.
fn count_copies(classes: &[Class]) -> u64
    requires { length classes.now ≤ max_states }
    ensures { result ≡ copy_count classes.now }
{
    let mut count = 0;
    for class in classes {
        count += copies_of(*class);
    }
    count
}

/// How many copies a state of the class has.
fn copies_of(class: Class) -> u64
    ensures is { result ≡ copy_count (class ∷ []) }
    ensures few { result ≤ 2 }
{
    match class {
        Class::Low | Class::High => 1,
        Class::Rising | Class::Falling => 2,
    }
}
