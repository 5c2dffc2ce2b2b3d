//! One insertion of a part as one of the composed graph.

ghost use Rattle.std.specs.Prelude.{◌≡◌, ◌↔◌, ℕ, ◌+◌, IfOk, IfErr, IsTrue, Ok, length};
ghost use Rattle.si_base.specs.Sets.{IsDisjoint};
ghost use Rattle.si_base.specs.Words.{is_signal_name};
ghost use Rattle.si_insert.specs.Fresh.{IsTaken};
ghost use Rattle.si_insert.specs.Accepted.{IsAccepted};
ghost use Rattle.si_insert.specs.Partition.{IsLawful};
ghost use Rattle.si_joins.specs.Loops.Parts.{AreNamed, Goes};
ghost use Rattle.si_joins.specs.Steps as stage;
ghost use Rattle.si_joins.specs.Steps.{HasSome};
ghost use Rattle.si_refusals.specs.Ending.{MayStop, ending_of};

use crate::names::name_among;
use crate::refused::{next_number, told};
use si_base::ids::{NoMemory, StateId};
use si_base::names::Names;
use si_base::sets::StateSet;
use si_base::text::Name;
use si_candidates::classes::{ClassFault, classes};
use si_insert::accept::{Accepted, accept};
use si_insert::lineage::Lineage;
use si_insert::partition::Partition;
use si_refusals::refusals::Refusal;
use si_refusals::rejection::NamedRejection;
use std::alloc::Global;

/// The lineage with one insertion more, whose signal is `own` in its part, and rises at the states
/// of the one set and falls at those of the other.
pub(crate) fn with_insertion(
    alloc: Global,
    states: &Names,
    lineage: Lineage,
    own: &Name,
    plus: &StateSet,
    minus: &StateSet,
) -> Result<Lineage, Refusal<'static>>
    requires count { length states.now ≡ lineage.given.graph.states }
    requires plus_size { length plus.now ≡ lineage.current.coded.graph.states }
    requires minus_size { length minus.now ≡ lineage.current.coded.graph.states }
    requires own { IsTrue (is_signal_name own.now) }
    requires names { AreNamed lineage.current.coded.graph.signals }
    ensures ok { IfOk result
        (λ l. stage.with_insertion states.now lineage own.now plus.now minus.now (Ok l)) }
    ensures goes { IfOk result (Goes lineage) }
    ensures names { IfOk result (λ l. AreNamed l.current.coded.graph.signals) }
    ensures err { IfErr result (λ r. MayStop
        (stage.with_insertion states.now lineage own.now plus.now minus.now) (ending_of r)) }
{
    let name = name_among(alloc, lineage.current().coded().graph(), own)?;
    pass_used(alloc, own, plus, minus)?;
    pass_apart(next_number(&lineage), plus, minus)?;
    with_sets(alloc, states, lineage, own, name, plus, minus)
}

/// The same with the name that the signal gets.
fn with_sets(
    alloc: Global,
    states: &Names,
    lineage: Lineage,
    own: &Name,
    name: Name,
    plus: &StateSet,
    minus: &StateSet,
) -> Result<Lineage, Refusal<'static>>
    requires count { length states.now ≡ lineage.given.graph.states }
    requires plus_size { length plus.now ≡ lineage.current.coded.graph.states }
    requires minus_size { length minus.now ≡ lineage.current.coded.graph.states }
    requires some_plus { HasSome plus.now }
    requires some_minus { HasSome minus.now }
    requires apart { IsDisjoint plus.now minus.now }
    requires new { ¬ IsTaken lineage.current.coded.graph.signals name }
    requires name { IsTrue (is_signal_name name) }
    requires names { AreNamed lineage.current.coded.graph.signals }
    ensures ok { IfOk result
        (λ l. stage.with_sets states.now lineage own.now name plus.now minus.now (Ok l)) }
    ensures goes { IfOk result (Goes lineage) }
    ensures names { IfOk result (λ l. AreNamed l.current.coded.graph.signals) }
    ensures err { IfErr result (λ r. MayStop
        (stage.with_sets states.now lineage own.now name plus.now minus.now) (ending_of r)) }
{
    let partition = parted(alloc, &lineage, plus, minus)?;
    let accepted = accepted_of(alloc, states, &lineage, own, partition)?;
    extended(alloc, lineage, accepted, name)
}

/// Passes where the signal rises and falls somewhere.
fn pass_used(
    alloc: Global,
    own: &Name,
    plus: &StateSet,
    minus: &StateSet,
) -> Result<(), Refusal<'static>>
    ensures ok { IfOk result (λ done. stage.used own.now plus.now minus.now (Ok done)) }
    ensures err { IfErr result
        (λ r. MayStop (stage.used own.now plus.now minus.now) (ending_of r)) }
{
    if has_some(plus) && has_some(minus) {
        return Ok(());
    }
    let signal = Name::copy_of(alloc, own.bytes())?;
    Err(Refusal::Unused { signal })
}

/// Whether some state is in the set.
fn has_some(set: &StateSet) -> bool
    ensures { IsTrue result ↔ HasSome set.now }
{
    set.first_from(StateId(0)).is_some()
}

/// Passes where no state is in both sets of insertion number k.
fn pass_apart(k: u32, plus: &StateSet, minus: &StateSet) -> Result<(), Refusal<'static>>
    requires { length plus.now ≡ length minus.now }
    ensures ok { IfOk result (λ done. stage.apart k plus.now minus.now (Ok done)) }
    ensures err { IfErr result
        (λ r. MayStop (stage.apart k plus.now minus.now) (ending_of r)) }
{
    if plus.is_disjoint(minus) {
        Ok(())
    } else {
        let reason = NamedRejection::States { k };
        Err(Refusal::Rejected { reason })
    }
}

/// The classes that the sets make.
fn parted(
    alloc: Global,
    lineage: &Lineage,
    plus: &StateSet,
    minus: &StateSet,
) -> Result<Partition, Refusal<'static>>
    requires plus_size { length plus.now ≡ lineage.now.current.coded.graph.states }
    requires minus_size { length minus.now ≡ lineage.now.current.coded.graph.states }
    requires some_plus { HasSome plus.now }
    requires some_minus { HasSome minus.now }
    requires apart { IsDisjoint plus.now minus.now }
    ensures ok { IfOk result (λ p. stage.parted lineage.now.current.coded.graph
        (length lineage.now.trace + 1) plus.now minus.now (Ok p)) }
    ensures lawful { IfOk result (IsLawful lineage.now.current.coded.graph) }
    ensures err { IfErr result (λ r. MayStop (stage.parted lineage.now.current.coded.graph
        (length lineage.now.trace + 1) plus.now minus.now) (ending_of r)) }
{
    match classes(alloc, lineage.current(), plus, minus) {
        Ok(partition) => Ok(partition),
        Err(ClassFault::NoMemory) => Err(Refusal::NoMemory),
        Err(ClassFault::NoClasses { .. }) => {
            let k = next_number(lineage);
            let reason = NamedRejection::Classes { k };
            Err(Refusal::Rejected { reason })
        }
    }
}

/// The classes where they are accepted for the current graph.
fn accepted_of(
    alloc: Global,
    states: &Names,
    lineage: &Lineage,
    own: &Name,
    partition: Partition,
) -> Result<Accepted, Refusal<'static>>
    requires count { length states.now ≡ lineage.now.given.graph.states }
    requires lawful { IsLawful lineage.now.current.coded.graph partition }
    ensures same { IfOk result (λ a. a ≡ partition) }
    ensures accepted { IfOk result (IsAccepted lineage.now.current.coded.graph) }
    ensures err { IfErr result (λ r. MayStop (stage.accepted states.now lineage.now
        (length lineage.now.trace + 1) own.now partition) (ending_of r)) }
{
    match accept(lineage.current(), partition) {
        Ok(accepted) => Ok(accepted),
        Err((partition, why)) => {
            let refusal = told(alloc, states, lineage, own, partition.classes(), why)?;
            Err(refusal)
        }
    }
}

/// The lineage with the insertion by accepted classes.
fn extended(
    alloc: Global,
    lineage: Lineage,
    accepted: Accepted,
    name: Name,
) -> Result<Lineage, Refusal<'static>>
    requires accepted { IsAccepted lineage.current.coded.graph accepted }
    requires new { ¬ IsTaken lineage.current.coded.graph.signals name }
    requires name { IsTrue (is_signal_name name) }
    requires names { AreNamed lineage.current.coded.graph.signals }
    ensures ok { IfOk result (λ l. stage.extended lineage
        (record { name = name; partition = accepted }) (Ok l)) }
    ensures goes { IfOk result (Goes lineage) }
    ensures names { IfOk result (λ l. AreNamed l.current.coded.graph.signals) }
    ensures err { IfErr result (λ r. MayStop (stage.extended lineage
        (record { name = name; partition = accepted })) (ending_of r)) }
{
    match lineage.insert(alloc, accepted, name) {
        Ok(next) => Ok(next),
        Err((_lineage, _accepted, NoMemory)) => Err(Refusal::NoMemory),
    }
}
