//! What is found is accepted once more, and of all that is found the lightest is kept.

ghost use Rattle.std.specs.Prelude.{◌≡◌, ◌⊎◌, IfOk, IfSome, None};
ghost use Rattle.si_base.specs.Proper.{HasNoConflict};
ghost use Rattle.si_circuit.specs.Circuits.{AreStateNames};
ghost use Rattle.si_circuit.specs.Spelled.{AreSpelled};
ghost use Rattle.si_insert.specs.Lineage.{AllGiven, given_history};
ghost use Rattle.si_suggest.specs.Loops.Offers.{AreNamed, IsNamedLineage, IsNoHeavierThan};
ghost use Rattle.si_suggest.specs.Suggested.{IsOffered};

use crate::literals::literals_of;
use si_base::ids::NoMemory;
use si_base::names::Names;
use si_base::text::Name;
use si_checks::distinct::NotDistinct;
use si_checks::proper::Proper;
use si_circuit::circuit::Circuit;
use si_circuit::style::Style;
use si_insert::fresh::fresh_name;
use si_insert::lineage::Lineage;
use si_insert::partition::Class;
use si_insert::resolved::Resolved;
use si_search::chain::{Chain, STEM, accepted_of};
use std::alloc::Global;

/// The lightest of a circuit and of those of the chains, the earlier one among equals.
pub(crate) fn lightest(
    alloc: Global,
    given: &Proper,
    first: Option<Circuit>,
    chains: &[Chain],
    model: &Name,
    states: &Names,
    style: Style,
) -> Result<Option<Circuit>, NoMemory>
    requires given { AllGiven given.now.graph.signals }
    requires spelled { AreSpelled model.now given.now.graph.signals }
    requires states { AreStateNames given.now.graph states.now }
    requires first { IfSome first (IsOffered given.now style model.now states.now) }
    ensures offered { IfOk result
        (λ o. IfSome o (IsOffered given.now style model.now states.now)) }
    ensures light { IfOk result (IsNoHeavierThan first) }
{
    let mut best = first;
    for chain in chains {
        let offer = offer_of(alloc, given, chain, model, states, style)?;
        best = lighter(best, offer)?;
    }
    Ok(best)
}

/// The lighter of two circuits, the first where neither is.
fn lighter(one: Option<Circuit>, other: Option<Circuit>) -> Result<Option<Circuit>, NoMemory>
    ensures of_them { IfOk result (λ o. (o ≡ one) ⊎ (o ≡ other)) }
    ensures light { IfOk result (IsNoHeavierThan one) }
{
    let Some(first) = one else {
        return Ok(other);
    };
    let Some(second) = other else {
        return Ok(Some(first));
    };
    if literals_of(second.netlist())? < literals_of(first.netlist())? {
        Ok(Some(second))
    } else {
        Ok(Some(first))
    }
}

/// The circuit of a chain, if each insertion is accepted and none leaves a conflict in the end.
fn offer_of(
    alloc: Global,
    given: &Proper,
    chain: &Chain,
    model: &Name,
    states: &Names,
    style: Style,
) -> Result<Option<Circuit>, NoMemory>
    requires given { AllGiven given.now.graph.signals }
    requires spelled { AreSpelled model.now given.now.graph.signals }
    requires states { AreStateNames given.now.graph states.now }
    ensures { IfOk result (λ o. IfSome o (IsOffered given.now style model.now states.now)) }
{
    let Some(lineage) = lineage_of(alloc, given, chain)? else {
        return Ok(None);
    };
    let Some(resolved) = resolved_of(alloc, lineage)? else {
        return Ok(None);
    };
    match Circuit::of_style(alloc, resolved, model, states, style) {
        Ok(circuit) => Ok(Some(circuit)),
        Err(_back) => Err(NoMemory),
    }
}

/// The lineage, if its current graph has no conflict.
fn resolved_of(alloc: Global, lineage: Lineage) -> Result<Option<Resolved>, NoMemory>
    ensures { IfOk result
        (λ o. IfSome o (λ r. (r ≡ lineage) × HasNoConflict r.current.coded)) }
{
    match Resolved::make(alloc, lineage) {
        Ok(resolved) => Ok(Some(resolved)),
        Err((_lineage, fault)) => none_unless_memory(fault),
    }
}

/// None, unless memory ran out.
fn none_unless_memory(fault: NotDistinct) -> Result<Option<Resolved>, NoMemory>
    ensures { IfOk result (λ o. o ≡ None) }
{
    match fault {
        NotDistinct::NoMemory => Err(NoMemory),
        NotDistinct::Conflict { .. } => Ok(None),
    }
}

/// The lineage of a chain, if each of its insertions is accepted.
fn lineage_of(alloc: Global, given: &Proper, chain: &Chain) -> Result<Option<Lineage>, NoMemory>
    requires given { AllGiven given.now.graph.signals }
    requires named { AreNamed given.now.graph.signals }
    ensures { IfOk result (λ o. IfSome o (IsNamedLineage given.now)) }
{
    let mut lineage = start_of(alloc, given)?;
    for classes in &chain.steps {
        match with_step(alloc, lineage, classes)? {
            Some(next) => lineage = next,
            None => return Ok(None),
        }
    }
    Ok(Some(lineage))
}

/// The lineage of the graph into which nothing is inserted yet.
pub(crate) fn start_of(alloc: Global, given: &Proper) -> Result<Lineage, NoMemory>
    requires { AllGiven given.now.graph.signals }
    ensures { IfOk result (λ l. l ≡ given_history given.now) }
{
    let copy = given.copy(alloc)?;
    match Lineage::start(alloc, copy) {
        Ok(lineage) => Ok(lineage),
        Err(_back) => Err(NoMemory),
    }
}

/// The lineage with one more insertion, by these classes, if they are accepted.
fn with_step(
    alloc: Global,
    lineage: Lineage,
    classes: &[Class],
) -> Result<Option<Lineage>, NoMemory>
    requires { AreNamed lineage.current.coded.graph.signals }
    ensures { IfOk result (λ o. IfSome o (IsNamedLineage lineage.given)) }
{
    let list = Vec::from_slice(alloc, classes)?;
    let Some(accepted) = accepted_of(lineage.current(), list) else {
        return Ok(None);
    };
    let name = fresh_name(alloc, lineage.current().coded().graph(), STEM)?;
    match lineage.insert(alloc, accepted, name) {
        Ok(next) => Ok(Some(next)),
        Err(_back) => Err(NoMemory),
    }
}
