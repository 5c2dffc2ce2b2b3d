//! Suggested netlists: by the rule, or by a wider search where that does better.

ghost use Rattle.std.specs.Prelude.{◌≡◌, ℕ, IfOk, IfErr};
ghost use Rattle.si_base.specs.Behaviour.{Implements};
ghost use Rattle.si_base.specs.WellFormed.{IsNetlist};
ghost use Rattle.si_circuit.specs.Circuits.{AreStateNames};
ghost use Rattle.si_circuit.specs.Spelled.{AreSpelled};
ghost use Rattle.si_insert.specs.Lineage.{AllGiven};
ghost use Rattle.si_suggest.specs.Suggested.{IsSuggested, ShowsUnsuggested};
ghost use Rattle.si_suggest.specs.Loops.ByRule.{ShowsByRule};

use crate::never::first_never;
use crate::offers::{lightest, start_of};
use si_base::ids::{NoMemory, StateId};
use si_base::names::Names;
use si_base::text::Name;
use si_checks::proper::Proper;
use si_circuit::circuit::Circuit;
use si_circuit::style::Style;
use si_insert::lineage::Lineage;
use si_resolve::resolve::{Stuck, Unresolved, resolve};
use si_search::chain::Chain;
use si_search::search::{Found, chains_for};
use std::alloc::Global;

/// Why no netlist is suggested.
#[derive(Drop)]
pub enum Unsuggested {
    /// Want of memory.
    NoMemory,
    /// No insertions resolve this conflict.
    Never {
        p: StateId,
        q: StateId,
    },
    /// The rule ends at this conflict of the lineage's current graph, and nothing else was found
    /// among so many candidates.
    NotFound {
        lineage: Lineage,
        p: StateId,
        q: StateId,
        tried: u64,
    },
}

impl From<NoMemory> for Unsuggested {
    ghost use Rattle.std.specs.Prelude.{◌≡◌};
    ghost use Rattle.si_suggest.specs.declared.suggest.Unsuggested.TheVariants.{NoMemory};

    ghost from_gives = { λ _ e. e ≡ NoMemory };

    fn from(_e: NoMemory) -> Unsuggested {
        Unsuggested::NoMemory
    }
}

/// A circuit of the style that implements the graph, with signals inserted that leave no conflict.
/// Where the rule of `resolve` leaves none, the circuit has no more literals than that of the rule.
/// Its netlist has that model name, and its insertions are spelled by these names of the states.
///
/// # Errors
///
/// `Never` exactly where some conflict is known to be never resolved, with the first, as
/// `first_never` tells; else `NotFound` only where the rule leaves a conflict and the search found
/// nothing. `NoMemory` only where memory runs out.
pub fn suggest(
    alloc: Global,
    given: &Proper,
    model: &Name,
    states: &Names,
    style: Style,
) -> Result<Circuit, Unsuggested>
    requires given { AllGiven given.now.graph.signals }
    requires spelled { AreSpelled model.now given.now.graph.signals }
    requires states { AreStateNames given.now.graph states.now }
    ensures suggested { IfOk result (IsSuggested given.now style model.now states.now) }
    ensures implements { IfOk result (λ c. Implements c.netlist given.now.graph) }
    ensures written { IfOk result (λ c. IsNetlist c.netlist) }
    ensures unsuggested { IfErr result (ShowsUnsuggested given.now) }
{
    // What holds of each proper graph comes with its coded graph.
    let _graph = given.coded().graph();
    if let Some((p, q)) = first_never(alloc, given.coded())? {
        return Err(Unsuggested::Never { p, q });
    }
    let Found { chains, tried } = chains_for(alloc, given)?;
    match by_rule(alloc, given, model, states, style)? {
        ByRule::Done(first) => {
            let circuit = lighter_than(alloc, given, first, &chains, model, states, style)?;
            Ok(circuit)
        }
        ByRule::Stuck { lineage, p, q } => {
            match lightest(alloc, given, None, &chains, model, states, style)? {
                Some(found) => Ok(found),
                None => Err(Unsuggested::NotFound {
                    lineage,
                    p,
                    q,
                    tried,
                }),
            }
        }
    }
}

/// A circuit that is no heavier than the first one.
fn lighter_than(
    alloc: Global,
    given: &Proper,
    first: Circuit,
    chains: &[Chain],
    model: &Name,
    states: &Names,
    style: Style,
) -> Result<Circuit, NoMemory>
    requires given { AllGiven given.now.graph.signals }
    requires spelled { AreSpelled model.now given.now.graph.signals }
    requires states { AreStateNames given.now.graph states.now }
    requires first { IsSuggested given.now style model.now states.now first }
    ensures { IfOk result (IsSuggested given.now style model.now states.now) }
{
    match lightest(alloc, given, Some(first), chains, model, states, style)? {
        Some(circuit) => Ok(circuit),
        None => unreachable!(),
    }
}

/// What the rule of `resolve` comes to.
#[derive(Drop)]
enum ByRule {
    /// No conflict is left.
    Done(Circuit),
    /// This conflict of the lineage's current graph is the first that is left.
    Stuck {
        lineage: Lineage,
        p: StateId,
        q: StateId,
    },
}

/// What the rule comes to, with the circuit of the style where it leaves no conflict.
fn by_rule(
    alloc: Global,
    given: &Proper,
    model: &Name,
    states: &Names,
    style: Style,
) -> Result<ByRule, NoMemory>
    requires given { AllGiven given.now.graph.signals }
    requires spelled { AreSpelled model.now given.now.graph.signals }
    requires states { AreStateNames given.now.graph states.now }
    ensures { IfOk result (ShowsByRule given.now style model.now states.now) }
{
    // What holds of each proper graph comes with its coded graph.
    let _graph = given.coded().graph();
    let start = start_of(alloc, given)?;
    match resolve(alloc, start) {
        Err(Unresolved { lineage, cause }) => stuck(lineage, cause),
        Ok(resolved) => match Circuit::of_style(alloc, resolved, model, states, style) {
            Ok(circuit) => Ok(ByRule::Done(circuit)),
            Err(_back) => Err(NoMemory),
        },
    }
}

/// That the rule ends at a conflict.
fn stuck(lineage: Lineage, cause: Stuck) -> Result<ByRule, NoMemory>
    ensures { IfOk result (λ r. (p : ℕ) × (q : ℕ) × (cause ≡ Stuck.Conflict p q)
        × (r ≡ ByRule.Stuck lineage p q)) }
{
    match cause {
        Stuck::NoMemory => Err(NoMemory),
        Stuck::Conflict { p, q } => Ok(ByRule::Stuck { lineage, p, q }),
    }
}
