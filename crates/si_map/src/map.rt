//! Mapping: the signals of a lineage's current graph as cells of a library.

ghost use Rattle.std.specs.Prelude.{◌≡◌, List, IfOk, IfErr, IsTrue, MatchOption, codes};
ghost use Rattle.si_base.specs.Behaviour.{Implements};
ghost use Rattle.si_base.specs.WellFormed.{IsNetlist};
ghost use Rattle.si_base.specs.Words.{is_signal_name};
ghost use Rattle.si_circuit.specs.Cells.{AllFit, IsFirstUnfit, mapped_netlist};
ghost use Rattle.si_circuit.specs.Circuits.{AreStateNames};
ghost use Rattle.si_circuit.specs.Spelled.{AreSpelled};
ghost use Rattle.si_conflicts.specs.Left.{LeavesConflicts};
ghost use Rattle.si_insert.specs.declared.lineage.TraceStep.{TraceStep};
ghost use Rattle.si_insert.specs.Accepted.{IsAccepted};
ghost use Rattle.si_insert.specs.Fresh.{IsFresh, IsTaken};
ghost use Rattle.si_insert.specs.Lineage.{Extends, ExtendsBy};
ghost use Rattle.si_map.specs.Best.{Choice, IsBest, NoneServes};
ghost use Rattle.si_map.specs.Ends.{ShowsStuck};
ghost use Rattle.si_bounds.specs.Loops.Fitted.{AreFitted};
ghost use Rattle.si_map.specs.Trace.{IsMappingTrace, InsertsDivisor, EndsMapped};

use crate::best::best_by_functions;
use crate::fitted::{first_unfit, fitted_signals};
use crate::search::STEM;
use si_base::ids::{Code, NoMemory, Sig};
use si_base::names::Names;
use si_base::text::Name;
use si_cell::library::Library;
use si_circuit::circuit::Circuit;
use si_insert::accept::Accepted;
use si_insert::fresh::fresh_name;
use si_insert::resolved::Resolved;
use si_match::functions::LibraryFunctions;
use std::alloc::Global;

/// Why mapping went no further.
#[derive(Clone, Copy, PartialEq, Eq, Debug)]
pub enum MapStuck {
    /// Want of memory.
    NoMemory,
    /// The first signal that the circuit drives and that no cell of the library fits.
    Signal { sig: Sig },
}

/// The lineage as far as mapping went, and why it went no further.
#[derive(Drop)]
pub struct Unmapped {
    pub resolved: Resolved,
    pub cause: MapStuck,
}

/// The circuit of the lineage in which the gate of each signal is the first instance of the library
/// that fits it. While some signal that the circuit drives fits no cell, the best divisor of the
/// current graph is inserted as a further signal, `map` with the least free number. The netlist has
/// that model name, and its insertions are spelled by these names of the given states.
///
/// # Errors
///
/// `Signal` exactly where some signal that the circuit drives fits no cell and no divisor serves,
/// with the first such signal. `NoMemory` only where memory runs out. The lineage comes back as far
/// as it went.
pub fn map_cells(
    alloc: Global,
    resolved: Resolved,
    library: &Library,
    model: &Name,
    states: &Names,
) -> Result<Circuit, Unmapped>
    requires spelled { AreSpelled model.now resolved.current.coded.graph.signals }
    requires states { AreStateNames resolved.given.graph states.now }
    ensures mapped { IfOk result (λ c. (trace : List TraceStep) × ExtendsBy resolved trace c.lineage
        × EndsMapped library.now resolved.current trace c.lineage.current) }
    ensures netlist { IfOk result
        (λ c. c.netlist ≡ mapped_netlist library.now model.now states.now c.lineage) }
    ensures implements { IfOk result (λ c. Implements c.netlist resolved.given.graph) }
    ensures written { IfOk result (λ c. IsNetlist c.netlist) }
    ensures unmapped { IfErr result (λ u. (trace : List TraceStep)
        × ExtendsBy resolved trace u.resolved
        × IsMappingTrace library.now resolved.current trace u.resolved.current
        × ShowsStuck library.now u.resolved.current u.cause) }
{
    let functions = match LibraryFunctions::of(alloc, library) {
        Ok(functions) => functions,
        Err(NoMemory) => return Err(without_memory(resolved)),
    };
    let mut resolved = resolved;
    loop {
        let fitted = fitted_signals(resolved.distinct(), &functions);
        let Some(unfit) = first_unfit(resolved.distinct(), fitted) else {
            let circuit = circuit_of_cells(alloc, resolved, library, model, states)?;
            return Ok(circuit);
        };
        resolved = with_best_divisor(alloc, resolved, &functions, fitted, unfit)?;
    }
}

/// The circuit of the first fitting cells, where each signal that the circuit drives fits one.
fn circuit_of_cells(
    alloc: Global,
    resolved: Resolved,
    library: &Library,
    model: &Name,
    states: &Names,
) -> Result<Circuit, Unmapped>
    requires spelled { AreSpelled model.now resolved.current.coded.graph.signals }
    requires states { AreStateNames resolved.given.graph states.now }
    requires fit { AllFit resolved.current.coded library.now }
    ensures same { IfOk result (λ c. c.lineage ≡ resolved) }
    ensures netlist { IfOk result
        (λ c. c.netlist ≡ mapped_netlist library.now model.now states.now resolved) }
    ensures implements { IfOk result (λ c. Implements c.netlist resolved.given.graph) }
    ensures written { IfOk result (λ c. IsNetlist c.netlist) }
    ensures back { IfErr result (λ u. (u.resolved ≡ resolved) × (u.cause ≡ MapStuck.NoMemory)) }
{
    match Circuit::of_cells(alloc, resolved, library, model, states) {
        Ok(circuit) => Ok(circuit),
        Err((back, _no_memory)) => Err(without_memory(back)),
    }
}

/// The lineage with the best divisor of its current graph inserted, of which these signals fit, and
/// that is the first of the others.
fn with_best_divisor(
    alloc: Global,
    resolved: Resolved,
    library: &LibraryFunctions<'_>,
    fitted: Code,
    unfit: Sig,
) -> Result<Resolved, Unmapped>
    requires fitted { AreFitted resolved.current.coded library.now fitted }
    requires unfit { IsFirstUnfit resolved.current.coded library.now unfit }
    ensures extended { IfOk result (λ next. (p : TraceStep) × Extends resolved p next
        × InsertsDivisor library.now resolved.current p next.current
        × IsTrue (is_signal_name p.name)) }
    ensures unmapped { IfErr result (λ u. (u.resolved ≡ resolved)
        × ShowsStuck library.now resolved.current u.cause) }
{
    let found = match best_insertion(alloc, &resolved, library, fitted) {
        Ok(found) => found,
        Err(NoMemory) => return Err(without_memory(resolved)),
    };
    let Some(insertion) = found else {
        return Err(Unmapped {
            resolved,
            cause: MapStuck::Signal { sig: unfit },
        });
    };
    match with_insertion(alloc, resolved, insertion) {
        Ok(next) => Ok(next),
        Err(back) => Err(without_memory(back)),
    }
}

/// The lineage, where memory ran out.
fn without_memory(resolved: Resolved) -> Unmapped
    ensures resolved { result.resolved ≡ resolved }
    ensures cause { result.cause ≡ MapStuck.NoMemory }
{
    Unmapped {
        resolved,
        cause: MapStuck::NoMemory,
    }
}

/// An accepted partition and the name of the new signal.
#[derive(Drop)]
struct Insertion {
    accepted: Accepted,
    name: Name,
}

/// The lineage with the insertion, which leaves no conflict. After want of memory it comes back.
fn with_insertion(
    alloc: Global,
    resolved: Resolved,
    insertion: Insertion,
) -> Result<Resolved, Resolved>
    requires accepted { IsAccepted resolved.current.coded.graph insertion.accepted }
    requires free { LeavesConflicts resolved.current.coded insertion.accepted 0 }
    requires new { ¬ IsTaken resolved.current.coded.graph.signals insertion.name }
    ensures line { IfOk result (Extends resolved
        (record { name = insertion.name; partition = insertion.accepted })) }
    ensures back { IfErr result (λ r. r ≡ resolved) }
{
    // What holds of each lineage comes with its current graph.
    let _current = resolved.lineage().current();
    let lineage = resolved.into_lineage();
    let Insertion { accepted, name } = insertion;
    match lineage.insert(alloc, accepted, name) {
        Ok(next) => Ok(Resolved::known(next)),
        Err((back, _accepted, NoMemory)) => Err(Resolved::known(back)),
    }
}

/// The partition for the best divisor, if one serves, and a name for its signal.
fn best_insertion(
    alloc: Global,
    resolved: &Resolved,
    library: &LibraryFunctions<'_>,
    fitted: Code,
) -> Result<Option<Insertion>, NoMemory>
    requires { AreFitted resolved.now.current.coded library.now fitted }
    ensures { let c = resolved.now.current.coded in IfOk result (λ o. MatchOption o
        (NoneServes c library.now)
        (λ r. (x : Choice) × IsBest c library.now x × (x.classes ≡ r.accepted)
        × IsFresh c.graph.signals (codes "map") r.name × IsTrue (is_signal_name r.name))) }
{
    let Some(accepted) = best_by_functions(alloc, resolved, library, fitted)? else {
        return Ok(None);
    };
    let name = fresh_name(alloc, resolved.lineage().current().coded().graph(), STEM)?;
    Ok(Some(Insertion { accepted, name }))
}
