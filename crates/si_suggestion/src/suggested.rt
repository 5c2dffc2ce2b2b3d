//! From the text of a graph to the text of a netlist that is suggested for it.

ghost use Rattle.std.specs.Prelude.{◌≡◌, ◌<◌, ℕ, List, IfOk, IfErr, Ok, length};
ghost use Rattle.si_base.specs.NetlistText.{netlist_text};
ghost use Rattle.si_circuit.specs.Circuits.{AreStateNames};
ghost use Rattle.si_circuit.specs.Spelled.{AreSpelled};
ghost use Rattle.si_insert.specs.Lineage.{AllGiven};
ghost use Rattle.si_circuit.specs.Spelling.{current_word, insertions_of};
ghost use Rattle.si_circuit.specs.declared.style.Style.{Style};
ghost use Rattle.si_readings.specs.Laws.{HasResult};
ghost use Rattle.si_refusals.specs.Ending.{Answered, MayStop, ending_of};
ghost use Rattle.si_refusals.specs.Ending as ending;
ghost use Rattle.si_refusals.specs.Refusal.{TextRefused};
ghost use Rattle.si_refusals.specs.Refusal as answer;
ghost use Rattle.si_sg.specs.CanonicalText.{state_at};
ghost use Rattle.si_suggest.specs.Suggested.{ShowsUnsuggested};
ghost use Rattle.si_suggestion.specs.Suggestion as stage;

use si_base::ids::{NoMemory, StateId};
use si_base::names::Names;
use si_base::text::{Name, Text};
use si_checks::proper::Proper;
use si_circuit::circuit::Circuit;
use si_circuit::spelling::{current_state_word, insertions};
use si_circuit::style::Style;
use si_insert::lineage::Lineage;
use si_netlist::netlist::Netlist;
use si_netlist::write::write_netlist;
use si_readings::checks::proper_of;
use si_readings::readings::graph_in;
use si_refusals::breach::state_name;
use si_refusals::refusals::Refusal;
use si_sg::read::Sg;
use si_suggest::suggest::{Unsuggested, suggest};
use std::alloc::Global;

/// The text of a netlist of the graph that the text spells, with gates of the style and with
/// signals inserted that leave no conflict: those of `synth`, or others that a wider search found.
/// Where `synth` has a netlist, this one has no more literals.
///
/// # Errors
///
/// `BadText` exactly where the text has a fault, with the first, else `Improper` exactly where the
/// graph isn't proper, with its first breach, else `Unresolvable` exactly where some conflict is
/// known to be never resolved, with the first, else `NotFound` only where `synth` leaves a conflict
/// and the search found nothing, with what `synth` tells. `NoMemory` only where memory runs out.
pub fn suggest_text<'w>(
    alloc: Global,
    style: Style,
    file: &'w str,
    text: &[u8],
) -> Result<Text, Refusal<'w>>
    ensures ok { IfOk result (λ output. stage.suggest style file.now text.now (Ok output)) }
    ensures err { IfErr result
        (λ r. MayStop (stage.suggest style file.now text.now) (ending_of r)) }
{
    let Sg {
        model,
        graph,
        states,
    } = graph_in(alloc, file, text)?;
    let given = proper_of(alloc, graph, &states)?;
    suggested_for(alloc, style, &given, &model, &states)
}

/// The text of the netlist that is suggested for the graph, of that model and with these names of
/// its states, or the refusal that is due.
fn suggested_for(
    alloc: Global,
    style: Style,
    given: &Proper,
    model: &Name,
    states: &Names,
) -> Result<Text, Refusal<'static>>
    requires given { AllGiven given.now.graph.signals }
    requires spelled { AreSpelled model.now given.now.graph.signals }
    requires states { AreStateNames given.now.graph states.now }
    ensures ok { IfOk result
        (λ output. stage.suggestion style model.now states.now given.now (Ok output)) }
    ensures err { IfErr result (λ r. MayStop
        (stage.suggestion style model.now states.now given.now) (ending_of r)) }
{
    let circuit = suggested_circuit(alloc, style, given, model, states)?;
    text_of(alloc, circuit.netlist())
}

/// The circuit of that netlist, or the refusal that is due.
pub fn suggested_circuit(
    alloc: Global,
    style: Style,
    given: &Proper,
    model: &Name,
    states: &Names,
) -> Result<Circuit, Refusal<'static>>
    requires given { AllGiven given.now.graph.signals }
    requires spelled { AreSpelled model.now given.now.graph.signals }
    requires states { AreStateNames given.now.graph states.now }
    ensures ok { IfOk result (stage.IsItsCircuit style model.now states.now given.now) }
    ensures err { IfErr result (λ r. MayStop
        (stage.suggestion style model.now states.now given.now) (ending_of r)) }
{
    match suggest(alloc, given, model, states, style) {
        Ok(circuit) => {
            // What holds of each lineage comes with its trace, and of a circuit with its netlist.
            let _trace = circuit.resolved().lineage().trace();
            let _netlist = circuit.netlist();
            Ok(circuit)
        }
        Err(cause) => Err(refusal_for(alloc, given, states, cause)),
    }
}

/// The text of the netlist.
fn text_of(alloc: Global, netlist: &Netlist) -> Result<Text, Refusal<'static>>
    ensures ok { IfOk result (λ text. text ≡ netlist_text netlist.now) }
    ensures err { IfErr result (λ r. ending_of r ≡ ending.NoMemory) }
{
    match write_netlist(alloc, netlist) {
        Ok(text) => Ok(text),
        Err(_) => Err(Refusal::NoMemory),
    }
}

/// The refusal that is due where nothing is suggested.
fn refusal_for(
    alloc: Global,
    given: &Proper,
    states: &Names,
    cause: Unsuggested,
) -> Refusal<'static>
    requires names { length states.now ≡ given.now.graph.states }
    requires shown { ShowsUnsuggested given.now cause }
    ensures { (style : Style) (model : List ℕ)
        → MayStop (stage.suggestion style model states.now given.now) (ending_of result) }
{
    let refusal = match cause {
        Unsuggested::NoMemory => return Refusal::NoMemory,
        Unsuggested::Never { p, q } => unresolvable(alloc, states, p, q),
        Unsuggested::NotFound {
            lineage,
            p,
            q,
            tried,
        } => not_found(alloc, &lineage, states, p, q, tried),
    };
    match refusal {
        Ok(refusal) => refusal,
        Err(_) => Refusal::NoMemory,
    }
}

/// The refusal that shows a conflict of the graph that nothing resolves.
fn unresolvable(
    alloc: Global,
    states: &Names,
    p: StateId,
    q: StateId,
) -> Result<Refusal<'static>, NoMemory>
    requires p { p < length states.now }
    requires q { q < length states.now }
    ensures { IfOk result (λ r. ending_of r ≡ Answered (TextRefused
        (answer.Unresolvable (state_at states.now p) (state_at states.now q)))) }
{
    Ok(Refusal::Unresolvable {
        p: state_name(alloc, states, p)?,
        q: state_name(alloc, states, q)?,
    })
}

/// The refusal that shows a conflict of the lineage's current graph, the insertions, and how many
/// candidates were tried.
fn not_found(
    alloc: Global,
    lineage: &Lineage,
    states: &Names,
    p: StateId,
    q: StateId,
    tried: u64,
) -> Result<Refusal<'static>, NoMemory>
    requires names { length states.now ≡ lineage.now.given.graph.states }
    requires p { p < lineage.now.current.coded.graph.states }
    requires q { q < lineage.now.current.coded.graph.states }
    ensures { IfOk result (λ r. ending_of r ≡ Answered (TextRefused (answer.NotFound
        (current_word states.now lineage.now p) (current_word states.now lineage.now q)
        (insertions_of states.now lineage.now) tried))) }
{
    Ok(Refusal::NotFound {
        p: current_state_word(alloc, lineage, states, p)?,
        q: current_state_word(alloc, lineage, states, q)?,
        inserts: insertions(alloc, lineage, states)?,
        tried,
    })
}

/// Laws, whose function does nothing: where `synth` has a netlist, so has `suggest`; it has none for
/// a graph with a conflict that is known to be never resolved; and each text comes to an answer.
pub fn suggestions_are_sure()
    ensures resolved { stage.ResolvedIsSuggested }
    ensures never { stage.NeverIsNotSuggested }
    ensures exist { (style : Style) (file text : List ℕ)
        → HasResult (stage.suggest style file text) }
{}
