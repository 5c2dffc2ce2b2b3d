//! From the texts of a graph and of equations, or of modules, to the netlist of the equations, with
//! the lines of its insertions.

ghost use Rattle.std.specs.Prelude.{◌≡◌, IfErr, IfOk, Ok};
ghost use Rattle.si_certify_equations.specs.Certify as spec;
ghost use Rattle.si_circuit.specs.Circuits.{AreStateNames};
ghost use Rattle.si_equations.specs.Whole.{AreWhole};
ghost use Rattle.si_equations_reader.specs.Held.{Spells};
ghost use Rattle.si_equations_reader.specs.Read.{equations_now};
ghost use Rattle.si_from_equations.specs.Given.{AreGiven};
ghost use Rattle.si_readings.specs.Checks.{IsNamed};
ghost use Rattle.si_refusals.specs.Ending.{MayStop, ending_of};
ghost use Rattle.si_sg.specs.GivenGraph.{sg_now};

use crate::form::Form;
use crate::netlist::netlist_of_equations;
use crate::starts::spelled_first;
use si_base::fault::TextFault;
use si_base::ids::NoMemory;
use si_base::text::Text;
use si_base::text_key::TextKey;
use si_equations_reader::equations::Equations;
use si_equations_reader::reader::read_equations;
use si_readings::checks::proper_of;
use si_readings::readings::graph_in;
use si_refusals::refusals::Refusal;
use si_sg::read::Sg;
use si_verilog_reader::comments::without_comments;
use si_verilog_reader::reader::read_modules;
use std::alloc::Global;

/// The text of the netlist that the equations of the one text, which is of that form, spell beside
/// the graph of the other, with the lines of the insertions that its gates tell. Signals that have
/// an equation and that the graph doesn't have are hidden ones; they start with the first values
/// with which the gates tell insertions. A refusal shows the names of the texts' files.
///
/// # Errors
///
/// `BadText` with the first fault of the texts in their order, else `Improper` with the first
/// breach, else `ListsDiffer` with the first place, else `Rejected`: exactly where more than
/// [`MAX_HIDDEN`](crate::limits::MAX_HIDDEN) signals are hidden, else where an expression multiplies
/// out to too many products, with the first signal, else where with no start values the gates tell
/// insertions that certify the netlist, with the first reason where all hidden signals start with
/// 0. `NoMemory` only where memory runs out.
pub fn certify_equations<'w>(
    alloc: Global,
    form: Form,
    graph_file: &'w str,
    graph: &[u8],
    equations_file: &'w str,
    equations: &[u8],
) -> Result<Text, Refusal<'w>>
    ensures ok { IfOk result (λ output. spec.certify_equations form graph_file.now graph.now
        equations_file.now equations.now (Ok output)) }
    ensures err { IfErr result (λ r. MayStop (spec.certify_equations form graph_file.now graph.now
        equations_file.now equations.now) (ending_of r)) }
{
    let key = key_of(alloc, graph, equations)?;
    let given = graph_in(alloc, graph_file, graph)?;
    let code = code_of(alloc, form, equations)?;
    let equations = equations_in(alloc, form, equations_file, code.bytes())?;
    certified_on(alloc, key, given, equations_file, &equations)
}

/// The key of both texts.
fn key_of(alloc: Global, graph: &[u8], equations: &[u8]) -> Result<TextKey, NoMemory> {
    let mut all = Text::copy_of(alloc, graph)?;
    all.add(equations)?;
    Ok(TextKey::of(all.bytes()))
}

/// What is read of a text of that form: modules are read without their comments.
fn code_of(alloc: Global, form: Form, text: &[u8]) -> Result<Text, NoMemory>
    ensures { IfOk result (λ code. code ≡ spec.code_of form text.now) }
{
    match form {
        Form::Equations => Text::copy_of(alloc, text),
        Form::Modules => without_comments(alloc, text),
    }
}

/// The equations that this spells, or its first fault.
fn read_code<'a>(alloc: Global, form: Form, code: &'a [u8]) -> Result<Equations<'a>, TextFault>
    ensures { Spells equations_now result (spec.spelled_by form code.now) }
{
    match form {
        Form::Equations => read_equations(alloc, code),
        Form::Modules => read_modules(alloc, code),
    }
}

/// The equations that this spells, of that file.
fn equations_in<'w, 'a>(
    alloc: Global,
    form: Form,
    file: &'w str,
    code: &'a [u8],
) -> Result<Equations<'a>, Refusal<'w>>
    ensures ok { IfOk result
        (λ e. spec.read_code form file.now code.now (Ok (equations_now e))) }
    ensures err { IfErr result (λ r.
        MayStop (spec.read_code form file.now code.now) (ending_of r)) }
{
    match read_code(alloc, form, code) {
        Ok(equations) => Ok(equations),
        Err(TextFault::NoMemory) => Err(Refusal::NoMemory),
        Err(TextFault::At { line, kind }) => Err(Refusal::BadText { file, line, kind }),
    }
}

/// The text of the netlist with its lines, for a given graph.
fn certified_on<'w>(
    alloc: Global,
    key: TextKey,
    given: Sg,
    equations_file: &'w str,
    equations: &Equations<'_>,
) -> Result<Text, Refusal<'w>>
    requires named { IsNamed given.graph given.states }
    requires states { AreStateNames given.graph given.states }
    requires given { AreGiven given.model given.graph.signals }
    requires whole { AreWhole (equations_now equations.now) }
    ensures ok { IfOk result (λ output. spec.certified_on equations_file.now (sg_now given)
        (equations_now equations.now) (Ok output)) }
    ensures err { IfErr result (λ r. MayStop (spec.certified_on equations_file.now (sg_now given)
        (equations_now equations.now)) (ending_of r)) }
{
    let Sg {
        model,
        graph,
        states,
    } = given;
    let proper = proper_of(alloc, graph, &states)?;
    let netlist = netlist_of_equations(alloc, equations_file, model, proper.coded(), equations)?;
    spelled_first(alloc, key, &proper, &states, &netlist)
}
