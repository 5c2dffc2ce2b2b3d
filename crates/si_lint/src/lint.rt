//! The report of a graph.

ghost use Rattle.std.specs.Prelude.{◌≡◌, [], IfOk, length};
ghost use Rattle.si_lint.specs.Findings.{AreFindings};
ghost use Rattle.si_lint.specs.LintText.{IsLintText, told_count};
ghost use Rattle.si_lint.specs.Loops.Lines.{findings_of};

use crate::findings::{Found, findings};
use crate::lines::{add_dead, add_one_ways, add_pairs, add_unused, add_withdrawals};
use si_base::ids::NoMemory;
use si_base::names::Names;
use si_base::text::Text;
use si_checks::proper::Proper;
use si_graph::coded::Coded;
use si_told::lines::{add_dropped, add_told};
use si_walks::tree::last_arcs;
use std::alloc::Global;

/// The text of what is told of a graph with a name for each state: how many lines there would be,
/// and the first of each kind, those of states that were dropped before all others. It fails only
/// where memory runs out.
pub fn lint(
    alloc: Global,
    graph: &Proper,
    states: &Names,
    dropped: &Names,
) -> Result<Text, NoMemory>
    requires { length states.now ≡ graph.now.graph.states }
    ensures { IfOk result (IsLintText graph.now states.now dropped.now) }
{
    let found = findings(alloc, graph)?;
    text_of(alloc, graph.coded(), states, dropped, &found)
}

/// The text of what was found.
fn text_of(
    alloc: Global,
    coded: &Coded,
    states: &Names,
    dropped: &Names,
    found: &Found,
) -> Result<Text, NoMemory>
    requires states { length states.now ≡ coded.now.graph.states }
    requires found { AreFindings coded.now (findings_of found.now) }
    ensures { IfOk result (IsLintText coded.now states.now dropped.now) }
{
    let graph = coded.graph();
    let last = last_arcs(alloc, graph)?;
    let mut text = Text::copy_of(alloc, b"")?;
    add_told(alloc, &mut text, u128::from(dropped.len()) + count(found))?;
    add_dropped(&mut text, dropped)?;
    add_unused(&mut text, graph.signals(), &found.unused)?;
    add_dead(alloc, &mut text, graph, &last, states, &found.dead)?;
    add_one_ways(alloc, &mut text, graph, &last, states, &found.one_way)?;
    add_withdrawals(&mut text, b"choice", coded, states, &found.choices)?;
    add_withdrawals(&mut text, b"disabled", coded, states, &found.disablings)?;
    add_pairs(&mut text, b"samecode", states, &found.same_codes)?;
    add_pairs(&mut text, b"alike", states, &found.merged)?;
    add_pairs(&mut text, b"unresolvable", states, &found.unresolvable)?;
    Ok(text)
}

/// How many there are of all kinds.
fn count(found: &Found) -> u128
    ensures { result ≡ told_count [] (findings_of found.now) }
{
    let states = found.unused.len() as u128 + found.dead.len() as u128;
    let arcs = found.one_way.len() as u128
        + found.choices.len() as u128
        + found.disablings.len() as u128;
    let pairs = found.same_codes.len() as u128
        + found.merged.len() as u128
        + found.unresolvable.len() as u128;
    states + arcs + pairs
}
