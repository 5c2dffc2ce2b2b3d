//! All insertions of the parts as insertions of the composed graph.

ghost use Rattle.std.specs.Prelude.{◌≡◌, ◌<◌, ◌≤◌, IfOk, IfErr, IsTrue, Ok, length};
ghost use Rattle.si_base.specs.Words.{is_signal_name};
ghost use Rattle.si_composing.specs.JoinedSignals.{max_parts};
ghost use Rattle.si_joins.specs.Loops.Parts.{AreAllShown, AreLinesNamed, AreNamed, AreShown, Goes};
ghost use Rattle.si_joins.specs.Steps as stage;
ghost use Rattle.si_refusals.specs.Ending.{MayStop, ending_of};
ghost use Rattle.si_sg.specs.GivenGraph.{sg_now};
ghost use Rattle.si_systems.specs.Loops.Parts.{sgs_now};

use crate::sets::lifted_set;
use crate::steps::with_insertion;
use crate::view::PartView;
use si_base::names::Names;
use si_base::text_key::TextKey;
use si_composing::tuples::Tuple;
use si_insert::lineage::Lineage;
use si_netlist::gate::Insert;
use si_netlist::netlist::Netlist;
use si_refusals::refusals::Refusal;
use si_sg::read::Sg;
use si_systems::compose::ComposedSg;
use std::alloc::Global;

/// The lineage with the insertion that a line of a part's netlist names.
fn with_line(
    alloc: Global,
    key: TextKey,
    states: &Names,
    view: &PartView,
    lineage: Lineage,
    line: &Insert,
) -> Result<Lineage, Refusal<'static>>
    requires count { length states.now ≡ lineage.given.graph.states }
    requires named { length view.now.names ≡ lineage.given.graph.states }
    requires before { view.now.before ≤ length lineage.trace }
    requires own { IsTrue (is_signal_name line.now.name) }
    requires names { AreNamed lineage.current.coded.graph.signals }
    ensures goes { IfOk result (Goes lineage) }
    ensures names { IfOk result (λ l. AreNamed l.current.coded.graph.signals) }
    ensures ok { IfOk result (λ l. stage.with_line states.now view.now lineage line.now (Ok l)) }
    ensures err { IfErr result
        (λ r. MayStop (stage.with_line states.now view.now lineage line.now) (ending_of r)) }
{
    let plus = lifted_set(alloc, key, view, &lineage, &line.up)?;
    let minus = lifted_set(alloc, key, view, &lineage, &line.down)?;
    with_insertion(alloc, states, lineage, &line.name, &plus, &minus)
}

/// The lineage with the insertions of all lines, one after another.
fn with_lines(
    alloc: Global,
    key: TextKey,
    states: &Names,
    view: &PartView,
    begun: Lineage,
    lines: &[Insert],
) -> Result<Lineage, Refusal<'static>>
    requires count { length states.now ≡ begun.given.graph.states }
    requires named { length view.now.names ≡ begun.given.graph.states }
    requires before { view.now.before ≤ length begun.trace }
    requires own { AreLinesNamed lines.now }
    requires names { AreNamed begun.current.coded.graph.signals }
    ensures goes { IfOk result (Goes begun) }
    ensures names { IfOk result (λ l. AreNamed l.current.coded.graph.signals) }
    ensures ok { IfOk result (λ l.
        stage.along (stage.with_line states.now view.now) begun lines.now (Ok l)) }
    ensures err { IfErr result (λ r. MayStop
        (stage.along (stage.with_line states.now view.now) begun lines.now) (ending_of r)) }
{
    let mut lineage = begun;
    for k in 0..lines.len() {
        lineage = with_line(alloc, key, states, view, lineage, &lines[k])?;
    }
    Ok(lineage)
}

/// The lineage with all insertions of part `i`.
fn with_part(
    alloc: Global,
    key: TextKey,
    whole: &ComposedSg,
    lineage: Lineage,
    i: usize,
    given: &Sg,
    netlist: &Netlist,
) -> Result<Lineage, Refusal<'static>>
    requires count { length whole.now.sg.states ≡ lineage.given.graph.states }
    requires tuples { length whole.now.tuples.items ≡ lineage.given.graph.states }
    requires place { i < max_parts }
    requires shown { AreShown given.now.states i whole.now.tuples.items }
    requires names { AreNamed lineage.current.coded.graph.signals }
    ensures goes { IfOk result (Goes lineage) }
    ensures names { IfOk result (λ l. AreNamed l.current.coded.graph.signals) }
    ensures ok { IfOk result (λ l. stage.with_part whole.now.sg.states whole.now.tuples.items
        lineage (i, (sg_now given.now, netlist.now)) (Ok l)) }
    ensures err { IfErr result (λ r. MayStop
        (stage.with_part whole.now.sg.states whole.now.tuples.items lineage
        (i, (sg_now given.now, netlist.now))) (ending_of r)) }
{
    let before = lineage.trace().len();
    // What holds of each netlist comes with its signals.
    let _signals = netlist.signals();
    let view = PartView::of(alloc, &given.states, i, &whole.tuples, before)?;
    with_lines(
        alloc,
        key,
        &whole.sg.states,
        &view,
        lineage,
        netlist.inserts(),
    )
}

/// The lineage with all insertions of all parts, part after part.
pub(crate) fn with_parts(
    alloc: Global,
    key: TextKey,
    whole: &ComposedSg,
    begun: Lineage,
    given: &[Sg],
    netlists: &[Netlist],
) -> Result<Lineage, Refusal<'static>>
    requires count { length whole.now.sg.states ≡ begun.given.graph.states }
    requires tuples { length whole.now.tuples.items ≡ begun.given.graph.states }
    requires shown { AreAllShown (sgs_now given.now) whole.now.tuples.items }
    requires many { length netlists.now ≡ length given.now }
    requires few { length given.now ≤ max_parts }
    requires names { AreNamed begun.current.coded.graph.signals }
    ensures goes { IfOk result (Goes begun) }
    ensures names { IfOk result (λ l. AreNamed l.current.coded.graph.signals) }
    ensures ok { IfOk result (λ l. stage.with_parts whole.now.sg.states whole.now.tuples.items
        begun (sgs_now given.now) netlists.now (Ok l)) }
    ensures err { IfErr result (λ r. MayStop
        (stage.with_parts whole.now.sg.states whole.now.tuples.items begun (sgs_now given.now)
        netlists.now) (ending_of r)) }
{
    let mut lineage = begun;
    for i in 0..given.len() {
        lineage = with_part(alloc, key, whole, lineage, i, &given[i], &netlists[i])?;
    }
    Ok(lineage)
}
