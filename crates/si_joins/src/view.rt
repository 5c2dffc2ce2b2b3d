//! What a part's own netlist calls the states of the composed graph.

ghost use Rattle.std.specs.Prelude.{◌≡◌, ◌+◌, ◌/◌, ◌^◌, ◌<◌, ◌≤◌, ◌++◌, IfOk, OnOk, length};
ghost use Rattle.si_base.specs.Limits.{code_width};
ghost use Rattle.si_circuit.specs.Spelling as spelled;
ghost use Rattle.si_composing.specs.JoinedSignals.{max_parts};
ghost use Rattle.si_joins.specs.Lifted as lifted;
ghost use Rattle.si_joins.specs.Loops.Parts.{AreShown};

use si_base::ids::{Code, NoMemory, Sig, StateId};
use si_base::names::Names;
use si_base::text::Text;
use si_composing::tuples::Tuple;
use si_insert::lineage::Lineage;
use si_netlist::name_list::NameList;
use si_sg::write::name_at;
use std::alloc::Global;
use std::marker::Model;

/// How a part sees the composed graph: its own name for each given state of that, and how many
/// signals other parts have inserted before it.
#[derive(Drop)]
pub(crate) struct PartView {
    names: NameList,
    before: usize,
}

impl Model for PartView {
    ghost use Rattle.si_joins.specs.Lifted as lifted;

    ghost Value = { lifted.PartView };

    ghost view = { λ v. record { names = v.names; before = v.before } };
}

impl PartView {
    /// The view of part `i`, whose states have these names, of a graph whose states are tuples.
    pub(crate) fn of(
        alloc: Global,
        states: &Names,
        i: usize,
        tuples: &[Tuple],
        before: usize,
    ) -> Result<PartView, NoMemory>
        requires place { i < max_parts }
        requires shown { AreShown states.now i tuples.now }
        ensures { IfOk result (λ view. view ≡ record {
          names = lifted.names_in_part states.now i tuples.now;
          before = before;
        }) }
    {
        let names = names_in_part(alloc, states, i, tuples)?;
        Ok(PartView { names, before })
    }

    /// The word that the part's own netlist has for the state.
    pub(crate) fn own_word(
        &self,
        alloc: Global,
        lineage: &Lineage,
        s: StateId,
    ) -> Result<Text, NoMemory>
        requires named { length self.now.names ≡ lineage.now.given.graph.states }
        requires before { self.now.before ≤ length lineage.now.trace }
        requires within { s < lineage.now.current.coded.graph.states }
        ensures { IfOk result (λ word. word ≡ lifted.own_word self.now lineage.now s) }
    {
        // What holds of each lineage comes with its current graph.
        let _current = lineage.current();
        let inserted = lineage.trace().len();
        let origin = lineage.origin(s);
        let mut word = Text::copy_of(alloc, self.names.get(origin.0 as usize))?;
        add_mark(
            &mut word,
            self.before,
            inserted - self.before,
            lineage.bits(s),
        )?;
        Ok(word)
    }
}

/// The name of the part's state in each tuple.
fn names_in_part(
    alloc: Global,
    states: &Names,
    i: usize,
    tuples: &[Tuple],
) -> Result<NameList, NoMemory>
    requires place { i < max_parts }
    requires shown { AreShown states.now i tuples.now }
    ensures { IfOk result (λ names. names ≡ lifted.names_in_part states.now i tuples.now) }
{
    let mut names = NameList::new(alloc);
    for tuple in tuples {
        let at = tuple.states()[i];
        names.push(name_at(states, StateId(at)))?;
    }
    Ok(names)
}

/// Adds the mark of k bits, those from place `before` on.
fn add_mark(word: &mut Text, before: usize, k: usize, bits: Code) -> Result<(), NoMemory>
    requires { before + k ≤ code_width }
    ensures { OnOk result (word.new ≡ word.old ++ spelled.mark k (bits / 2 ^ before)) }
{
    if k == 0 {
        return Ok(());
    }
    word.add(b"@")?;
    for i in 0..k {
        let place = Sig((before + i) as u8);
        word.add(&[digit(bits.get(place))])?;
    }
    Ok(())
}

/// The digit of a value.
fn digit(value: bool) -> u8
    ensures { result ≡ spelled.digit value }
{
    if value { b'1' } else { b'0' }
}
