//! Graphs that are proper by their codes, which shows without a look at pairs of arcs.

ghost use Rattle.std.specs.Prelude.{◌≡◌, ℕ, ◌<◌, ◌≤◌, ◌↔◌, IsTrue, IfOk, length, true};
ghost use Rattle.si_base.specs.Bits.{bit};
ghost use Rattle.si_base.specs.Codes.{IsCoded};
ghost use Rattle.si_base.specs.Limits.{max_signals};
ghost use Rattle.si_base.specs.Proper.{IsPersistent, IsProper};
ghost use Rattle.si_checks.specs.Loops.ByCodes.{AreInputs, HasUniqueCodes, IsProperByCodes};
ghost use Rattle.si_checks.specs.Loops.ByCodes.{LeavesOthers};
ghost use Rattle.si_checks.specs.Loops.ByCodes.{MaySwitch};

use crate::conflicts::first_of_code;
use si_base::graph::Edge;
use si_base::ids::{Code, NoMemory, Sig, StateId};
use si_graph::coded::Coded;
use si_graph::graph::Graph;
use std::alloc::Global;
use std::collections::BTreeMap;

/// Whether the graph is output-persistent and no two of its states have one code. Then it is
/// commutative too, since both orders of two events lead to one code. It fails only where memory
/// runs out.
pub(crate) fn is_proper_by_codes(alloc: Global, coded: &Coded) -> Result<bool, NoMemory>
    ensures by_codes { IfOk result (λ is. IsTrue is ↔ IsProperByCodes coded.now) }
    ensures proper { IfOk result (λ is. IsTrue is → IsProper coded.now.graph) }
{
    if !is_persistent(coded) {
        return Ok(false);
    }
    has_unique_codes(alloc, coded)
}

/// Whether no two states have one code.
fn has_unique_codes(alloc: Global, coded: &Coded) -> Result<bool, NoMemory>
    ensures { IfOk result (λ is. IsTrue is ↔ HasUniqueCodes coded.now) }
{
    let graph = coded.graph();
    let mut firsts: BTreeMap<Code, StateId> = BTreeMap::new(alloc);
    for s in 0..graph.states() {
        let q = StateId(s);
        let p = first_of_code(&mut firsts, coded.code(q), q)?;
        if p.0 != s {
            return Ok(false);
        }
    }
    Ok(true)
}

/// Whether a non-input signal that may switch still may after any arc of another.
fn is_persistent(coded: &Coded) -> bool
    ensures coded { IsCoded coded.now }
    ensures persistent { IsTrue result ↔ IsPersistent coded.now.graph }
{
    let graph = coded.graph();
    let arcs = graph.arcs();
    let inputs = inputs_of(graph);
    for arc in arcs {
        if !leaves_others(coded, inputs, arc) {
            return false;
        }
    }
    true
}

/// Whether after the arc each other non-input signal may switch that might before.
fn leaves_others(coded: &Coded, inputs: Code, arc: &Edge) -> bool
    requires coded { IsCoded coded.now }
    requires inputs { AreInputs coded.now.graph.signals inputs }
    requires from { arc.now.from < coded.now.graph.states }
    requires sig { arc.now.event.sig < length coded.now.graph.signals }
    requires to { arc.now.to < coded.now.graph.states }
    ensures { IsTrue result ↔ LeavesOthers coded.now.graph arc.now }
{
    let before = may_switch(coded, arc.from);
    let after = may_switch(coded, arc.to);
    let free = Code(after.0 | inputs.0).set(arc.event.sig, true);
    before.0 | free.0 == free.0
}

/// The signals that may switch at a state, as bits: their next values differ from their values.
fn may_switch(coded: &Coded, s: StateId) -> Code
    requires coded { IsCoded coded.now }
    requires state { s < coded.now.graph.states }
    ensures { (z : ℕ) → (bit result z ≡ true) ↔ MaySwitch coded.now.graph s z }
{
    Code(coded.next(s).0 ^ coded.code(s).0)
}

/// The inputs, as bits.
fn inputs_of(graph: &Graph) -> Code
    requires { length graph.now.signals ≤ max_signals }
    ensures { AreInputs graph.now.signals result }
{
    let mut inputs = Code(0);
    for k in 0..graph.signals().len() {
        let z = Sig(k as u8);
        if !graph.is_driven(z) {
            inputs = inputs.set(z, true);
        }
    }
    inputs
}
