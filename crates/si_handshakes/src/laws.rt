//! Laws of the graph of handshakes. Each function does nothing: its contract is the law.

ghost use Rattle.std.specs.Prelude.{◌≡◌, ℕ, ◌*◌, ◌^◌, ◌≤◌, length};
ghost use Rattle.si_base.specs.Codes.{CodedGraph, IsCoded, IsConnected};
ghost use Rattle.si_base.specs.GivenGraph.{Sg as SgValue};
ghost use Rattle.si_base.specs.Proper.{HasNoConflict, IsProper};
ghost use Rattle.si_checks.specs.declared.distinct.NotDistinct.{NotDistinct};
ghost use Rattle.si_checks.specs.declared.proper.Improper.{Improper};
ghost use Rattle.si_checks.specs.Faults.{ShowsConflict, ShowsImproper};
ghost use Rattle.si_graph.specs.declared.coded.CodeFault.{CodeFault};
ghost use Rattle.si_graph.specs.Faults.{ShowsUncoded};
ghost use Rattle.si_handshakes.specs.Handshakes.{HasValuesOfPhases, IsHandshakes};
ghost use Rattle.si_handshakes.specs.Handshakes.{IsWithinLimits, max_handshakes};
ghost use Rattle.si_sg.specs.CanonicalText.{IsWritable};

use si_checks::distinct::NotDistinct;
use si_checks::proper::Improper;
use si_graph::coded::CodeFault;

/// For each number of handshakes there is one graph at most.
pub fn handshakes_are_unique()
    ensures { (n : ℕ) (one other : SgValue) → IsHandshakes n one → IsHandshakes n other
        → one ≡ other }
{}

/// For each number up to 8 there is one.
pub fn handshakes_exist()
    ensures { (n : ℕ) → n ≤ max_handshakes → (sg : SgValue) × IsHandshakes n sg }
{}

/// Each state is reachable.
pub fn handshakes_are_connected()
    ensures { (n : ℕ) (sg : SgValue) → IsHandshakes n sg → IsConnected sg.graph }
{}

/// The graph is deterministic, consistent, commutative and output-persistent.
pub fn handshakes_are_proper()
    ensures { (n : ℕ) (sg : SgValue) → IsHandshakes n sg → IsProper sg.graph }
{}

/// The code of a state has the values of the requests and acknowledgements in its phases.
pub fn codes_have_the_values_of_phases()
    ensures { (n : ℕ) (sg : SgValue) (c : CodedGraph) → IsHandshakes n sg → c.graph ≡ sg.graph
        → IsCoded c → HasValuesOfPhases n c }
{}

/// The graph has complete state coding.
pub fn handshakes_have_no_conflict()
    ensures { (n : ℕ) (sg : SgValue) (c : CodedGraph) → IsHandshakes n sg → c.graph ≡ sg.graph
        → IsCoded c → HasNoConflict c }
{}

/// No check refuses the graph: it fails only where memory runs out.
pub fn handshakes_are_never_refused()
    ensures coded { (n : ℕ) (sg : SgValue) (fault : CodeFault) → IsHandshakes n sg
        → ShowsUncoded sg.graph fault → fault ≡ CodeFault.NoMemory }
    ensures proper { (n : ℕ) (sg : SgValue) (c : CodedGraph) (fault : Improper)
        → IsHandshakes n sg → c.graph ≡ sg.graph → ShowsImproper c.graph fault
        → fault ≡ Improper.NoMemory }
    ensures distinct { (n : ℕ) (sg : SgValue) (c : CodedGraph) (fault : NotDistinct)
        → IsHandshakes n sg → c.graph ≡ sg.graph → IsCoded c → ShowsConflict c fault
        → fault ≡ NotDistinct.NoMemory }
{}

/// There are 4^n states and n * 4^n arcs.
pub fn handshakes_have_these_sizes()
    ensures states { (n : ℕ) (sg : SgValue) → IsHandshakes n sg → sg.graph.states ≡ 4 ^ n }
    ensures arcs { (n : ℕ) (sg : SgValue) → IsHandshakes n sg
        → length sg.graph.edges ≡ n * 4 ^ n }
{}

/// Up to 8 handshakes have at most 16 signals, 65,536 states and 524,288 arcs.
pub fn handshakes_are_within_limits()
    ensures { (n : ℕ) (sg : SgValue) → n ≤ max_handshakes → IsHandshakes n sg
        → IsWithinLimits sg.graph }
{}

/// Up to 8 handshakes have names of the forms that texts ask for, one for each state, and no signal
/// is inserted, so that the graph has a canonical text, and its netlist a text.
pub fn handshakes_are_writable()
    ensures { (n : ℕ) (sg : SgValue) → n ≤ max_handshakes → IsHandshakes n sg → IsWritable sg }
{}
