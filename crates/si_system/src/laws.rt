//! An event has exactly one verdict, a schedule exactly one outcome, and two lists at most one
//! first difference. Each function does nothing: its contract is the law.

ghost use Rattle.std.specs.Prelude.{◌≡◌, ℕ, IsSome, List};
ghost use Rattle.si_base.specs.Codes.{CodedGraph, IsCoded};
ghost use Rattle.si_base.specs.Graph.{StateGraph};
ghost use Rattle.si_base.specs.Netlist.{Netlist};
ghost use Rattle.si_base.specs.System.{IsFor, State};
ghost use Rattle.si_base.specs.declared.ids.Event.{Event};
ghost use Rattle.si_system.specs.Lists.{ShowsDifference};
ghost use Rattle.si_system.specs.Outcome.{IsOutcome};
ghost use Rattle.si_system.specs.Verdict.{IsVerdict};
ghost use Rattle.si_system.specs.declared.replay.Outcome.{Outcome};
ghost use Rattle.si_system.specs.declared.verdict.Verdict.{Verdict};

/// Firing an event at a state of the system has one verdict, and leads to one state.
pub fn verdicts_are_unique()
    ensures { (g : StateGraph) (n : Netlist) (x : State) (e : Event) (v w : Verdict) (y z : State)
        → IsVerdict g n x e v y → IsVerdict g n x e w z → (v ≡ w) × (y ≡ z) }
{}

/// Firing an event at a state of the system has a verdict, and leads to a state.
pub fn verdicts_exist()
    ensures { (g : StateGraph) (n : Netlist) (x : State) (e : Event)
        → (v : Verdict) × (y : State) × IsVerdict g n x e v y }
{}

/// A schedule has one outcome from a state of the system.
pub fn outcomes_are_unique()
    ensures { (g : StateGraph) (n : Netlist) (x : State) (schedule : List Event) (o p : Outcome)
        → IsOutcome g n x schedule o → IsOutcome g n x schedule p → o ≡ p }
{}

/// A schedule has an outcome from each state of the system that stands at a state of the graph.
pub fn outcomes_exist()
    ensures { (g : StateGraph) (n : Netlist) (x : State) (schedule : List Event) → IsSome x.place
        → (o : Outcome) × IsOutcome g n x schedule o }
{}

/// A graph and a netlist show one first difference, and show none where the netlist is for the
/// graph, whichever codes of the graph are taken.
pub fn differences_are_unique()
    ensures one { (c d : CodedGraph) (n : Netlist) (p q : ℕ) → IsCoded c → IsCoded d
        → c.graph ≡ d.graph → ShowsDifference c n p → ShowsDifference d n q → p ≡ q }
    ensures none { (c d : CodedGraph) (n : Netlist) (p : ℕ) → IsCoded c → IsCoded d
        → c.graph ≡ d.graph → IsFor c n → ShowsDifference d n p → ⊥ }
{}
