//! Laws of signals that are inserted by their gates. Each function does nothing: its contract is
//! the law.

ghost use Rattle.si_by_hand.specs.GateLaws.{GatesMakeTheirSignals};
ghost use Rattle.si_by_hand.specs.GateLaws.{PartitionsForGatesAreLeast};
ghost use Rattle.si_by_hand.specs.Laws.{OutputsAreMadeByHand};

/// What the command comes to is the text of the graph after one insertion, by the partition for the
/// gate; it is read back as that graph.
pub fn outputs_are_made_by_hand()
    ensures { OutputsAreMadeByHand }
{}

/// Where a signal is inserted by the partition for a gate, the gate has the next value of the
/// signal at each state.
pub fn gates_make_their_signals()
    ensures { GatesMakeTheirSignals }
{}

/// The partition for a gate is the least for which the gate is right.
pub fn partitions_for_gates_are_least()
    ensures { PartitionsForGatesAreLeast }
{}
