//! Laws of chosen gates. Each function does nothing: its contract is the law.

ghost use Rattle.std.specs.Prelude.{◌≡◌, ◌≢◌, ℕ, List, length, AllPairs};
ghost use Rattle.si_base.specs.Behaviour.{Implements};
ghost use Rattle.si_base.specs.Codes.{CodedGraph, IsCoded};
ghost use Rattle.si_base.specs.Netlist.{Insertion, Netlist};
ghost use Rattle.si_base.specs.Proper.{HasNoConflict, IsProper};
ghost use Rattle.si_base.specs.RightGates.{GivesNextValues, HasNoneInserted, IsRight};
ghost use Rattle.si_base.specs.WellFormed.{IsNetlist};
ghost use Rattle.si_insert.specs.declared.lineage.TraceStep.{TraceStep};
ghost use Rattle.si_insert.specs.Lineage.{Current, History, IsLineage};
ghost use Rattle.si_cell.specs.Library.{Library, IsLibrary};
ghost use Rattle.si_cell.specs.declared.pins.Pins.TheVariants.{Plain};
ghost use Rattle.si_circuit.specs.declared.style.Style.{Style};
ghost use Rattle.si_circuit.specs.Cells.{AllFit, cell_gate};
ghost use Rattle.si_circuit.specs.Covered.{HasCoverGates, HasPrimeGates};
ghost use Rattle.si_circuit.specs.Gates.{chosen_netlist, gate_of, netlist_of};
ghost use Rattle.si_circuit.specs.Spelled.{AreInserted, AreSpelled};
ghost use Rattle.si_circuit.specs.Spelling.{AreDescents, WordsTellStates, descents_along};
ghost use Rattle.si_circuit.specs.Spelling.{given_descents};
ghost use Rattle.si_circuit.specs.Wires.{IsOfCellsAndWires};

/// Gates whose sums are covers give the next values: complex gates by covers of the next-value
/// codes, generalised C-elements by covers of the set and of the reset codes. Whether the sums are
/// prime doesn't matter.
pub fn cover_gates_give_next_values()
    ensures { (c : CodedGraph) (n : Netlist) → IsCoded c → HasCoverGates c n
        → GivesNextValues c n }
{}

/// The chosen gates of a graph without conflicts are prime and irredundant covers, in each style.
pub fn chosen_gates_are_prime()
    ensures { (style : Style) (c : CodedGraph) (model : List ℕ) (inserts : List Insertion)
        → IsCoded c → HasNoConflict c
        → HasPrimeGates c (netlist_of (gate_of style c) model inserts c) }
{}

/// The chosen gates of a graph without conflicts give the next values, in each style.
pub fn chosen_gates_give_next_values()
    ensures { (style : Style) (c : CodedGraph) (model : List ℕ) (inserts : List Insertion)
        → IsCoded c → HasNoConflict c
        → GivesNextValues c (netlist_of (gate_of style c) model inserts c) }
{}

/// The netlists of the chosen gates of a graph without conflicts have right gates, in each style.
pub fn chosen_gates_are_right()
    ensures { (style : Style) (c : CodedGraph) (model : List ℕ) → IsCoded c → HasNoConflict c
        → HasNoneInserted (chosen_netlist style model c)
        → IsRight c (chosen_netlist style model c) }
{}

/// The netlist of the chosen gates of a proper graph without conflicts implements the graph, in
/// each style: it loses no excitation, is weakly bisimilar to the graph, and has no silent cycle.
pub fn chosen_netlists_implement()
    ensures { (style : Style) (c : CodedGraph) (model : List ℕ) → IsCoded c → IsProper c.graph
        → HasNoConflict c → HasNoneInserted (chosen_netlist style model c)
        → Implements (chosen_netlist style model c) c.graph }
{}

/// The chosen gates of a graph make a netlist of the format, in each style: the gates are as many
/// as the signals that the circuit drives, and the literals of each cube stand in signal order.
pub fn chosen_gates_make_netlists()
    ensures { (style : Style) (c : CodedGraph) (model : List ℕ) (inserts : List Insertion)
        → IsCoded c → AreSpelled model c.graph.signals → AreInserted inserts c.graph.signals
        → IsNetlist (netlist_of (gate_of style c) model inserts c) }
{}

/// The first fitting instances give the next values, where each signal that the circuit drives has
/// one.
pub fn cell_gates_give_next_values()
    ensures { (c : CodedGraph) (library : Library) (model : List ℕ) (inserts : List Insertion)
        → IsCoded c → IsLibrary library → AllFit c library
        → GivesNextValues c (netlist_of (cell_gate c library) model inserts c) }
{}

/// They make a netlist of the format: each gate has a cell name, at most four literals of signals
/// that are there, and a sum whose cubes have their literals in signal order.
pub fn cell_gates_make_netlists()
    ensures { (c : CodedGraph) (library : Library) (model : List ℕ) (inserts : List Insertion)
        → IsCoded c → IsLibrary library → AllFit c library → AreSpelled model c.graph.signals
        → AreInserted inserts c.graph.signals
        → IsNetlist (netlist_of (cell_gate c library) model inserts c) }
{}

/// Where the library's pins are plain, they are cells and wires: each pin reads a signal as it is.
pub fn plain_pins_read_signals()
    ensures { (c : CodedGraph) (library : Library) (model : List ℕ) (inserts : List Insertion)
        → IsCoded c → IsLibrary library → AllFit c library → library.pins ≡ Plain
        → IsOfCellsAndWires library (netlist_of (cell_gate c library) model inserts c) }
{}

/// After the insertions of a lineage the spelled states are its current states: each with its
/// origin, and with the values of the inserted signals in order of insertion.
pub fn spelled_states_are_current()
    ensures { (given : CodedGraph) (trace : List TraceStep) (v : Current)
        → IsLineage given trace v
        → AreDescents given v (descents_along 0 trace (given_descents given.graph.states)) }
{}

/// Where the given states have distinct names, the words of the current states tell them apart.
pub fn words_tell_current_states()
    ensures { (states : List (List ℕ)) (l : History) → IsLineage l.given l.trace l.current
        → length states ≡ l.given.graph.states → AllPairs (λ x y. x ≢ y) states
        → WordsTellStates states l }
{}
