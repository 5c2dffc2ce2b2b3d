//! Laws of the cells that gates become. Each function does nothing: its contract is the law.

ghost use Rattle.std.specs.Prelude.{◌≡◌, ℕ, ◌+◌, ◌<◌, ◌^◌, List, false, Ok};
ghost use Rattle.si_base.specs.Netlist.{sum_value};
ghost use Rattle.si_cell.specs.Library.{IsLibrary};
ghost use Rattle.si_cube.specs.Covers.{IsPrimeCover};
ghost use Rattle.si_genlib.specs.Gate.{Gate as GateValue, gate_value, pin_count, width};
ghost use Rattle.si_genlib.specs.Gate.{demand, cell_of};
ghost use Rattle.si_genlib.specs.GenlibText.{library_of, ported_of};
ghost use Rattle.si_genlib.specs.Ports.{ArePorts};
ghost use Rattle.si_genlib.specs.Statements.{gate_at};
ghost use Rattle.si_tokens.specs.Unread.{Unread};

/// The sum of the cell that a gate becomes has the gate's value, for all values of its pins and of
/// its own output.
pub fn cells_have_the_values_of_their_gates()
    ensures { (line : ℕ) (u : Unread) (g : GateValue) (rest : Unread) (names : List (List ℕ))
        (code : ℕ) → gate_at line u ≡ Ok (g, rest) → g.pins.more ≡ false
        → code < 2 ^ (pin_count g + 1) → sum_value code (cell_of names g).sum ≡ gate_value g code }
{}

/// That sum is a prime and irredundant cover: it has the value 1 where the gate has to be 1, and 0
/// where it has to be 0.
pub fn sums_of_cells_are_prime_covers()
    ensures { (g : GateValue) (names : List (List ℕ))
        → IsPrimeCover (demand (width g) (gate_value g)) (cell_of names g).sum }
{}

/// What a text spells is a library.
pub fn genlib_texts_spell_libraries()
    ensures { (text : List ℕ) → IsLibrary (library_of text) }
{}

/// That library is the one with names of ports, and these name the ports of its cells.
pub fn genlib_texts_name_ports()
    ensures library { (text : List ℕ) → (ported_of text).library ≡ library_of text }
    ensures ports { (text : List ℕ) → ArePorts (library_of text).cells (ported_of text).ports }
{}
