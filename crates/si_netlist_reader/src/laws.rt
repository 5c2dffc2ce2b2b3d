//! Writing and reading of the netlist text are inverse. Each function does nothing: its contract is
//! the law.

ghost use Rattle.std.specs.Prelude.{◌≡◌, ℕ, ◌≤◌, List, None, length};
ghost use Rattle.si_base.specs.Netlist.{Netlist};
ghost use Rattle.si_base.specs.NetlistText.{Version, most_signals, netlist_text_in};
ghost use Rattle.si_base.specs.WellFormed.{IsNetlist};
ghost use Rattle.si_netlist_reader.specs.NetlistFault.{netlist_fault, version_of};
ghost use Rattle.si_netlist_reader.specs.NetlistValue.{netlist_of};

/// In each version with room for its signals a netlist has one text, which has no fault and spells
/// the netlist. A text without fault is the text in its version of the netlist that it spells, and
/// of no other.
pub fn writing_and_reading_are_inverse()
    ensures written { (v : Version) (n : Netlist) → IsNetlist n → length n.signals ≤ most_signals v
        → (version_of (netlist_text_in v n) ≡ v) × (netlist_fault (netlist_text_in v n) ≡ None)
        × (netlist_of (netlist_text_in v n) ≡ n) }
    ensures read { (text : List ℕ) → netlist_fault text ≡ None → IsNetlist (netlist_of text)
        × (length (netlist_of text).signals ≤ most_signals (version_of text))
        × (text ≡ netlist_text_in (version_of text) (netlist_of text)) }
    ensures one { (v w : Version) (n m : Netlist) → IsNetlist n → IsNetlist m
        → length n.signals ≤ most_signals v → length m.signals ≤ most_signals w
        → netlist_text_in v n ≡ netlist_text_in w m → (v ≡ w) × (n ≡ m) }
{}
