//! Laws of waves. Each function does nothing: its contract is the law.

ghost use Rattle.std.specs.Prelude.{◌≡◌, ℕ, ◌<◌, ◌+◌, ◌^◌, All, List, IsTrue, length};
ghost use Rattle.std.specs.List.{list_all};
ghost use Rattle.si_base.specs.Bytes.{first_visible, tilde};
ghost use Rattle.si_base.specs.Limits.{max_signals};
ghost use Rattle.si_base.specs.Netlist.{Netlist};
ghost use Rattle.si_base.specs.WellFormed.{IsNetlist};
ghost use Rattle.si_base.specs.Words.{is_between};
ghost use Rattle.si_base.specs.declared.ids.Event.{Event};
ghost use Rattle.si_wave.specs.Dump.{Dump};
ghost use Rattle.si_wave.specs.Reading.{HasShortTimes, ShowsRuns, Spells};
ghost use Rattle.si_wave.specs.Wave.{wave_of, wave_text, wire_code};

/// No two signals have the same code, and codes are of visible bytes.
pub fn codes_are_told_apart()
    ensures apart { (a b : ℕ) → wire_code a ≡ wire_code b → a ≡ b }
    ensures visible { (sig : ℕ) → sig < max_signals
        → IsTrue (list_all (is_between first_visible tilde) (wire_code sig)) }
{}

/// A wave shows each signal with the value that it has after so many events.
pub fn waves_show_runs()
    ensures { (n : Netlist) (events : List Event) → ShowsRuns n events }
{}

/// The words of a wave are those of its dump, and words spell one dump at most.
pub fn waves_are_read()
    ensures spelled { (n : Netlist) (events : List Event) → IsNetlist n
        → All (λ e. e.sig < length n.signals) events → length events + 1 < 2 ^ 64
        → Spells (wave_text n events) (wave_of n events) }
    ensures one { (text : List ℕ) (d e : Dump) → HasShortTimes d → HasShortTimes e
        → Spells text d → Spells text e → d ≡ e }
{}
