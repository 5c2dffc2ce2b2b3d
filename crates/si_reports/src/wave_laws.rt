//! A law of waves over texts. The function does nothing: its contract is the law.

ghost use Rattle.std.specs.Prelude.{List, ℕ, Ok};
ghost use Rattle.si_reports.specs.Meaning.{replay};
ghost use Rattle.si_reports.specs.WaveLaws.{ShowsReplay};
ghost use Rattle.si_reports.specs.declared.replay_kind.ReplayReport.TheVariants as report;

/// Where a wave is told of a replay, it shows what each event of the schedule leads to, from the
/// start to the end.
pub fn waves_show_replays()
    ensures { (g n s graph netlist schedule output : List ℕ)
        → replay report.Wave g graph n netlist s schedule (Ok output)
        → ShowsReplay graph netlist schedule output }
{}
