//! The table of the commands: a row for each form in which one is written.

ghost use Rattle.std.specs.Prelude.{◌≡◌, map};
ghost use Rattle.si_commands.specs.Command as command;
ghost use Rattle.si_commands.specs.Loops.Reads.{row_now};

use crate::form::Slot::{File, LibraryFile, LoneFile, Name, OneOf, Word};
use crate::form::Tail::{MoreFiles, MorePairs, Nothing, Options};
use crate::form::{Slot, Tail};
use crate::task::{HelpPlace, LibraryKind, Task, Together, Topic};
use si_circuit::style::Style;
use si_reports::netlist_report::NetlistReport;
use si_reports::replay_kind::ReplayReport;
use si_reports::report_kind::Report;

/// A command: what it does, the form in which it is written, with the names of its files and with
/// its options, and what the help says of it.
#[derive(Clone, Copy)]
pub struct Row {
    pub task: Task,
    pub places: &'static [Slot<'static>],
    pub tail: Tail<'static>,
    pub says: &'static str,
}

/// The words that ask for the help.
const HELP_WORDS: &[&str] = &["--help", "-h", "help"];

/// The words that a form begins with: those of the commands.
const COMMANDS: &[&str] = &[
    "check",
    "states",
    "regions",
    "conflicts",
    "explain",
    "lint",
    "covers",
    "fold",
    "dot",
    "synth",
    "suggest",
    "map",
    "resolve",
    "insert",
    "genlib",
    "verilog",
    "eqn",
    "loops",
    "reset",
    "replay",
    "wave",
    "audit",
    "certify",
    "same",
    "product",
    "compose",
    "join",
    "works",
    "exercise",
    "help",
    "--version",
];

/// The digits from 1 to 8.
const DIGITS: &[&str] = &["1", "2", "3", "4", "5", "6", "7", "8"];

/// The options of `resolve`: insertions that a wider search finds.
const RESOLVE_OPTIONS: &[&str] = &["suggest"];

/// The options of `map`: the same, and pins without complements.
const MAP_OPTIONS: &[&str] = &["suggest", "plain"];

/// The option of `verilog` over a library: an inverter for each complemented pin.
const STRUCTURE_OPTIONS: &[&str] = &["inverters"];

/// What no library is called before other words: the word that tells the format of the next file.
const FORMAT_WORDS: &[&str] = &["genlib"];

/// The same for `verilog`, where another word stands before the name of an input.
const VERILOG_WORDS: &[&str] = &["genlib", "reset"];

/// The rows.
const ROWS: &[Row] = &[
    Row {
        task: Task::Tell(Report::Summary),
        places: &[Word("check"), LoneFile("F")],
        tail: Nothing,
        says: "the size of a graph, where it is proper",
    },
    Row {
        task: Task::Tell(Report::States),
        places: &[Word("states"), LoneFile("F")],
        tail: Nothing,
        says: "its states: their codes, what they enable",
    },
    Row {
        task: Task::Tell(Report::Regions),
        places: &[Word("regions"), LoneFile("F")],
        tail: Nothing,
        says: "where events are excited, and what follows",
    },
    Row {
        task: Task::Tell(Report::Conflicts),
        places: &[Word("conflicts"), LoneFile("F")],
        tail: Nothing,
        says: "states that no gates can tell apart",
    },
    Row {
        task: Task::Tell(Report::Explain),
        places: &[Word("explain"), LoneFile("F")],
        tail: Nothing,
        says: "walks to them, and which no signal resolves",
    },
    Row {
        task: Task::Tell(Report::Lint),
        places: &[Word("lint"), LoneFile("F")],
        tail: Nothing,
        says: "dead ends, and more worth a second look",
    },
    Row {
        task: Task::Tell(Report::Covers),
        places: &[Word("covers"), LoneFile("F")],
        tail: Nothing,
        says: "sums for each signal, and monotonous cubes",
    },
    Row {
        task: Task::Tell(Report::Fold),
        places: &[Word("fold"), LoneFile("F")],
        tail: Nothing,
        says: "the graph with alike states merged",
    },
    Row {
        task: Task::Tell(Report::Dot),
        places: &[Word("dot"), LoneFile("F")],
        tail: Nothing,
        says: "the graph as a picture for Graphviz",
    },
    Row {
        task: Task::Synth(Style::Complex),
        places: &[Word("synth"), File("F"), Word("complex")],
        tail: Nothing,
        says: "a netlist of complex gates",
    },
    Row {
        task: Task::Synth(Style::GeneralisedC),
        places: &[Word("synth"), File("F"), Word("gc")],
        tail: Nothing,
        says: "a netlist of generalised C-elements",
    },
    Row {
        task: Task::Suggest(Style::Complex),
        places: &[Word("suggest"), File("F"), Word("complex")],
        tail: Nothing,
        says: "the same by a wider search",
    },
    Row {
        task: Task::Suggest(Style::GeneralisedC),
        places: &[Word("suggest"), File("F"), Word("gc")],
        tail: Nothing,
        says: "the same by a wider search",
    },
    Row {
        task: Task::Map(LibraryKind::Cells),
        places: &[Word("map"), File("F"), LibraryFile("LIB", FORMAT_WORDS)],
        tail: Options(MAP_OPTIONS),
        says: "a netlist of cells of a library",
    },
    Row {
        task: Task::Map(LibraryKind::Gates),
        places: &[Word("map"), File("F"), Word("genlib"), File("FILE")],
        tail: Options(MAP_OPTIONS),
        says: "the same of gates of genlib",
    },
    Row {
        task: Task::Resolve,
        places: &[Word("resolve"), LoneFile("F")],
        tail: Options(RESOLVE_OPTIONS),
        says: "the graph with its conflicts resolved",
    },
    Row {
        task: Task::Insert,
        places: &[Word("insert"), File("F"), File("NETLIST")],
        tail: Nothing,
        says: "the graph after insertions of a netlist",
    },
    Row {
        task: Task::InsertGate,
        places: &[Word("insert"), File("F"), Word("gate"), File("GATE")],
        tail: Nothing,
        says: "the graph with a signal for a gate",
    },
    Row {
        task: Task::FromGenlib,
        places: &[Word("genlib"), LoneFile("FILE")],
        tail: Nothing,
        says: "a library of genlib as a library of cells",
    },
    Row {
        task: Task::Verilog,
        places: &[Word("verilog"), LoneFile("NETLIST")],
        tail: Nothing,
        says: "a netlist as a module of Verilog",
    },
    Row {
        task: Task::Resettable,
        places: &[
            Word("verilog"),
            File("NETLIST"),
            Word("reset"),
            Name("NAME"),
        ],
        tail: Nothing,
        says: "the same with an input that resets it",
    },
    Row {
        task: Task::Structure(LibraryKind::Cells),
        places: &[
            Word("verilog"),
            File("NETLIST"),
            LibraryFile("LIB", VERILOG_WORDS),
        ],
        tail: Options(STRUCTURE_OPTIONS),
        says: "the same of instances of cells",
    },
    Row {
        task: Task::Structure(LibraryKind::Gates),
        places: &[
            Word("verilog"),
            File("NETLIST"),
            Word("genlib"),
            File("FILE"),
        ],
        tail: Options(STRUCTURE_OPTIONS),
        says: "the same of gates of genlib",
    },
    Row {
        task: Task::ResettableStructure(LibraryKind::Cells),
        places: &[
            Word("verilog"),
            File("NETLIST"),
            LibraryFile("LIB", VERILOG_WORDS),
            Word("reset"),
            Name("NAME"),
        ],
        tail: Options(STRUCTURE_OPTIONS),
        says: "cells, with a reset input",
    },
    Row {
        task: Task::ResettableStructure(LibraryKind::Gates),
        places: &[
            Word("verilog"),
            File("NETLIST"),
            Word("genlib"),
            File("FILE"),
            Word("reset"),
            Name("NAME"),
        ],
        tail: Options(STRUCTURE_OPTIONS),
        says: "the same of genlib",
    },
    Row {
        task: Task::Equations,
        places: &[Word("eqn"), LoneFile("NETLIST")],
        tail: Nothing,
        says: "a netlist as equations",
    },
    Row {
        task: Task::TellNetlist(NetlistReport::Loops),
        places: &[Word("loops"), LoneFile("NETLIST")],
        tail: Nothing,
        says: "which pins to cut, so that it has no loop",
    },
    Row {
        task: Task::Timing(LibraryKind::Cells),
        places: &[
            Word("loops"),
            File("NETLIST"),
            LibraryFile("LIB", FORMAT_WORDS),
        ],
        tail: Nothing,
        says: "the same for a timing tool",
    },
    Row {
        task: Task::Timing(LibraryKind::Gates),
        places: &[Word("loops"), File("NETLIST"), Word("genlib"), File("FILE")],
        tail: Nothing,
        says: "the same of gates of genlib",
    },
    Row {
        task: Task::TellNetlist(NetlistReport::Reset),
        places: &[Word("reset"), LoneFile("NETLIST")],
        tail: Nothing,
        says: "which outputs to force, so that it starts",
    },
    Row {
        task: Task::Replay(ReplayReport::End),
        places: &[Word("replay"), File("F"), File("NETLIST"), File("SCHEDULE")],
        tail: Nothing,
        says: "where a schedule over a netlist ends",
    },
    Row {
        task: Task::Replay(ReplayReport::Wave),
        places: &[Word("wave"), File("F"), File("NETLIST"), File("SCHEDULE")],
        tail: Nothing,
        says: "the same as a Value Change Dump",
    },
    Row {
        task: Task::Audit,
        places: &[Word("audit"), File("F"), File("NETLIST")],
        tail: Nothing,
        says: "whether a netlist is certified for a graph",
    },
    Row {
        task: Task::Certify,
        places: &[Word("certify"), File("F"), File("NETLIST")],
        tail: Nothing,
        says: "a netlist with insertions told by its gates",
    },
    Row {
        task: Task::CertifyEquations,
        places: &[Word("certify"), File("F"), Word("eqn"), File("EQUATIONS")],
        tail: Nothing,
        says: "the same of equations",
    },
    Row {
        task: Task::CertifyModules,
        places: &[Word("certify"), File("F"), Word("verilog"), File("MODULES")],
        tail: Nothing,
        says: "the same of modules of Verilog",
    },
    Row {
        task: Task::Same,
        places: &[Word("same"), File("F"), File("G")],
        tail: Nothing,
        says: "whether two graphs behave alike",
    },
    Row {
        task: Task::Together(Together::Product),
        places: &[Word("product"), File("F"), File("G")],
        tail: MoreFiles(62),
        says: "the graph of cycles that share events",
    },
    Row {
        task: Task::Together(Together::Compose),
        places: &[Word("compose"), File("F"), File("G")],
        tail: MoreFiles(62),
        says: "the graph of graphs side by side",
    },
    Row {
        task: Task::Together(Together::Join),
        places: &[Word("join"), File("F"), File("N"), File("G"), File("M")],
        tail: MorePairs(124),
        says: "the netlist of netlists side by side",
    },
    Row {
        task: Task::Together(Together::Works),
        places: &[Word("works"), File("F"), File("N"), File("G"), File("M")],
        tail: MorePairs(124),
        says: "whether netlists are right together",
    },
    Row {
        task: Task::Exercise,
        places: &[Word("exercise"), OneOf("N", DIGITS)],
        tail: Nothing,
        says: "the sizes of N handshakes, from 1 to 8",
    },
    Row {
        task: Task::About(Topic::Help),
        places: &[OneOf("--help, -h or help", HELP_WORDS)],
        tail: Nothing,
        says: "this text",
    },
    Row {
        task: Task::About(Topic::Page(HelpPlace::Before)),
        places: &[Word("help"), OneOf("COMMAND", COMMANDS)],
        tail: Nothing,
        says: "what a command writes, and how it may end",
    },
    Row {
        task: Task::About(Topic::Page(HelpPlace::Behind)),
        places: &[OneOf("COMMAND", COMMANDS), Word("--help")],
        tail: Nothing,
        says: "the same",
    },
    Row {
        task: Task::About(Topic::Version),
        places: &[Word("--version")],
        tail: Nothing,
        says: "the version, and what proved it",
    },
];

/// Each command, in the order of the help. No two of them have a form in common.
pub fn rows() -> &'static [Row]
    ensures tasks { map (λ row. row.task) result.now ≡ command.tasks }
    ensures rows { map row_now result.now ≡ command.rows }
{
    ROWS
}
