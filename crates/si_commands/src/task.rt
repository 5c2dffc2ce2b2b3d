//! What a command does.

use si_circuit::style::Style;
use si_reports::netlist_report::NetlistReport;
use si_reports::replay_kind::ReplayReport;
use si_reports::report_kind::Report;

/// What is asked of the program itself.
#[derive(Clone, Copy, PartialEq, Eq, Debug)]
pub enum Topic {
    /// How it is called.
    Help,
    /// The page of a command that the words choose.
    Page(HelpPlace),
    /// Its version.
    Version,
}

/// Where the word that asks for the page of a command stands.
#[derive(Clone, Copy, PartialEq, Eq, Debug)]
pub enum HelpPlace {
    /// Before the command: `help`.
    Before,
    /// Behind it: `--help`.
    Behind,
}

/// How the text of a library is read.
#[derive(Clone, Copy, PartialEq, Eq, Debug)]
pub enum LibraryKind {
    /// As cells, in the tool's own format.
    Cells,
    /// As gates, in genlib.
    Gates,
}

/// What is made of controllers together.
#[derive(Clone, Copy, PartialEq, Eq, Debug)]
pub enum Together {
    /// The graph of graphs that go together by the events that they share.
    Product,
    /// The graph of all of them, side by side.
    Compose,
    /// The netlist of all their gates.
    Join,
    /// Whether their netlists are right together.
    Works,
}

/// What a command does, whatever its files.
#[derive(Clone, Copy, PartialEq, Eq, Debug)]
pub enum Task {
    /// What the program tells of itself.
    About(Topic),
    /// A report on a graph.
    Tell(Report),
    /// The netlist of a graph, with gates of the style.
    Synth(Style),
    /// A netlist of a graph, with gates of the style, that a wider search may have found.
    Suggest(Style),
    /// The netlist of a graph, of the cells of a library that is read so.
    Map(LibraryKind),
    /// A library of genlib in the tool's own format.
    FromGenlib,
    /// A netlist as a module of Verilog.
    Verilog,
    /// The same with an input of the name that the words choose, which resets it.
    Resettable,
    /// A netlist of the cells of a library that is read so, as modules of Verilog with an instance
    /// for each gate.
    Structure(LibraryKind),
    /// The same with an input of the name that the words choose, which resets the netlist.
    ResettableStructure(LibraryKind),
    /// A netlist as equations.
    Equations,
    /// A report on a netlist.
    TellNetlist(NetlistReport),
    /// Where the loops of a netlist of the cells of a library that is read so are cut, as lines for
    /// a timing tool.
    Timing(LibraryKind),
    /// What is told of a schedule over a netlist beside a graph.
    Replay(ReplayReport),
    /// Whether a netlist is certified for a graph.
    Audit,
    /// A netlist with the lines of the insertions that its gates tell for a graph.
    Certify,
    /// The netlist that equations spell, with such lines.
    CertifyEquations,
    /// The netlist that modules of Verilog spell, with such lines.
    CertifyModules,
    /// The graph after the insertions that resolve its conflicts.
    Resolve,
    /// The graph after the insertions of a netlist.
    Insert,
    /// The graph after the insertion of a signal for a gate.
    InsertGate,
    /// Whether two graphs behave alike.
    Same,
    /// What is made of controllers together.
    Together(Together),
    /// The sizes of as many handshakes as the words choose.
    Exercise,
}
