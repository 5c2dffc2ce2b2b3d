//! What the page of a command says of it, behind its forms.

ghost use Rattle.std.specs.Prelude.{◌≡◌, map};
ghost use Rattle.si_commands.specs.About as about;

/// For each word with which a form begins: what the commands of that word write, an example, and
/// the statuses with which they end.
const NOTES: &[(&str, &[u8])] = &[
    (
        "check",
        b"It writes `proper`, which says that a circuit without hazards can exist for the
graph, and how many signals, states and arcs it has, and its start.

Example:

  sisyn check examples/vme-read.sg

Statuses: 0, 1 nomemory, 3 readfault, 4 writefault, 5 toolong, 6 badtext, 7 of
a graph that isn't proper.
",
    ),
    (
        "states",
        b"It writes the signals, and for each state its code, with a * behind the digit
of an excited signal, and the events that it enables; where the graph has no
codes, a - stands for each. It takes each graph, proper or not.

Example:

  sisyn states examples/c-element.sg

Statuses: 0, 1 nomemory, 3 readfault, 4 writefault, 5 toolong, 6 badtext.
",
    ),
    (
        "regions",
        b"It writes for each event where it is excited (er), where it has just switched
(sr), and where it stays as it is from there on (qr).

Example:

  sisyn regions examples/c-element.sg

Statuses: 0, 1 nomemory, 3 readfault, 4 writefault, 5 toolong, 6 badtext, 7 of
a graph that isn't proper.
",
    ),
    (
        "conflicts",
        b"It writes how many pairs of states have one code and enable different events of
outputs, and the first 1,000 of them.

Example:

  sisyn conflicts examples/vme-read.sg

Statuses: 0, 1 nomemory, 3 readfault, 4 writefault, 5 toolong, 6 badtext, 7 of
a graph that isn't proper.
",
    ),
    (
        "explain",
        b"It writes of the first 10 conflicts the code, what both states enable, a
shortest walk to each, and whether no inserted signal can resolve it, as inputs
alone lead to both states, or the circuit can't tell the two apart (twins), or
inputs lead from one to the other, some of them backwards (kin).

Example:

  sisyn explain examples/pulse-train.sg

Statuses: 0, 1 nomemory, 3 readfault, 4 writefault, 5 toolong, 6 badtext, 7 of
a graph that isn't proper.
",
    ),
    (
        "lint",
        b"It writes lines on what is worth a second look, as dropped states, dead ends,
arcs of no return, inputs that are disabled, unused signals, equal codes and
alike states. Of a graph that isn't proper it writes all breaches, each with a
shortest walk.

Example:

  sisyn lint examples/vme-read.sg

Statuses: 0, 1 nomemory, 3 readfault, 4 writefault, 5 toolong, 6 badtext.
",
    ),
    (
        "covers",
        b"It writes for each signal that isn't an input sums for its next value, its set
and its reset, and the monotonous cubes; or the first conflict.

Example:

  sisyn covers examples/c-element.sg

Statuses: 0, 1 nomemory, 3 readfault, 4 writefault, 5 toolong, 6 badtext, 7 of
a graph that isn't proper.
",
    ),
    (
        "fold",
        b"It writes the graph with those states merged that no walk tells apart.

Example:

  sisyn fold examples/vme-read.sg

Statuses: 0, 1 nomemory, 3 readfault, 4 writefault, 5 toolong, 6 badtext, 7 of
a graph that isn't proper.
",
    ),
    (
        "dot",
        b"It writes the graph in Graphviz's language, with its conflicts in red, or with
the breach that `check` shows: it takes each graph, proper or not.

Example:

  sisyn dot examples/vme-read.sg | dot -Tsvg > vme-read.svg

Statuses: 0, 1 nomemory, 3 readfault, 4 writefault, 5 toolong, 6 badtext.
",
    ),
    (
        "synth",
        b"It writes a netlist: a line for each signal that was inserted to resolve
conflicts, and a gate for each signal that isn't an input.

Example:

  sisyn synth examples/vme-read.sg complex > vme-read.net

Statuses: 0, 1 nomemory, 3 readfault, 4 writefault, 5 toolong, 6 badtext, 7 of
a graph that isn't proper, 8 unresolved.
",
    ),
    (
        "suggest",
        b"It writes a netlist as `synth` does, also of graphs of which `synth` is
unresolved: it looks at further signals, and where `synth` has a netlist, at
ones with fewer literals. It tells which conflict no signals can resolve.

Example:

  sisyn suggest examples/duplicator.sg complex > duplicator.net

Statuses: 0, 1 nomemory, 3 readfault, 4 writefault, 5 toolong, 6 badtext, 7 of
a graph that isn't proper, 8 unresolvable or unresolved.
",
    ),
    (
        "map",
        b"It writes a netlist as `synth` does, with a cell of the library for each
signal; where none fits, further signals take a gate apart. With `suggest` the
first signals are those of `suggest F complex`. With `plain` no pin has a
complement, so that the netlist is cells and wires. A library in a file genlib
is named ./genlib before such a word.

Example:

  sisyn map examples/c-element-three.sg genlib examples/everyday.genlib

Statuses: 0, 1 nomemory, 3 readfault, 4 writefault, 5 toolong, 6 badtext, 7 of
a graph that isn't proper, 8 unresolved or with `suggest` unresolvable, 9
unmapped.
",
    ),
    (
        "resolve",
        b"It writes the graph after the insertions that `synth` makes, or with `suggest`
after those of `suggest F complex`.

Example:

  sisyn resolve examples/vme-read.sg | sisyn synth /dev/stdin gc

Statuses: 0, 1 nomemory, 3 readfault, 4 writefault, 5 toolong, 6 badtext, 7 of
a graph that isn't proper, 8 unresolved or with `suggest` unresolvable.
",
    ),
    (
        "insert",
        b"It writes the graph after the insertions that a netlist names, or after that of
one signal for a gate: FILE holds its line, such as 'x sum r + a x'.

Example:

  sisyn insert examples/vme-read.sg examples/vme-read.net

Statuses: 0, 1 nomemory, 3 readfault, 4 writefault, 5 toolong, 6 badtext or
lists, 7 of a graph that isn't proper, 11 rejected.
",
    ),
    (
        "genlib",
        b"It writes a library of genlib, the format of SIS and ABC, as one of cells.

Example:

  sisyn genlib examples/everyday.genlib

Statuses: 0, 1 nomemory, 3 readfault, 4 writefault, 5 toolong, 6 badtext.
",
    ),
    (
        "verilog",
        b"It writes the netlist as a module of Verilog; with a library as a module for
each cell that is used, and one with an instance of a cell for each gate, by the
names that genlib gives to pins. A pin reads a signal as it is, as those that
`map` with plain behind it makes; `inverters` puts an inverter of the library in
front of each other pin. With `reset` the controller has an input NAME: while it
is 1, the outputs that the command `reset` lists have their start values.

Example:

  sisyn verilog examples/vme-read.net > vme-read.v

Statuses: 0, 1 nomemory, 3 readfault, 4 writefault, 5 toolong, 6 badtext, 15 of
a gate that is no instance of a cell, or has a complemented pin; of a model that
has the name of a cell, and of an input that has that of a signal.
",
    ),
    (
        "eqn",
        b"It writes the netlist as equations, in the form that petrify and SIS read: an
expression for each signal that isn't an input.

Example:

  sisyn eqn examples/vme-read.net > vme-read.eqn

Statuses: 0, 1 nomemory, 3 readfault, 4 writefault, 5 toolong, 6 badtext.
",
    ),
    (
        "loops",
        b"It writes how many arcs lead from gate to gate, and those pins that, cut, leave
no loop; with a library as commands for a timing tool, which name the instances
that `verilog` with this library writes.

Example:

  sisyn loops examples/vme-read.net

Statuses: 0, 1 nomemory, 3 readfault, 4 writefault, 5 toolong, 6 badtext; with a
library 15 of a gate that is no instance of a cell.
",
    ),
    (
        "reset",
        b"It writes which gates settle by themselves while the inputs are held, and which
outputs to force so that all do.

Example:

  sisyn reset examples/vme-read.net

Statuses: 0, 1 nomemory, 3 readfault, 4 writefault, 5 toolong, 6 badtext.
",
    ),
    (
        "replay",
        b"It writes `done`, how many events were fired, the values of the signals, and the
state of the graph; or where the circuit first leaves the graph.

Example:

  sisyn replay examples/c-element.sg examples/c-element.net <(echo 'a+ b+ c+')

Statuses: 0, 1 nomemory, 3 readfault, 4 writefault, 5 toolong, 6 badtext or
lists, 7 of a graph that isn't proper, 10 differs.
",
    ),
    (
        "wave",
        b"It writes the same replay as a Value Change Dump.

Example:

  sisyn wave examples/c-element.sg examples/c-element.net <(echo 'a+ b+ c+')

Statuses: 0, 1 nomemory, 3 readfault, 4 writefault, 5 toolong, 6 badtext or
lists, 7 of a graph that isn't proper, 10 differs.
",
    ),
    (
        "audit",
        b"It writes `audited` where the netlist, whoever wrote it, is certified to be
right for the graph, and what it has.

Example:

  sisyn audit examples/vme-read.sg examples/vme-read.net

Statuses: 0, 1 nomemory, 3 readfault, 4 writefault, 5 toolong, 6 badtext or
lists, 7 of a graph that isn't proper, 11 rejected.
",
    ),
    (
        "certify",
        b"It writes the netlist with its insertions as its gates tell them, so that it is
audited: signals that the graph doesn't have are hidden ones, `.internal` or
`.inserted`, in the order of their insertion. Lines `.insert` aren't looked at.
With `eqn` the netlist is that of equations, as `eqn` and other tools write
them, and with `verilog` that of modules, as `verilog` writes them: each assign
is multiplied out; start values of hidden signals are found, of up to 8.

Example:

  sisyn certify examples/vme-read.sg examples/vme-book.net

Statuses: 0, 1 nomemory, 3 readfault, 4 writefault, 5 toolong, 6 badtext or
lists, 7 of a graph that isn't proper, 11 rejected.
",
    ),
    (
        "same",
        b"It writes `same` and the sizes of both; or the first walk after which the one
graph does what the other doesn't.

Example:

  sisyn fold examples/vme-read.sg | sisyn same examples/vme-read.sg /dev/stdin

Statuses: 0, 1 nomemory, 3 readfault, 4 writefault, 5 toolong, 6 badtext or
lists, 7 of a graph that isn't proper, 14 unlike.
",
    ),
    (
        "product",
        b"It writes the graph of all the graphs, up to 64, which go together by the events
that they share: an event is one event of all that have it on an arc, and the
others stay. So a controller is written as a few small cycles.

Example:

  sisyn product examples/latch-left.sg examples/latch-right.sg \\
                examples/latch-order.sg

Statuses: 0, 1 nomemory, 3 readfault, 4 writefault, 5 toolong, 6 badtext, 7
nondeterministic, 12 driven, signals, states or arcs.
",
    ),
    (
        "compose",
        b"It writes the graph of all the graphs side by side, up to 64: a signal of one
name is one signal, and an event of it is an event of all that have it. Netlists
that are right for the graphs are right together for this one.

Example:

  sisyn compose examples/stage-first.sg examples/stage-second.sg

Statuses: 0, 1 nomemory, 3 readfault, 4 writefault, 5 toolong, 6 badtext, 7 of a
graph that isn't proper, 12 driven, private, signals, starts, states,
interferes, arcs or constant.
",
    ),
    (
        "join",
        b"It writes the netlist of all gates of netlists, each right for the graph before
it, for the graph that `compose` writes of these graphs.

Example:

  sisyn join examples/stage-first.sg examples/stage-first.net \\
             examples/stage-second.sg examples/stage-second.net

Statuses: 0, 1 nomemory, 3 readfault, 4 writefault, 5 toolong, 6 badtext or
lists, 7 of a graph that isn't proper, 11 rejected, 12 driven, private, signals,
starts, states, interferes, arcs or constant, 13 uncertified, unused or
toolarge.
",
    ),
    (
        "works",
        b"It writes `works` and what was looked at, where netlists, each right for the
graph before it, are right together. The graph of all isn't made: graphs that
share a signal are looked at two by two, and more of them where two interfere.

Example:

  sisyn works examples/stage-first.sg examples/stage-first.net \\
              examples/stage-second.sg examples/stage-second.net

Statuses: 0, 1 nomemory, 3 readfault, 4 writefault, 5 toolong, 6 badtext or
lists, 7 of a graph that isn't proper, 12 driven, private, signals, starts,
states or interferes, 13 uncertified.
",
    ),
    (
        "exercise",
        b"It makes the graph of N handshakes, checks it and makes its netlist, and writes
their sizes.

Example:

  sisyn exercise 5

Statuses: 0, 1 nomemory, 4 writefault.
",
    ),
    (
        "help",
        b"It writes the page of a command: its forms, what it writes, an example, and the
statuses with which it ends.

Example:

  sisyn help synth

Statuses: 0, 1 nomemory, 4 writefault.
",
    ),
    (
        "--version",
        b"It writes one line.

Example:

  sisyn --version

Statuses: 0, 1 nomemory, 4 writefault.
",
    ),
];

/// The notes: each beside the word of which it tells.
pub fn notes() -> &'static [(&'static str, &'static [u8])]
    ensures { map (λ note. (note.0.now, note.1.now)) result.now ≡ about.notes }
{
    NOTES
}
