//! The top call on worked examples.

ghost use Rattle.std.specs.Prelude.{◌≡◌, IfOk};
ghost use Rattle.si_io.specs.Memory.{AreDistinct};

use si_base::ids::NoMemory;
use si_base::text::{Name, Text};
use si_io::memory::{MemFile, SureShelf, SureSink};
use si_refusals::status::Status;
use si_tool::sure::run_in_memory;
use std::alloc::{AllocError, Global};
use std::process::Abort;
use std::test::Fail;

pub(crate) const C_ELEMENT: &[u8] = b".model c2
.inputs a b
.outputs c
.state graph
s0 a+ s1
s0 b+ s2
s1 b+ s3
s2 a+ s3
s3 c+ s4
s4 a- s5
s4 b- s6
s5 b- s7
s6 a- s7
s7 c- s0
.marking {s0}
.end
";

/// An output that never switches, beside an input that does.
const IDLE_OUTPUT: &[u8] = b".model idle
.inputs a
.outputs z
.state graph
s0 a+ s1
s1 a- s0
.marking {s0}
.end
";

/// The output rises once either input has risen, and nothing falls.
const EITHER_RISES: &[u8] = b".model either
.inputs a b
.outputs z
.state graph
s0 a+ s1
s0 b+ s2
s1 b+ s3
s2 a+ s3
s1 z+ s4
s2 z+ s5
s3 z+ s6
s4 b+ s6
s5 a+ s6
.marking {s0}
.end
";

/// A graph without a signal that the circuit drives.
const INPUTS_ALONE: &[u8] = b".model watched
.inputs a b
.state graph
s0 a+ s1
s1 b+ s2
s2 b- s1
.marking {s0}
.end
";

/// The read cycle of a VME bus controller.
const VME: &[u8] = b".model vme
.inputs DSr LDTACK
.outputs D DTACK LDS
.state graph
s0 DSr+ s1
s1 LDS+ s2
s2 LDTACK+ s3
s3 D+ s4
s4 DTACK+ s5
s5 DSr- s6
s6 D- s7
s7 DTACK- s8
s7 LDS- s9
s8 DSr+ s10
s8 LDS- s11
s9 DTACK- s11
s9 LDTACK- s12
s11 DSr+ s13
s11 LDTACK- s0
s12 DTACK- s0
s10 LDS- s13
s13 LDTACK- s1
.marking {s0}
.end
";

/// The texts of a command's files.
#[derive(Clone, Copy)]
pub(crate) struct Texts<'t> {
    pub(crate) graph: &'t [u8],
    pub(crate) netlist: &'t [u8],
    pub(crate) schedule: &'t [u8],
}

pub(crate) fn only(graph: &[u8]) -> Texts<'_> {
    Texts {
        graph,
        netlist: b"",
        schedule: b"",
    }
}

pub(crate) fn words(alloc: Global, words: &[&str]) -> Result<Vec<String>, AllocError> {
    let mut list = Vec::new(alloc);
    for word in words {
        list.push(String::from_str(alloc, word)?)?;
    }
    Ok(list)
}

fn file(alloc: Global, name: &[u8], text: &[u8]) -> Result<MemFile, NoMemory>
    ensures { IfOk result (λ file. file.name ≡ name.now) }
{
    let name = Name::copy_of(alloc, name)?;
    let content = Text::copy_of(alloc, text)?;
    Ok(MemFile { name, content })
}

pub(crate) fn files(alloc: Global, texts: Texts<'_>) -> Result<Vec<MemFile>, NoMemory>
    ensures { IfOk result (λ files. AreDistinct files.items) }
{
    let graph = file(alloc, b"graph.sg", texts.graph)?;
    let netlist = file(alloc, b"c.net", texts.netlist)?;
    let schedule = file(alloc, b"steps", texts.schedule)?;
    Ok(vec![in alloc; graph, netlist, schedule]?)
}

const CHECK: [&str; 2] = ["check", "graph.sg"];

pub(crate) const SYNTH: [&str; 3] = ["synth", "graph.sg", "complex"];

pub(crate) const MAP: [&str; 3] = ["map", "graph.sg", "c.net"];

/// Runs over files that are told, and compares the status and all that was put.
fn expect(
    rt: &impl Abort,
    alloc: Global,
    command: &[&str],
    texts: Texts<'_>,
    want: (Status, &[u8], &[u8]),
) -> Result<(), Fail> {
    let mut shelf = SureShelf::new(files(alloc, texts)?);
    let mut out = SureSink::new(alloc);
    let mut err = SureSink::new(alloc);
    let words = words(alloc, command)?;
    let status = run_in_memory(alloc, &words, &mut shelf, &mut out, &mut err);
    assert_eq!(rt; status, want.0);
    assert_eq!(rt; out.bytes(), want.1);
    assert_eq!(rt; err.bytes(), want.2);
    Ok(())
}

/// Runs, and expects this output.
fn expect_output(
    rt: &impl Abort,
    alloc: Global,
    command: &[&str],
    texts: Texts<'_>,
    output: &[u8],
) -> Result<(), Fail> {
    expect(rt, alloc, command, texts, (Status::Done, output, b""))
}

/// Runs, and expects a netlist with these lines before and after the line of the gates.
fn expect_netlist(
    rt: &impl Abort,
    alloc: Global,
    command: &[&str],
    texts: Texts<'_>,
    head: &[u8],
    gates: &[u8],
) -> Result<(), Fail> {
    let mut written = Text::copy_of(alloc, b".version 2\n")?;
    written.add(head)?;
    written.add(b".gates\n")?;
    written.add(gates)?;
    written.add(b".end\n")?;
    expect_output(rt, alloc, command, texts, written.bytes())
}

/// Synthesises in the style, and expects a netlist with nothing inserted and this gate.
fn expect_gate(
    rt: &impl Abort,
    alloc: Global,
    style: &str,
    graph: &[u8],
    head: &[u8],
    gate: &[u8],
) -> Result<(), Fail> {
    let command = ["synth", "graph.sg", style];
    expect_netlist(rt, alloc, &command, only(graph), head, gate)
}

/// The lines before the gate of the C-element.
const C_ELEMENT_HEAD: &[u8] = b".model c2
.inputs a b
.outputs c
.internal
.inserted
.start 000
";

const IDLE_HEAD: &[u8] = b".model idle
.inputs a
.outputs z
.internal
.inserted
.start 00
";

const EITHER_HEAD: &[u8] = b".model either
.inputs a b
.outputs z
.internal
.inserted
.start 000
";

#[test]
fn sums(rt: HostRuntime) -> Result<(), Fail> {
    let alloc = rt.alloc();
    let gate = b"c sum a b + b c + a c\n";
    expect_gate(&rt, alloc, "complex", C_ELEMENT, C_ELEMENT_HEAD, gate)?;
    expect_gate(&rt, alloc, "complex", IDLE_OUTPUT, IDLE_HEAD, b"z sum 0\n")?;
    let gate = b"z sum a + b\n";
    expect_gate(&rt, alloc, "complex", EITHER_RISES, EITHER_HEAD, gate)
}

#[test]
fn elements(rt: HostRuntime) -> Result<(), Fail> {
    let alloc = rt.alloc();
    let gate = b"c gc a b | a' b'\n";
    expect_gate(&rt, alloc, "gc", C_ELEMENT, C_ELEMENT_HEAD, gate)?;
    expect_gate(&rt, alloc, "gc", IDLE_OUTPUT, IDLE_HEAD, b"z gc 0 | 0\n")?;
    let gate = b"z gc a + b | 0\n";
    expect_gate(&rt, alloc, "gc", EITHER_RISES, EITHER_HEAD, gate)
}

/// The output `b` rises twice before `c` does.
const RISES_TWICE: &[u8] = b".model two
.inputs a
.outputs b c
.state graph
s0 a+ s1
s1 b+ s2
s2 a- s3
s3 b- s4
s4 a+ s5
s5 b+ s6
s6 c+ s7
s7 c- s8
s8 a- s9
s9 b- s0
.marking {s0}
.end
";

/// The lines before its gates. Where `csc1` switches, the value of `csc0` stands behind the `@`.
const RISES_TWICE_HEAD: &[u8] = b".model two
.inputs a
.outputs b c
.internal
.inserted csc0 csc1
.start 00000
.insert csc0 up s1 down s7
.insert csc1 up s3@1 down s9@0
";

const RISES_TWICE_SUMS: &[u8] = b"b sum csc0 csc1' + a csc1 + csc0' csc1
c sum a b csc0 csc1
csc0 sum a csc1' + c' csc0
csc1 sum a' csc0 + a csc1
";

/// The lines before the gates of the VME bus controller where `csc0` is inserted.
const VME_HEAD: &[u8] = b".model vme
.inputs DSr LDTACK
.outputs D DTACK LDS
.internal
.inserted csc0
.start 000001
.insert csc0 up s6 down s1
";

const VME_ELEMENTS: &[u8] = b"D gc LDTACK csc0' | csc0
DTACK gc D | D'
LDS gc csc0' | D' csc0
csc0 gc DSr' | DSr LDTACK'
";

#[test]
fn conflicts_are_resolved(rt: HostRuntime) -> Result<(), Fail> {
    let alloc = rt.alloc();
    let twice = only(RISES_TWICE);
    expect_netlist(
        &rt,
        alloc,
        &SYNTH,
        twice,
        RISES_TWICE_HEAD,
        RISES_TWICE_SUMS,
    )?;
    let command = ["synth", "graph.sg", "gc"];
    expect_netlist(&rt, alloc, &command, only(VME), VME_HEAD, VME_ELEMENTS)
}

/// A buffer, two gates and the two-input C-element.
pub(crate) const FOUR_CELLS: &[u8] = b".library four
.cell BUF a = a
.cell AND2 a b = a b
.cell OR2 a b = a + b
.cell C2 a b = a b + a q + b q
.end
";

const VME_CELLS: &[u8] = b"D cell AND2 LDTACK csc0' : LDTACK csc0'
DTACK cell BUF D : D
LDS cell OR2 D csc0' : D + csc0'
csc0 cell C2 DSr' LDTACK : DSr' LDTACK + DSr' csc0 + LDTACK csc0
";

/// The texts of a graph and of a library, the second in the file of the netlist.
pub(crate) fn with_cells<'t>(graph: &'t [u8], library: &'t [u8]) -> Texts<'t> {
    Texts {
        graph,
        netlist: library,
        schedule: b"",
    }
}

#[test]
fn cells_of_a_library(rt: HostRuntime) -> Result<(), Fail> {
    let alloc = rt.alloc();
    let gate = b"c cell C2 a b : a b + a c + b c\n";
    let texts = with_cells(C_ELEMENT, FOUR_CELLS);
    expect_netlist(&rt, alloc, &MAP, texts, C_ELEMENT_HEAD, gate)?;
    let texts = with_cells(VME, FOUR_CELLS);
    expect_netlist(&rt, alloc, &MAP, texts, VME_HEAD, VME_CELLS)
}

#[test]
fn summaries(rt: HostRuntime) -> Result<(), Fail> {
    let alloc = rt.alloc();
    let summary = b"proper\nsignals 2\nstates 3\narcs 3\nstart 00\n";
    expect_output(&rt, alloc, &CHECK, only(INPUTS_ALONE), summary)?;
    let state = b".state graph\ns0\n.marking { s0 }\n.end";
    let summary = b"proper\nsignals 0\nstates 1\narcs 0\nstart\n";
    expect_output(&rt, alloc, &CHECK, only(state), summary)?;
    let sizes = b"exercise 1\nstates 4\narcs 4\ngates 1\nliterals 1\n";
    expect_output(&rt, alloc, &["exercise", "1"], only(b""), sizes)
}

#[test]
fn help_fits_a_page(rt: HostRuntime) -> Result<(), Fail> {
    let alloc = rt.alloc();
    let mut shelf = SureShelf::new(files(alloc, only(b""))?);
    let mut out = SureSink::new(alloc);
    let mut err = SureSink::new(alloc);
    let help = words(alloc, &["--help"])?;
    let status = run_in_memory(alloc, &help, &mut shelf, &mut out, &mut err);
    assert_eq!(rt; status, Status::Done);
    let mut lines = out.bytes().split(|b| *b == b'\n');
    assert!(rt; lines.all(|line| line.len() <= 80));
    assert!(rt; out.bytes().split(|b| *b == b'\n').count() <= 66);
    Ok(())
}
