//! Pin literals and divisors of the three-input C-element, and of a buffer that rises once.

ghost use Rattle.si_base.specs.Graph.{IsNonInput};
ghost use Rattle.si_checks.specs.Loops.Lent.{coded_of};

use crate::graphs::{BUFFERED_ONCE, C_ELEMENT, is_driven, proper};
use si_base::graph::Signal;
use si_base::ids::{Literal, NoMemory, Sig};
use si_base::text::Text;
use si_cell::cell::Instance;
use si_cell::reader::read_library;
use si_checks::distinct::Distinct;
use si_divisor::divisors::divisors;
use si_divisor::pins::pin_set;
use std::alloc::Global;
use std::process::Abort;
use std::test::Fail;

/// Cells of four, one, two and three pins. But for the first, that of so many pins stands at that
/// place.
const CELLS: &[u8] = b".library cells\n\
    .cell AND4 a b c d = a b c d\n\
    .cell BUF a = a\n\
    .cell AND2 a b = a b\n\
    .cell AND3 a b c = a b c\n\
    .end\n";

/// Writes a literal, and a blank.
fn spell(text: &mut Text, signals: &[Signal], literal: &Literal) -> Result<(), NoMemory> {
    if let Some(signal) = signals.get(literal.sig.0 as usize) {
        text.add(signal.name.bytes())?;
    }
    text.add(if literal.plain { b" " } else { b"' " })
}

/// The literals, in order.
fn spelled(alloc: Global, signals: &[Signal], literals: &[Literal]) -> Result<Text, NoMemory> {
    let mut text = Text::copy_of(alloc, b"")?;
    for literal in literals {
        spell(&mut text, signals, literal)?;
    }
    Ok(text)
}

/// The literals at the pins of the instance.
fn spelled_pins(alloc: Global, signals: &[Signal], instance: &Instance) -> Result<Text, NoMemory> {
    let mut text = Text::copy_of(alloc, b"")?;
    for literal in instance.literals.as_slice() {
        spell(&mut text, signals, &literal.0)?;
    }
    Ok(text)
}

/// The pin literals of the signal, in order.
fn spelled_pin_set(alloc: Global, graph: Distinct<'_>, z: Sig) -> Result<Text, NoMemory>
    requires { IsNonInput (coded_of graph).graph.signals z }
{
    let found = pin_set(alloc, graph, z)?;
    spelled(
        alloc,
        graph.proper().coded().graph().signals(),
        found.as_slice(),
    )
}

/// Says that the last of the instances has these literals, and the cell at the place of so many
/// pins.
fn expect_last(
    rt: &impl Abort,
    alloc: Global,
    signals: &[Signal],
    found: &[Instance],
    last: &[u8],
) -> Result<(), Fail> {
    let Some(instance) = found.last() else {
        return Err("no divisor")?;
    };
    assert!(rt; instance.cell as usize == instance.literals.len());
    assert_eq!(rt; spelled_pins(alloc, signals, instance)?.bytes(), last);
    Ok(())
}

/// Says that the signal has so many divisors, of which the last has these literals.
fn expect_divisors(
    rt: &impl Abort,
    alloc: Global,
    graph: Distinct<'_>,
    z: Sig,
    count: usize,
    last: &[u8],
) -> Result<(), Fail>
    requires { IsNonInput (coded_of graph).graph.signals z }
{
    let cells = read_library(alloc, CELLS)?;
    let found = divisors(alloc, graph, &cells, z)?;
    assert!(rt; found.len() == count);
    let signals = graph.proper().coded().graph().signals();
    expect_last(rt, alloc, signals, found.as_slice(), last)
}

/// Says that the signal of the graph has these pin literals, and so many divisors, of which the
/// last has these literals.
fn expect_pins(
    rt: &impl Abort,
    alloc: Global,
    graph: &[u8],
    z: Sig,
    pins: &[u8],
    count: usize,
    last: &[u8],
) -> Result<(), Fail> {
    let graph = proper(alloc, graph)?;
    let Ok(distinct) = Distinct::make(alloc, &graph) else {
        return Err("a conflict")?;
    };
    assert!(rt; is_driven(distinct, z));
    assert_eq!(rt; spelled_pin_set(alloc, distinct, z)?.bytes(), pins);
    expect_divisors(rt, alloc, distinct, z, count, last)
}

#[test]
fn both_literals_of_all_signals_are_pins_of_the_c_element(rt: HostRuntime) -> Result<(), Fail> {
    let pins = b"a a' b b' c c' z z' ";
    expect_pins(&rt, rt.alloc(), C_ELEMENT, Sig(3), pins, 248, b"z' c' b' ")
}

#[test]
fn a_literal_of_a_cube_is_a_pin_without_its_complement(rt: HostRuntime) -> Result<(), Fail> {
    let pins = b"a a' z' ";
    expect_pins(&rt, rt.alloc(), BUFFERED_ONCE, Sig(1), pins, 7, b"z' a' ")
}
