//! The divisors of a signal.

ghost use Rattle.std.specs.Prelude.{◌≡◌, ◌≤◌, ◌+◌, ◌++◌, ◌↔◌, true, IfOk, OnOk, IsTrue, All};
ghost use Rattle.std.specs.Prelude.{filter, length, take};
ghost use Rattle.si_base.specs.Graph.{IsNonInput};
ghost use Rattle.si_cell.specs.Library as library;
ghost use Rattle.si_cell.specs.Limits.{max_pins};
ghost use Rattle.si_checks.specs.Loops.Lent.{coded_of};
ghost use Rattle.si_divisor.specs.Divisors.{AreDivisors, are_apart, has_few_pins, max_divisors};
ghost use Rattle.si_divisor.specs.Loops.Completions.{completions, of_cells};

use crate::pins::pin_set;
use arrayvec::ArrayVec;
use si_base::ids::{Literal, NoMemory, Sig};
use si_cell::cell::{Instance, PinLiteral};
use si_cell::library::Library;
use si_cell::limits::MAX_PINS;
use si_cell::pins::Pins;
use si_checks::distinct::Distinct;
use std::alloc::Global;

/// The most pins of a divisor's cell.
pub const MAX_DIVISOR_PINS: usize = 3;

/// The most divisors of a signal.
pub const MAX_DIVISORS: usize = 65_536;

/// The divisors of `z`: the instances of cells with one to three pins by pin literals of `z` on
/// distinct signals, as far as the library's pins may have these, ordered by cell in library order,
/// then by their literals in literal order, the first pin first. There are at most 65,536: those
/// behind are left out. It fails only where memory runs out.
///
/// Source: the book, on the decomposition of gates.
pub fn divisors(
    alloc: Global,
    graph: Distinct<'_>,
    library: &Library,
    z: Sig,
) -> Result<Vec<Instance>, NoMemory>
    requires { IsNonInput (coded_of graph).graph.signals z }
    ensures { IfOk result
        (λ divisors. AreDivisors (coded_of graph.entry) library.now z divisors.items) }
{
    let all = pin_set(alloc, graph, z)?;
    let pins = admitted(alloc, library.pins(), all.as_slice())?;
    over_pins(alloc, library, pins.as_slice())
}

/// Those of the literals that such pins may have.
fn admitted(alloc: Global, allowed: Pins, literals: &[Literal]) -> Result<Vec<Literal>, NoMemory>
    ensures { IfOk result
        (λ kept. kept.items ≡ filter (library.admits allowed) literals.now) }
{
    let mut kept = Vec::new(alloc);
    for literal in literals {
        if !allowed.admits(*literal) {
            continue;
        }
        kept.push(*literal)?;
    }
    Ok(kept)
}

/// The divisors by these pin literals.
fn over_pins(alloc: Global, library: &Library, pins: &[Literal]) -> Result<Vec<Instance>, NoMemory>
    ensures { IfOk result
        (λ found. found.items ≡ take max_divisors (of_cells pins.now library.now.cells)) }
{
    let mut found = Vec::new(alloc);
    for k in 0..library.cells().len() {
        let k = k as u8;
        let count = library.cell(k).pins.len();
        if has_few(count) {
            let mut literals = ArrayVec::new();
            add_completions(pins, k, &mut literals, count, &mut found)?;
        }
    }
    Ok(found)
}

/// Whether a divisor's cell may have so many pins.
fn has_few(pins: usize) -> bool
    ensures { result ≡ has_few_pins pins }
{
    1 <= pins && pins <= MAX_DIVISOR_PINS
}

/// Puts last the instances of the cell with these literals at its first pins and `more` of the pin
/// literals behind them, on distinct signals and in order, as far as there may be divisors.
fn add_completions(
    pins: &[Literal],
    cell: u8,
    literals: &mut ArrayVec<PinLiteral, MAX_PINS>,
    more: usize,
    found: &mut Vec<Instance>,
) -> Result<(), NoMemory>
    requires room { length literals.old.items + more ≤ max_pins }
    requires apart { are_apart literals.old.items ≡ true }
    requires few { length found.old.items ≤ max_divisors }
    ensures found { OnOk result (found.new.items
        ≡ take max_divisors (found.old.items
        ++ completions pins.now cell literals.old.items more)) }
    ensures kept { OnOk result (literals.new.items ≡ literals.old.items) }
{
    if found.len() == MAX_DIVISORS {
        return Ok(());
    }
    if more == 0 {
        let literals = copy_of(literals.as_slice());
        found.push(Instance { cell, literals })?;
        return Ok(());
    }
    for pin in pins {
        if is_apart(literals.as_slice(), pin.sig) {
            literals.push(PinLiteral(*pin));
            add_completions(pins, cell, literals, more - 1, found)?;
            literals.pop();
        }
    }
    Ok(())
}

/// Whether none of the literals is of the signal.
fn is_apart(literals: &[PinLiteral], sig: Sig) -> bool
    ensures { IsTrue result ↔ All (λ l. l.sig ≡ sig → ⊥) literals.now }
{
    literals.iter().all(|l| l.0.sig != sig)
}

/// The same literals again.
fn copy_of(literals: &[PinLiteral]) -> ArrayVec<PinLiteral, MAX_PINS>
    requires { length literals.now ≤ max_pins }
    ensures { result.items ≡ literals.now }
{
    let mut copy = ArrayVec::new();
    for literal in literals {
        copy.push(*literal);
    }
    copy
}
