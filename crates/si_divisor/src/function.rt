//! The functions that instances compute.

ghost use Rattle.std.specs.Prelude.{◌≡◌, ℕ, ◌+◌, ◌<◌, ◌≤◌, ◌^◌, ◌↔◌, ◌&&◌, All, Bool, Contains};
ghost use Rattle.std.specs.Prelude.{IsPermutation, false, length, map, true};
ghost use Rattle.std.specs.List.Sorted.{IsNonDecreasing};
ghost use Rattle.si_base.specs.Bits.{bit};
ghost use Rattle.si_base.specs.Limits.{code_width};
ghost use Rattle.si_cell.specs.Library.{IsInstance, instance_value};
ghost use Rattle.si_cell.specs.Limits.{max_pins};
ghost use Rattle.si_divisor.specs.Functions.{IsFunction, IsTable, values_at};
ghost use Rattle.si_divisor.specs.Loops.Columns.{HasCode, TellsStates};

use arrayvec::ArrayVec;
use si_base::ids::{Code, Sig};
use si_cell::cell::{Instance, PinLiteral};
use si_cell::library::Library;
use si_cell::limits::MAX_PINS;

/// The function that an instance computes. Instances of different cells may compute the same one,
/// and so may instances of a cell whose pins have changed places.
#[derive(PartialEq, Eq, PartialOrd, Ord, Drop)]
pub struct Function {
    /// The signals at the pins, by their places, in signal order.
    pub signals: ArrayVec<u8, MAX_PINS>,
    /// The truth table: bit i is the value where these signals, and the own output behind them,
    /// have the values of the bits of i, the first signal that of the lowest.
    pub table: u32,
}

impl Function {
    /// The states that it forces to 1, and those that it forces to 0, of 128 at once, by the values
    /// of each signal at them.
    pub(crate) fn forced_states(&self, columns: &[u128]) -> (u128, u128)
        requires within { All (λ s. s < code_width) self.now.signals.items }
        requires columns { length columns.now ≡ code_width }
        ensures up { TellsStates self.now true columns.now result.0 }
        ensures down { TellsStates self.now false columns.now result.1 }
    {
        let signals = self.signals.as_slice();
        let rows = code_count(signals.len()) / 2;
        // Where its value is 1 with the own output at 0, and where it is with that at 1.
        let (mut low, mut high) = (0, 0);
        for values in 0..rows {
            let there = those_with(signals, columns, values);
            low |= if_true(has_bit(self.table, values as usize), there);
            high |= if_true(has_bit(self.table, (rows + values) as usize), there);
        }
        (low, !high)
    }
}

/// The states at which the signals have these values.
fn those_with(signals: &[u8], columns: &[u128], values: u32) -> u128
    requires few { length signals.now ≤ max_pins }
    requires within { All (λ s. s < code_width) signals.now }
    requires columns { length columns.now ≡ code_width }
    requires values { values < 2 ^ length signals.now }
    ensures { (i code : ℕ) → i < 128 → HasCode columns.now i code
        → (bit result i ≡ true) ↔ (values_at signals.now code false ≡ values) }
{
    let mut there = u128::MAX;
    for k in 0..signals.len() {
        let column = columns[signals[k] as usize];
        there &= where_it_has(column, has_bit(values, k));
    }
    there
}

/// The states at which a signal has the value, by its values at all of them.
fn where_it_has(column: u128, value: bool) -> u128
    ensures { (i : ℕ) → i < 128 → (bit result i ≡ true) ↔ (bit column i ≡ value) }
{
    if value { column } else { !column }
}

/// The states if the condition holds, and else none.
fn if_true(condition: bool, states: u128) -> u128
    ensures { (i : ℕ) → bit result i ≡ (condition && bit states i) }
{
    if condition { states } else { 0 }
}

/// The function that the instance computes.
pub fn function_of(library: &Library, instance: &Instance) -> Function
    requires { IsInstance library.now instance.now }
    ensures { IsFunction library.now instance.now result }
{
    let signals = signals_of(instance.literals.as_slice());
    let table = table_of(library, instance, signals.as_slice());
    Function { signals, table }
}

/// The signals of the literals, in signal order.
fn signals_of(literals: &[PinLiteral]) -> ArrayVec<u8, MAX_PINS>
    requires { length literals.now ≤ max_pins }
    ensures same { IsPermutation (map (λ l. l.sig) literals.now) result.items }
    ensures in_order { IsNonDecreasing result.items }
{
    let mut signals = unsorted_signals(literals);
    signals.sort_unstable();
    signals
}

/// The signals of the literals, in their order.
fn unsorted_signals(literals: &[PinLiteral]) -> ArrayVec<u8, MAX_PINS>
    requires { length literals.now ≤ max_pins }
    ensures { result.items ≡ map (λ l. l.sig) literals.now }
{
    let mut signals = ArrayVec::new();
    for literal in literals {
        signals.push(literal.0.sig.0);
    }
    signals
}

/// The truth table of the instance over these signals, which are all that it reads.
fn table_of(library: &Library, instance: &Instance, signals: &[u8]) -> u32
    requires instance { IsInstance library.now instance.now }
    requires few { length signals.now ≤ max_pins }
    requires all { All (λ l. Contains signals.now l.sig) instance.now.literals }
    requires within { All (λ s. s < code_width) signals.now }
    ensures { IsTable library.now instance.now signals.now result }
{
    let codes = code_count(signals.len());
    let mut table: u32 = 0;
    for k in 0..codes {
        let value = value_where(library, instance, signals, codes - 1 - k);
        table = u32::from(value) + 2 * table;
    }
    table
}

/// How many values so many signals and an own output have.
fn code_count(signals: usize) -> u32
    requires { signals ≤ max_pins }
    ensures is { result ≡ 2 ^ (signals + 1) }
    ensures few { result ≤ 32 }
{
    2 << signals
}

/// The value of the instance where the signals, and the own output behind them, have these values.
fn value_where(library: &Library, instance: &Instance, signals: &[u8], values: u32) -> bool
    requires instance { IsInstance library.now instance.now }
    requires few { length signals.now ≤ max_pins }
    requires all { All (λ l. Contains signals.now l.sig) instance.now.literals }
    requires within { All (λ s. s < code_width) signals.now }
    ensures { (code : ℕ) (q : Bool) → values_at signals.now code q ≡ values
        → result ≡ instance_value library.now instance.now code q }
{
    let code = code_where(signals, values);
    let q = has_bit(values, signals.len());
    library.value(instance, code, q)
}

/// A code in which the signals have these values.
fn code_where(signals: &[u8], values: u32) -> Code
    requires few { length signals.now ≤ max_pins }
    requires within { All (λ s. s < code_width) signals.now }
    ensures { (code : ℕ) (q : Bool) → values_at signals.now code q ≡ values
        → All (λ s. bit result s ≡ bit code s) signals.now }
{
    let mut code = Code(0);
    for i in 0..signals.len() {
        code = code.set(Sig(signals[i]), has_bit(values, i));
    }
    code
}

/// Whether that bit of the number is 1.
fn has_bit(number: u32, i: usize) -> bool
    requires { i < 32 }
    ensures { result ≡ bit number i }
{
    number >> i & 1 == 1
}
