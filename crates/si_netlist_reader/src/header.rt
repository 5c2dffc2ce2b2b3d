//! The first six lines of a netlist text, after that of the version.

ghost use Rattle.std.specs.Prelude.{◌≡◌, ◌≤◌, List, length, IfOk, ◌∷◌, []};
ghost use Rattle.std.specs.List.{list_all};
ghost use Rattle.si_base.specs.Bytes.{digit_zero, digit_one};
ghost use Rattle.si_base.specs.Limits.{max_signals};
ghost use Rattle.si_base.specs.TextFaults.{ToldBy};
ghost use Rattle.si_base.specs.Words.{is_between};
ghost use Rattle.si_words.specs.Lines.{Form, rest_of};
ghost use Rattle.si_words.specs.Loops.Reads.{words_now};
ghost use Rattle.si_words.specs.Loops.RowValues.{TakesValue};
ghost use Rattle.si_words.specs.Rows.{fault_of};
ghost use Rattle.si_netlist_reader.specs.Loops.Headers.{ReadsHeader, model_of, start_of};
ghost use Rattle.si_netlist_reader.specs.NetlistFault as netlist;
ghost use Rattle.si_netlist_reader.specs.NetlistValue.{first_word, code_of_bits};

use si_base::fault::{TextFault, TextKind};
use si_base::ids::Code;
use si_base::names::Names;
use si_base::text::Name;
use si_words::rows::{Rows, is_nothing, names_row};
use std::alloc::Global;

fn is_model_word(word: &[u8]) -> bool
    ensures { result ≡ netlist.is_model_word word.now }
{
    !is_nothing(word) && b"{".as_slice() != word && b"}".as_slice() != word
}

fn is_model_line(words: &[&[u8]]) -> bool
    ensures { result ≡ netlist.is_model_line (words_now words.now) }
{
    match words {
        [head, name] => b".model".as_slice() == *head && is_model_word(*name),
        _ => false,
    }
}

/// The word after the head, or none.
fn second_word<'a>(words: &[&'a [u8]]) -> &'a [u8]
    ensures { result.now ≡ first_word (rest_of (words_now words.now)) }
{
    match words {
        [_, word, ..] => *word,
        _ => b"",
    }
}

fn model_row(alloc: Global, rows: &mut Rows<'_>) -> Result<Name, TextFault>
    ensures ok { IfOk result
        (λ name. TakesValue netlist.model_fault model_of rows.old rows.new name) }
    ensures err { (forms : List Form)
        → ToldBy result (fault_of (netlist.model_fault ∷ forms) rows.old) }
{
    let line = rows.number();
    let words = rows.next_words(alloc)?;
    if !is_model_line(&words) {
        return Err(TextFault::At {
            line,
            kind: TextKind::BadLine,
        });
    }
    Ok(Name::copy_of(alloc, second_word(&words))?)
}

fn are_bits(bytes: &[u8]) -> bool
    ensures { result ≡ list_all (is_between digit_zero digit_one) bytes.now }
{
    bytes.iter().all(|b| b'0' <= *b && *b <= b'1')
}

fn is_start_line(signals: usize, words: &[&[u8]]) -> bool
    ensures { result ≡ netlist.is_start_line signals (words_now words.now) }
{
    match words {
        [head] => b".start".as_slice() == *head && signals == 0,
        [head, bits] => {
            b".start".as_slice() == *head
                && !is_nothing(*bits)
                && bits.len() == signals
                && are_bits(*bits)
        }
        _ => false,
    }
}

/// The code whose bit i is the i-th digit.
fn code_of(bits: &[u8]) -> Code
    requires { length bits.now ≤ max_signals }
    ensures { result ≡ code_of_bits bits.now }
{
    let mut code: u128 = 0;
    for i in 0..bits.len() {
        let bit = u128::from(bits[bits.len() - 1 - i] == b'1');
        code = bit + 2 * code;
    }
    Code(code)
}

fn start_row(alloc: Global, rows: &mut Rows<'_>, signals: usize) -> Result<Code, TextFault>
    requires { signals ≤ max_signals }
    ensures ok { IfOk result
        (λ code. TakesValue (netlist.start_fault signals) start_of rows.old rows.new code) }
    ensures err { (forms : List Form)
        → ToldBy result (fault_of (netlist.start_fault signals ∷ forms) rows.old) }
{
    let line = rows.number();
    let words = rows.next_words(alloc)?;
    if !is_start_line(signals, &words) {
        return Err(TextFault::At {
            line,
            kind: TextKind::BadLine,
        });
    }
    Ok(code_of(second_word(&words)))
}

/// What the first six lines say besides the names: the model's name, the start code, and how many
/// names stand up to the end of each list.
#[derive(Drop)]
pub struct Header {
    pub model: Name,
    pub start: Code,
    pub inputs: u32,
    pub outputs: u32,
    pub internals: u32,
}

/// The first six lines after that of the version: the names, at most `limit`, go into `names`.
///
/// Fails with the first fault of the text, where one of these lines shows it, and where memory
/// runs out.
pub fn read_header(
    alloc: Global,
    rows: &mut Rows<'_>,
    limit: u32,
    names: &mut Names,
) -> Result<Header, TextFault>
    requires none { names.old ≡ [] }
    requires room { limit ≤ max_signals }
    ensures ok { IfOk result (λ header. ReadsHeader limit rows.old rows.new names.new header) }
    ensures err { ToldBy result (fault_of (netlist.due_in limit rows.old.lines) rows.old) }
    ensures few { length names.new ≤ max_signals }
{
    let model = model_row(alloc, rows)?;
    names_row(alloc, rows, b".inputs", limit, names)?;
    let inputs = names.len();
    names_row(alloc, rows, b".outputs", limit, names)?;
    let outputs = names.len();
    names_row(alloc, rows, b".internal", limit, names)?;
    let internals = names.len();
    names_row(alloc, rows, b".inserted", limit, names)?;
    let inserted = names.len();
    let start = start_row(alloc, rows, inserted as usize)?;
    Ok(Header {
        model,
        start,
        inputs,
        outputs,
        internals,
    })
}
