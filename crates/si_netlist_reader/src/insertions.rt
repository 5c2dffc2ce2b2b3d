//! Insert lines.

ghost use Rattle.std.specs.Prelude.{◌≡◌, ◌≤◌, ◌&&◌, List, length, codes, bytes_eq, IfOk};
ghost use Rattle.std.specs.Prelude.{MatchOption, map, drop, true, false, ◌++◌, ◌∷◌};
ghost use Rattle.si_base.specs.TextFaults.{ToldBy};
ghost use Rattle.si_words.specs.Lines.{Form};
ghost use Rattle.si_words.specs.Names.{stands_in};
ghost use Rattle.si_words.specs.Loops.Reads.{words_now};
ghost use Rattle.si_words.specs.Loops.RowValues.{TakesValue, TakesAll};
ghost use Rattle.si_words.specs.Rows.{fault_of};
ghost use Rattle.si_words.specs.Sums as sums;
ghost use Rattle.si_netlist_reader.specs.NetlistFault as netlist;
ghost use Rattle.si_netlist_reader.specs.NetlistValue.{insertion_of};
ghost use Rattle.si_netlist_reader.specs.Loops.Reading.{Inserts};

use si_base::fault::{TextFault, TextKind};
use si_base::ids::NoMemory;
use si_base::names::Names;
use si_base::text::Name;
use si_netlist::gate::Insert;
use si_netlist::name_list::NameList;
use si_words::gate_lines::cut_at;
use si_words::rows::{Rows, has_empty};
use std::alloc::Global;

fn are_none(words: &[&[u8]]) -> bool
    ensures { result ≡ sums.is_empty (words_now words.now) }
{
    match words {
        [] => true,
        _ => false,
    }
}

fn has_word(words: &[&[u8]], word: &[u8]) -> bool
    ensures { result ≡ stands_in (words_now words.now) word.now }
{
    words.iter().any(|w| word == *w)
}

/// Whether an insert line for the name begins with these words.
fn begins_insert(name: &[u8], head: &[u8], word: &[u8], up: &[u8]) -> bool
    ensures { result ≡ (bytes_eq (codes ".insert") head.now && bytes_eq name.now word.now
        && bytes_eq (codes "up") up.now) }
{
    b".insert".as_slice() == head && name == word && b"up".as_slice() == up
}

/// The rising and the falling states of an insert line for the name, if the words are one.
fn both_lists<'s, 'a>(
    name: &[u8],
    words: &'s [&'a [u8]],
) -> Option<(&'s [&'a [u8]], &'s [&'a [u8]])>
    ensures { MatchOption result (netlist.is_insert_line name.now (words_now words.now) ≡ false)
        (λ lists. Inserts name.now (words_now words.now) (words_now lists.0.now)
        (words_now lists.1.now)) }
{
    let [head, word, up, ..] = words else {
        return None;
    };
    let (_, states) = words.split_at(3);
    if !begins_insert(name, *head, *word, *up) || has_empty(states) {
        return None;
    }
    let (rising, falling) = cut_at(b"down", states)?;
    if are_none(rising) || are_none(falling) || has_word(falling, b"down") {
        return None;
    }
    Some((rising, falling))
}

fn names_of(alloc: Global, words: &[&[u8]]) -> Result<NameList, NoMemory>
    ensures { IfOk result (λ names. names ≡ words_now words.now) }
{
    let mut names = NameList::new(alloc);
    for word in words {
        names.push(*word)?;
    }
    Ok(names)
}

fn insert_with(alloc: Global, name: &[u8], up: &[&[u8]], down: &[&[u8]]) -> Result<Insert, NoMemory>
    ensures { IfOk result (λ insert. insert
        ≡ record { name = name.now; up = words_now up.now; down = words_now down.now }) }
{
    Ok(Insert {
        name: Name::copy_of(alloc, name)?,
        up: names_of(alloc, up)?,
        down: names_of(alloc, down)?,
    })
}

fn insert_row(alloc: Global, rows: &mut Rows<'_>, name: &[u8]) -> Result<Insert, TextFault>
    ensures ok { IfOk result (λ insert. TakesValue (netlist.insert_fault name.now) insertion_of
        rows.old rows.new insert) }
    ensures err { (forms : List Form)
        → ToldBy result (fault_of (netlist.insert_fault name.now ∷ forms) rows.old) }
{
    let line = rows.number();
    let words = rows.next_words(alloc)?;
    let Some((up, down)) = both_lists(name, &words) else {
        return Err(TextFault::At {
            line,
            kind: TextKind::BadLine,
        });
    };
    Ok(insert_with(alloc, name, up, down)?)
}

/// The insertions of the lines that are due: one for each name from place `from` on.
///
/// Fails with the first fault of these lines, and where memory runs out.
pub fn insert_rows(
    alloc: Global,
    rows: &mut Rows<'_>,
    names: &Names,
    from: u32,
) -> Result<Vec<Insert>, TextFault>
    requires { from ≤ length names.now }
    ensures ok { IfOk result (λ inserts. TakesAll (map netlist.insert_fault (drop from names.now))
        insertion_of rows.old rows.new inserts.items) }
    ensures err { (rest : List Form) → ToldBy result
        (fault_of (map netlist.insert_fault (drop from names.now) ++ rest) rows.old) }
{
    let mut inserts = Vec::new(alloc);
    for k in from..names.len() {
        let insert = insert_row(alloc, rows, names.get(k))?;
        inserts.push(insert)?;
    }
    Ok(inserts)
}
