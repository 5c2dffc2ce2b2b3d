//! What the program tells of itself.

ghost use Rattle.std.specs.List.{flat_map};
ghost use Rattle.std.specs.Prelude.{◌≡◌, ◌++◌, IfOk, OnOk, drop, length};
ghost use Rattle.si_commands.specs.About.{about_text, begins, help_text, line_of, page_text};
ghost use Rattle.si_commands.specs.About.{row_line};
ghost use Rattle.si_commands.specs.About.{begins_at, note_of, shown_form, shown_option, shown_tail};
ghost use Rattle.si_commands.specs.Command.{form_of};
ghost use Rattle.si_commands.specs.Form.{choice_count};
ghost use Rattle.si_commands.specs.declared.task.Task.TheVariants.{About};
ghost use Rattle.si_words.specs.Loops.Reads.{words_now};
ghost use Rattle.si_commands.specs.Loops.Reads.{form_now, row_now, slots_now, tail_now};

use crate::form::{Slot, Tail};
use crate::notes::notes;
use crate::table::{Row, rows};
use crate::task::Topic;
use si_base::ids::NoMemory;
use si_base::text::Text;
use si_words::writing::add_word;
use std::alloc::Global;

/// What stands before the lines of the commands.
const HELP_HEAD: &[u8] = b"sisyn makes circuits without a clock from state graphs.
";

/// What stands behind them: what the files are, a first example, and where the documents are.
const HELP_TAIL: &[u8] = b"

F and G are state graphs, in the text that petrify calls .sg: lists of signals,
then arcs such as 's0 a+ s1'. Petri nets (.g) are not read: unfold them first.
LIB is a library of cells ('.cell AND2 a b = a b'), FILE one of genlib, NETLIST,
N and M are netlists as synth and map write them, and SCHEDULE is events, such
as 'a+ b+ c+'. Each is the name of a file; /dev/stdin and <(..) serve too.

A run that succeeds writes to standard output. A refused run writes one line to
standard error, and ends with a status from 1 to 15. An example of each command
stands on its page, as in 'sisyn help synth'; a first one, beside the sources:

  sisyn synth examples/vme-read.sg complex > vme-read.net

The documents stand beside the sources: README.md has a walk through the
commands, docs/GUIDE.md what to do where a run is refused, docs/FORMATS.md each
text, line and status, docs/THEOREM.md what is proved.
";

/// The program and its version, and the toolchain with which it was proved.
const VERSION: &[u8] = b"sisyn 0.1, proved by Rattle kit 13f\n";

/// Blanks behind a form, so that what is said of each begins in one column.
const BLANKS: &[u8] = b"                                 ";

/// The text on a topic, for the words that are chosen. It fails only where memory runs out.
pub fn about(alloc: Global, topic: Topic, choices: &[&str]) -> Result<Text, NoMemory>
    requires { length choices.now ≡ choice_count (form_of (About topic)).places }
    ensures { IfOk result (λ text. text ≡ about_text topic (words_now choices.now)) }
{
    match topic {
        Topic::Help => help(alloc),
        Topic::Page(_) => page(alloc, choices[0]),
        Topic::Version => Text::copy_of(alloc, VERSION),
    }
}

/// The help: a line for each row of the table, between what stands before them and behind.
fn help(alloc: Global) -> Result<Text, NoMemory>
    ensures { IfOk result (λ text. text ≡ help_text) }
{
    let mut text = Text::copy_of(alloc, HELP_HEAD)?;
    for row in rows() {
        add_row(&mut text, row)?;
    }
    text.add(HELP_TAIL)?;
    Ok(text)
}

/// The page of a command: its word, a line for each of its forms, and what the notes say of it.
fn page(alloc: Global, word: &str) -> Result<Text, NoMemory>
    ensures { IfOk result (λ text. text ≡ page_text word.now) }
{
    let mut text = Text::copy_of(alloc, word.as_bytes())?;
    text.add(b"\n")?;
    for row in rows() {
        add_row_of(&mut text, word, row)?;
    }
    text.add(b"\n\n")?;
    for (own, note) in notes() {
        add_note_of(&mut text, word, own, note)?;
    }
    Ok(text)
}

/// Adds the note, where it is of the word.
fn add_note_of(text: &mut Text, word: &str, own: &str, note: &[u8]) -> Result<(), NoMemory>
    ensures { OnOk result (text.new ≡ text.old ++ note_of word.now (own.now, note.now)) }
{
    if own == word {
        text.add(note)?;
    }
    Ok(())
}

/// Adds the line of a row, where its form begins with the word.
fn add_row_of(text: &mut Text, word: &str, row: &Row) -> Result<(), NoMemory>
    ensures { OnOk result (text.new ≡ text.old ++ line_of word.now (row_now row.now)) }
{
    if begins_with(row.places, word) {
        add_row(text, row)?;
    }
    Ok(())
}

/// Whether the places begin with the word.
fn begins_with(places: &[Slot<'_>], word: &str) -> bool
    ensures { result ≡ begins_at word.now (slots_now places.now) }
{
    match places.first() {
        Some(Slot::Word(own)) => *own == word,
        _ => false,
    }
}

/// Adds the line of a row behind a line end: its form, and what is said of it.
fn add_row(text: &mut Text, row: &Row) -> Result<(), NoMemory>
    ensures { OnOk result (text.new ≡ text.old ++ row_line (row_now row.now)) }
{
    text.add(b"\n  ")?;
    let before = text.bytes().len();
    add_form(text, row.places, row.tail)?;
    let width = text.bytes().len() - before;
    text.add(b"  ")?;
    text.add(blanks(width))?;
    text.add(row.says.as_bytes())?;
    Ok(())
}

/// The blanks behind a form of this width.
fn blanks(width: usize) -> &'static [u8]
    ensures { result.now ≡ drop width BLANKS.now }
{
    if width < BLANKS.len() {
        &BLANKS[width..]
    } else {
        &[]
    }
}

/// Adds the program's name and the words of a form, as the help shows them.
fn add_form(text: &mut Text, places: &[Slot<'_>], tail: Tail<'_>) -> Result<(), NoMemory>
    ensures { OnOk result (text.new ≡ text.old ++ shown_form (form_now places.now tail.entry)) }
{
    text.add(b"sisyn")?;
    for slot in places {
        add_word(text, slot.shown().as_bytes())?;
    }
    add_tail(text, tail)
}

/// Adds what may stand behind the places.
fn add_tail(text: &mut Text, tail: Tail<'_>) -> Result<(), NoMemory>
    ensures { OnOk result (text.new ≡ text.old ++ shown_tail (tail_now tail.entry)) }
{
    match tail {
        Tail::Nothing => Ok(()),
        Tail::MoreFiles(_) | Tail::MorePairs(_) => text.add(b" .."),
        Tail::Options(options) => add_options(text, options),
    }
}

/// Adds the options, each in brackets.
fn add_options(text: &mut Text, options: &[&str]) -> Result<(), NoMemory>
    ensures { OnOk result (text.new
        ≡ text.old ++ flat_map (λ option. shown_option option) (words_now options.now)) }
{
    for option in options {
        text.add(b" [")?;
        text.add(option.as_bytes())?;
        text.add(b"]")?;
    }
    Ok(())
}
