//! The form of a command, and the words that have it.

ghost use Rattle.std.specs.Prelude.{◌≡◌, ◌≢◌, ◌≤◌, ◌⊎◌, ℕ, List, [], ◌++◌, IfOk, IfSome, OnOk};
ghost use Rattle.std.specs.Prelude.{MatchOption, length, true, false};
ghost use Rattle.si_words.specs.Loops.Reads.{words_now};
ghost use Rattle.si_words.specs.Names.{stands_in};
ghost use Rattle.si_commands.specs.Form as form;
ghost use Rattle.si_commands.specs.About.{shown_slot};
ghost use Rattle.si_commands.specs.Form.{HasForm, HasParts, words_of};
ghost use Rattle.si_commands.specs.Loops.Filled.{AreFilled, Completes};
ghost use Rattle.si_commands.specs.Loops.Reads.{form_now, slot_now, slots_now, tail_now};

use si_words::words::is_signal_name;
use std::alloc::{AllocError, Global};

/// A place in the form of a command.
#[derive(Clone, Copy)]
pub enum Slot<'a> {
    /// This word.
    Word(&'a str),
    /// The name of a file, which the help calls so.
    File(&'a str),
    /// The same of a file that stands alone behind the command: any word but `--help`, which asks
    /// for the command's page.
    LoneFile(&'a str),
    /// The same of a library: any word but these with words behind it, as they tell what follows.
    LibraryFile(&'a str, &'a [&'a str]),
    /// One of these words, which the help calls so.
    OneOf(&'a str, &'a [&'a str]),
    /// A word that may name a signal, which the help calls so.
    Name(&'a str),
}

impl<'a> Slot<'a> {
    /// How the help shows it.
    pub fn shown(self) -> &'a str
        ensures { result.now ≡ shown_slot (slot_now self.entry) }
    {
        match self {
            Slot::Word(word) => word,
            Slot::File(name) => name,
            Slot::LoneFile(name) => name,
            Slot::LibraryFile(name, _) => name,
            Slot::OneOf(name, _) => name,
            Slot::Name(name) => name,
        }
    }
}

/// What may stand behind the places of a form.
#[derive(Clone, Copy)]
pub enum Tail<'a> {
    /// No word.
    Nothing,
    /// The names of more files, so many at most.
    MoreFiles(usize),
    /// The same in pairs.
    MorePairs(usize),
    /// Some of these words, in their order.
    Options(&'a [&'a str]),
}

/// What the words of a command say besides its form, in their order.
#[derive(Drop)]
pub struct Given<'w> {
    /// The names of its files.
    pub files: Vec<&'w str>,
    /// The words that it leaves to choose: those of places, then options.
    pub choices: Vec<&'w str>,
}

/// What the words give where they have the form, and `None` where they don't.
pub fn given_in<'w>(
    alloc: Global,
    words: &'w [String],
    places: &[Slot<'_>],
    tail: Tail<'_>,
) -> Result<Option<Given<'w>>, AllocError>
    ensures { IfOk result (λ found. MatchOption found
        ((files choices : List (List ℕ))
        → HasForm (form_now places.now tail.entry) (words_of words.now) files choices → ⊥)
        (λ given. HasForm (form_now places.now tail.entry) (words_of words.now)
        (words_now given.files.items) (words_now given.choices.items))) }
{
    match placed_in(alloc, words, places)? {
        None => Ok(None),
        Some(given) => with_tail(given, &words[places.len()..], tail),
    }
}

/// What the words give at these places, where they fit in them.
fn placed_in<'w>(
    alloc: Global,
    words: &'w [String],
    places: &[Slot<'_>],
) -> Result<Option<Given<'w>>, AllocError>
    ensures filled { IfOk result (λ found. MatchOption found
        ((tail : form.Tail) → (files choices : List (List ℕ))
        → HasParts (slots_now places.now) tail (words_of words.now) files choices → ⊥)
        (λ given. AreFilled (slots_now places.now) (words_of words.now)
        (words_now given.files.items) (words_now given.choices.items) (length places.now))) }
    ensures many { IfOk result (λ found. IfSome found (λ _. length places.now ≤ length words.now)) }
{
    let mut files = Vec::new(alloc);
    let mut choices = Vec::new(alloc);
    if words.len() < places.len() {
        return Ok(None);
    }
    for (place, slot) in places.iter().enumerate() {
        let word = words[place].as_str();
        match slot {
            Slot::Word(own) => {
                if word != *own {
                    return Ok(None);
                }
            }
            Slot::File(_) => files.push(word)?,
            Slot::LoneFile(_) => {
                if word == "--help" {
                    return Ok(None);
                }
                files.push(word)?;
            }
            Slot::LibraryFile(_, kept) => {
                if is_kept(kept, word, &words[place + 1..]) {
                    return Ok(None);
                }
                files.push(word)?;
            }
            Slot::OneOf(_, listed) => {
                if !is_listed(listed, word) {
                    return Ok(None);
                }
                choices.push(word)?;
            }
            Slot::Name(_) => {
                if !is_signal_name(word.as_bytes()) {
                    return Ok(None);
                }
                choices.push(word)?;
            }
        }
    }
    Ok(Some(Given { files, choices }))
}

/// The same with the words behind the places, where these may stand there.
fn with_tail<'w>(
    given: Given<'w>,
    left: &'w [String],
    tail: Tail<'_>,
) -> Result<Option<Given<'w>>, AllocError>
    ensures { IfOk result (λ found. MatchOption found
        ((files choices : List (List ℕ))
        → HasParts [] (tail_now tail.entry) (words_of left.now) files choices → ⊥)
        (λ all. Completes (tail_now tail.entry) (words_of left.now)
        (words_now given.entry.files.items) (words_now given.entry.choices.items)
        (words_now all.files.items) (words_now all.choices.items))) }
{
    let Given {
        mut files,
        mut choices,
    } = given;
    match tail {
        Tail::Nothing => {
            if !left.is_empty() {
                return Ok(None);
            }
        }
        Tail::MoreFiles(most) => {
            if left.len() > most {
                return Ok(None);
            }
            add_words(&mut files, left)?;
        }
        Tail::MorePairs(most) => {
            if left.len() > most || left.len() % 2 != 0 {
                return Ok(None);
            }
            add_words(&mut files, left)?;
        }
        Tail::Options(options) => {
            if !are_some(options, left) {
                return Ok(None);
            }
            add_words(&mut choices, left)?;
        }
    }
    Ok(Some(Given { files, choices }))
}

/// Adds the words.
fn add_words<'w>(names: &mut Vec<&'w str>, words: &'w [String]) -> Result<(), AllocError>
    ensures { OnOk result
        (words_now names.new.items ≡ words_now names.old.items ++ words_of words.now) }
{
    for word in words {
        names.push(word.as_str())?;
    }
    Ok(())
}

/// Whether the words are some of the options, in their order.
fn are_some(options: &[&str], words: &[String]) -> bool
    ensures { result ≡ form.are_some (words_now options.now) (words_of words.now) }
{
    let mut taken = 0;
    for option in options {
        if let Some(word) = words.get(taken) {
            if word.as_str() == *option {
                taken += 1;
            }
        }
    }
    taken == words.len()
}

/// Whether the word is one of those that are kept, and words stand behind it.
fn is_kept(kept: &[&str], word: &str, later: &[String]) -> bool
    ensures kept { result ≡ true
        → (stands_in (words_now kept.now) word.now ≡ true) × (words_of later.now ≢ []) }
    ensures other { result ≡ false
        → (stands_in (words_now kept.now) word.now ≡ false) ⊎ (words_of later.now ≡ []) }
{
    !later.is_empty() && is_listed(kept, word)
}

/// Whether one of the words is this one.
pub fn is_listed(words: &[&str], word: &str) -> bool
    ensures { result ≡ stands_in (words_now words.now) word.now }
{
    words.iter().any(|w| word == *w)
}
