//! Lists of signals.

ghost use Rattle.std.specs.Prelude.{◌≡◌, [], ◌∷◌, ◌++◌, OnOk, OnErr, IfErr, position};
ghost use Rattle.std.specs.Prelude.{bytes_eq, false, ◌<◌, ◌≤◌, length};
ghost use Rattle.si_base.specs.Faults.{first_after};
ghost use Rattle.si_base.specs.TextFaults.{Tells};
ghost use Rattle.si_base.specs.declared.fault.LineFault.TheVariants.{NoMemory};
ghost use Rattle.si_words.specs.Names.{name_fault, stands_in, LeavesNames};
ghost use Rattle.si_words.specs.Loops.Reads.{words_now};

use crate::words::is_signal_name;
use si_base::fault::{LineFault, TextKind};
use si_base::names::Names;

/// The place of a name, or `None` where it isn't there. The names are distinct, so that it is the
/// first.
pub fn place_of(names: &Names, name: &[u8]) -> Option<u32>
    ensures { result ≡ position (λ n. bytes_eq name.now n) names.now }
{
    names.place(name)
}

/// Whether the name is there.
pub fn has(names: &Names, name: &[u8]) -> bool
    ensures { result ≡ stands_in names.now name.now }
{
    names.place(name).is_some()
}

/// Puts a new name last.
fn push(names: &mut Names, limit: u32, name: &[u8]) -> Result<(), LineFault>
    requires new { stands_in names.old name.now ≡ false }
    requires room { length names.old < limit }
    ensures ok { OnOk result (names.new ≡ names.old ++ name.now ∷ []) }
    ensures err { IfErr result (λ e. e ≡ NoMemory) }
    ensures kept { OnErr result (names.new ≡ names.old) }
    ensures few { length names.new ≤ limit }
{
    match names.add(name, limit) {
        Ok(_) => Ok(()),
        Err(_) => Err(LineFault::NoMemory),
    }
}

/// The fault of a name after these, where `limit` names may stand.
fn name_kind(names: &Names, limit: u32, name: &[u8]) -> Option<TextKind>
    ensures { result ≡ name_fault limit names.now name.now }
{
    if !is_signal_name(name) {
        Some(TextKind::BadName)
    } else if has(names, name) {
        Some(TextKind::Repeated)
    } else if names.len() >= limit {
        Some(TextKind::TooManySignals)
    } else {
        None
    }
}

/// Puts names last, up to the first fault.
///
/// Fails with that fault: a word that is no signal name, is there already, or is one more than
/// `limit`; and where memory runs out. After a fault just the words before the faulty one are
/// there, and where memory ran out some first words without a fault.
pub fn add_names(names: &mut Names, limit: u32, words: &[&[u8]]) -> Result<(), LineFault>
    ensures fault { Tells result (first_after (name_fault limit) names.old (words_now words.now)) }
    ensures value { OnOk result (names.new ≡ names.old ++ words_now words.now) }
    ensures left { IfErr result
        (λ e. LeavesNames limit e names.old names.new (words_now words.now)) }
    ensures few { length names.old ≤ limit → length names.new ≤ limit }
{
    for word in words {
        if let Some(kind) = name_kind(names, limit, *word) {
            return Err(LineFault::Kind(kind));
        }
        push(names, limit, *word)?;
    }
    Ok(())
}
