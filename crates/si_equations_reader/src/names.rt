//! Names of signals in a text of equations.

ghost use Rattle.std.specs.Prelude.{◌≡◌, ◌++◌, ◌≤◌, ◌<◌, ◌∷◌, [], false, length, MatchOption, None};
ghost use Rattle.std.specs.Prelude.{Some, OnOk};
ghost use Rattle.si_base.specs.Limits.{max_signals};
ghost use Rattle.si_equations.specs.Equations.{list_fault, without};
ghost use Rattle.si_equations.specs.Names as spec;
ghost use Rattle.si_words.specs.Names.{stands_in};

use si_base::fault::TextKind;
use si_base::ids::NoMemory;
use si_base::limits::MAX_SIGNALS;
use si_base::names::Names;
use si_words::lists::has;
use si_words::words::is_signal_name;

/// What stands before a closing bracket that is the last byte.
fn before_bracket(bytes: &[u8]) -> Option<&[u8]>
    ensures { MatchOption result (spec.before_bracket bytes.now ≡ None)
        (λ bare. spec.before_bracket bytes.now ≡ Some bare.now) }
{
    match bytes.split_last() {
        Some((last, before)) => { if *last == b']' { Some(before) } else { None } }
        None => None,
    }
}

/// The name without the brackets around it.
pub fn bare(name: &[u8]) -> &[u8]
    ensures { result.now ≡ spec.bare name.now }
{
    match name {
        [] => name,
        [first, inner @ ..] => {
            if *first != b'[' {
                return name;
            }
            match before_bracket(inner) {
                Some(bare) => bare,
                None => name,
            }
        }
    }
}

/// The fault of a name of a list, behind the names of another list and those of its own so far.
/// There are `count` names in both lists together.
pub(crate) fn name_kind(others: &Names, names: &Names, count: u32, name: &[u8]) -> Option<TextKind>
    requires { count ≡ length (others.now ++ without others.now names.now) }
    ensures { result ≡ list_fault others.now names.now name.now }
{
    if !is_signal_name(name) {
        Some(TextKind::BadName)
    } else if has(names, name) {
        Some(TextKind::Repeated)
    } else if !has(others, name) && count as usize >= MAX_SIGNALS {
        Some(TextKind::TooManySignals)
    } else {
        None
    }
}

/// Puts a new name last.
pub(crate) fn push(names: &mut Names, name: &[u8]) -> Result<(), NoMemory>
    requires new { stands_in names.old name.now ≡ false }
    requires room { length names.old < max_signals }
    ensures { OnOk result (names.new ≡ names.old ++ name.now ∷ []) }
{
    match names.add(name, MAX_SIGNALS as u32) {
        Ok(_) => Ok(()),
        Err(_) => Err(NoMemory),
    }
}
