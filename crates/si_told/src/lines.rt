//! The lines with which each report begins, and those of a kind that are printed.

ghost use Rattle.std.specs.Prelude.{◌≡◌, ◌++◌, OnOk, take};
ghost use Rattle.si_base.specs.Words.{line, text_of};
ghost use Rattle.si_told.specs.ToldLines.{max_told, kind_lines, dropped_line, told_line};

use si_base::ids::NoMemory;
use si_base::names::Names;
use si_base::text::Text;
use si_words::writing::add_line;
use std::alloc::Global;

/// How many lines of a kind are printed at most.
const MAX_TOLD: usize = 1000;

/// Those of a kind that are printed.
pub fn printed<T>(found: &[T]) -> &[T]
    ensures { result.now ≡ take max_told found.now }
{
    if found.len() <= MAX_TOLD {
        return found;
    }
    let first = &found[..MAX_TOLD];
    first
}

/// Adds the line of how many lines there would be.
pub fn add_told(alloc: Global, text: &mut Text, count: u128) -> Result<(), NoMemory>
    ensures { OnOk result (text.new ≡ text.old ++ line (told_line count)) }
{
    let Ok(count) = count.to_string(alloc) else {
        return Err(NoMemory);
    };
    add_line(text, b"told", &[count.as_bytes()])
}

/// Adds the lines of states that were dropped.
pub fn add_dropped(text: &mut Text, dropped: &Names) -> Result<(), NoMemory>
    ensures { OnOk result (text.new ≡ text.old
        ++ text_of (kind_lines dropped_line dropped.now)) }
{
    for k in 0..dropped.len().min(MAX_TOLD as u32) {
        add_line(text, b"dropped", &[dropped.get(k)])?;
    }
    Ok(())
}
