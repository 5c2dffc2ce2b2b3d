//! Statements of a graph, as they are written for Graphviz.

ghost use Rattle.std.specs.Prelude.{◌≡◌, ◌++◌, ◌∷◌, [], OnOk, decimal, flat_map};
ghost use Rattle.std.specs.Prelude.{if◌then◌else◌};
ghost use Rattle.si_pictures.specs.Writing.{attribute_text, escaped_byte, later_text};

use si_base::ids::{NoMemory, StateId};
use si_base::text::Text;
use std::alloc::Global;

/// Adds an attribute: its name, and its value as a quoted string.
///
/// It fails only where memory runs out. The text may then end in a part of the attribute, and isn't
/// to be used.
pub fn add_attribute(text: &mut Text, name: &[u8], value: &[u8]) -> Result<(), NoMemory>
    ensures { OnOk result
        (text.new ≡ text.old ++ attribute_text (record { name = name.now; value = value.now })) }
{
    text.add(name)?;
    text.add(b"=\"")?;
    add_escaped(text, value)?;
    text.add(b"\"")
}

/// Adds an attribute behind another, with a comma before it, where `on` is true.
///
/// It fails only where memory runs out. The text may then end in a part of the attribute, and isn't
/// to be used.
pub fn add_attribute_if(
    text: &mut Text,
    on: bool,
    name: &[u8],
    value: &[u8],
) -> Result<(), NoMemory>
    ensures { OnOk result (text.new ≡ text.old ++ flat_map later_text
        (if on then record { name = name.now; value = value.now } ∷ [] else [])) }
{
    if !on {
        return Ok(());
    }
    text.add(b", ")?;
    add_attribute(text, name, value)
}

/// Adds the bytes of a label as they stand in a quoted string.
fn add_escaped(text: &mut Text, label: &[u8]) -> Result<(), NoMemory>
    ensures { OnOk result (text.new ≡ text.old ++ flat_map escaped_byte label.now) }
{
    for b in label {
        add_escaped_byte(text, *b)?;
    }
    Ok(())
}

/// Adds a byte of a label as it stands in a quoted string.
fn add_escaped_byte(text: &mut Text, b: u8) -> Result<(), NoMemory>
    ensures { OnOk result (text.new ≡ text.old ++ escaped_byte b) }
{
    match b {
        b'"' => text.add(b"\\\""),
        b'\\' => text.add(b"\\\\"),
        b'\n' => text.add(b"\\n"),
        b'&' => text.add(b"&amp;"),
        _ => text.add(&[b]),
    }
}

/// Adds the number of a state.
pub fn add_number(alloc: Global, text: &mut Text, s: StateId) -> Result<(), NoMemory>
    ensures { OnOk result (text.new ≡ text.old ++ decimal s) }
{
    let Ok(number) = s.0.to_string(alloc) else {
        return Err(NoMemory);
    };
    text.add(number.as_bytes())
}
