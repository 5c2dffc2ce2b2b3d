//! Names as they stand in expressions.

ghost use Rattle.std.specs.Prelude.{◌≡◌, ◌++◌, OnOk};
ghost use Rattle.si_genlib.specs.Expression as expression;
ghost use Rattle.si_equations.specs.Written.{in_brackets, shown};

use si_base::ids::NoMemory;
use si_base::text::Text;

/// Adds a name in brackets.
///
/// It fails only where memory runs out. The text may then end in a part of the name, and isn't to
/// be used.
pub(crate) fn add_in_brackets(text: &mut Text, name: &[u8]) -> Result<(), NoMemory>
    ensures { OnOk result (text.new ≡ text.old ++ in_brackets name.now) }
{
    text.add(b"[")?;
    text.add(name)?;
    text.add(b"]")
}

/// Adds a name of an expression: in brackets where it would be a constant without them.
///
/// It fails only where memory runs out. The text may then end in a part of the name, and isn't to
/// be used.
pub(crate) fn add_name(text: &mut Text, name: &[u8]) -> Result<(), NoMemory>
    ensures { OnOk result (text.new ≡ text.old ++ shown name.now) }
{
    if is_constant(name) {
        return add_in_brackets(text, name);
    }
    text.add(name)
}

/// Whether the name is that of a constant.
fn is_constant(name: &[u8]) -> bool
    ensures { result ≡ expression.is_constant name.now }
{
    b"CONST0".as_slice() == name || b"CONST1".as_slice() == name
}
