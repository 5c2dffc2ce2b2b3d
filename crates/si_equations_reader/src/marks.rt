//! Tokens that are due, and faults with their lines.

ghost use Rattle.std.specs.Prelude.{◌≡◌};
ghost use Rattle.si_equations.specs.Equations.{mark_at};
ghost use Rattle.si_genlib.specs.Expression as expression;
ghost use Rattle.si_genlib.specs.Gate as gate;
ghost use Rattle.si_tokens.specs.Loops.Parts.{left, Reads};
ghost use Rattle.si_tokens.specs.declared.fault.ReadFault.TheVariants as faults;
ghost use Rattle.si_tokens.specs.declared.fault.Stop.TheVariants as stops;

use si_base::fault::TextKind;
use si_tokens::fault::{ReadFault, Stop};
use si_tokens::source::Source;

/// The fault of this line.
pub(crate) fn fault_at(line: u64, kind: TextKind) -> ReadFault
    ensures { result ≡ faults.Stop (stops.Fault line kind) }
{
    ReadFault::Stop(Stop::Fault { line, kind })
}

/// Whether the token is `;`.
pub(crate) fn ends_expression(token: &[u8]) -> bool
    ensures { result ≡ gate.ends_expression token.now }
{
    match token {
        [] => false,
        [byte] => *byte == b';',
        [_, _, ..] => false,
    }
}

/// Takes the token, which must be this one.
#[tactic(auto, unfolding(si_equations::specs::Equations::mark_at))]
pub(crate) fn read_mark(source: &mut Source<'_>, bytes: &[u8]) -> Result<(), ReadFault>
    ensures { Reads (λ _. left source.new) result (mark_at bytes.now (left source.old)) }
{
    let token = source.token()?;
    if bytes != token.bytes {
        return Err(fault_at(token.line, TextKind::BadWord));
    }
    Ok(())
}
