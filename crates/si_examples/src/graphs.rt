//! The graphs that tests look at.

ghost use Rattle.std.specs.Prelude.{IsTrue};
ghost use Rattle.si_base.specs.Graph.{IsNonInput};
ghost use Rattle.si_checks.specs.Loops.Lent.{coded_of};

use si_base::ids::Sig;
use si_checks::distinct::Distinct;
use si_checks::proper::Proper;
use si_graph::coded::Coded;
use si_sg::read::read_sg;
use std::alloc::Global;
use std::test::Fail;

/// The output `z` switches once after each pulse of the input `a`. The states 0 and 2 are its first
/// conflict.
pub const PULSES: &[u8] = b".inputs a
.outputs z
.state graph
s0 a+ s1 a- s2 z+ s3 a+ s4 a- s5 z- s0
.marking {s0}
.end
";

/// The C-element of the inputs `a`, `b` and `c` and the output `z`, which rises after all of them
/// have risen and falls after all have fallen.
pub const C_ELEMENT: &[u8] = b".inputs a b c
.outputs z
.state graph
l000 a+ l100 b+ l110 c+ l111 z+ h111 a- h011 b- h001 c- h000 z- l000
l000 b+ l010 c+ l011 a+ l111
l000 c+ l001 a+ l101 b+ l111
l100 c+ l101
l010 a+ l110
l001 b+ l011
h111 b- h101 c- h100 a- h000
h111 c- h110 a- h010 b- h000
h011 c- h010
h101 a- h001
h110 b- h100
.marking {l000}
.end
";

/// The C-element of the inputs `a` and `b` and the output `c`. Its states come in the order of
/// their numbers.
pub const LATCH: &[u8] = b".inputs a b
.outputs c
.state graph
s0 a+ s1
s0 b+ s2
s1 b+ s3
s2 a+ s3 c+ s4 a- s5
s4 b- s6
s5 b- s7 c- s0
s6 a- s7
.marking {s0}
.end
";

/// The output `z` rises after the input `a`, once.
pub const BUFFERED_ONCE: &[u8] = b".inputs a
.outputs z
.state graph
s0 a+ s1 z+ s2
.marking {s0}
.end
";

/// The proper graph of the text.
pub fn proper(alloc: Global, text: &[u8]) -> Result<Proper, Fail> {
    let given = read_sg(alloc, text)?;
    let coded = Coded::make(alloc, given.graph).ok().ok_or("no codes")?;
    let proper = Proper::make(alloc, coded).ok().ok_or("not proper")?;
    Ok(proper)
}

/// Whether the signal is there and no input.
pub fn is_driven(graph: Distinct<'_>, z: Sig) -> bool
    ensures { IsTrue result → IsNonInput (coded_of graph.entry).graph.signals z }
{
    let known = graph.proper().coded().graph();
    (z.0 as usize) < known.signals().len() && known.is_driven(z)
}
