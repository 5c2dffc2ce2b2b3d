//! The differences of codes at which a signal has different next values.

ghost use Rattle.std.specs.Prelude.{◌≡◌, ◌<◌, IfOk, OnOk, length};
ghost use Rattle.si_match.specs.Loops.Differences.{AreDifferences, AreJoined, any_without};

use crate::codes::{codes_with, cut};
use si_base::ids::{Code, NoMemory, Sig};
use si_cube::codes::in_order;
use si_graph::coded::Coded;
use std::alloc::Global;

/// The differences, as far as these signals go, of each code with the next value 1 of `z` and each
/// code with 0, if they hold no trigger.
pub(crate) fn differences(
    alloc: Global,
    coded: &Coded,
    z: Sig,
    signals: Code,
    triggers: Code,
) -> Result<Vec<Code>, NoMemory>
    requires { z < length coded.now.graph.signals }
    ensures { IfOk result
        (λ differences. AreDifferences coded.now z signals triggers differences.items) }
{
    let on = in_order(codes_with(alloc, coded, z, true, signals)?);
    let off = in_order(codes_with(alloc, coded, z, false, signals)?);
    let mut differences = Vec::new(alloc);
    for code in &on {
        add_differences(&mut differences, *code, &off, triggers)?;
    }
    Ok(differences)
}

/// Adds the differences of the code and each of the others, if they hold no trigger.
fn add_differences(
    differences: &mut Vec<Code>,
    code: Code,
    others: &[Code],
    triggers: Code,
) -> Result<(), NoMemory>
    ensures { OnOk result
        (AreJoined differences.old.items code others.now triggers differences.new.items) }
{
    for other in others {
        let difference = Code(code.0 ^ other.0);
        if cut(difference, triggers).0 != 0 {
            continue;
        }
        differences.push(difference)?;
    }
    Ok(())
}

/// Whether one of the differences holds none of these signals.
pub(crate) fn any_without(differences: &[Code], signals: Code) -> bool
    ensures { result ≡ any_without differences.now signals }
{
    differences
        .iter()
        .any(|difference| cut(*difference, signals).0 == 0)
}
