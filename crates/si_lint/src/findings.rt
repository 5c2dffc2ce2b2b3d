//! All that is told of a graph, kind by kind.

ghost use Rattle.std.specs.Prelude.{IfOk};
ghost use Rattle.si_lint.specs.Findings.{AreFindings};
ghost use Rattle.si_lint.specs.Loops.Lines.{findings_of};

use crate::dead::dead;
use crate::merged::merged;
use crate::one_way::one_way;
use crate::same_codes::same_codes;
use crate::unresolvable::unresolvable;
use crate::unused::unused;
use crate::withdrawals::{Kind, Withdrawal, withdrawals};
use si_base::graph::Edge;
use si_base::ids::{NoMemory, Sig, StateId};
use si_checks::proper::Proper;
use si_conflicts::conflicts::Pair;
use std::alloc::Global;

/// What was found of each kind.
#[derive(Drop)]
pub(crate) struct Found {
    pub(crate) unused: Vec<Sig>,
    pub(crate) dead: Vec<StateId>,
    pub(crate) one_way: Vec<Edge>,
    pub(crate) choices: Vec<Withdrawal>,
    pub(crate) disablings: Vec<Withdrawal>,
    pub(crate) same_codes: Vec<Pair>,
    pub(crate) merged: Vec<Pair>,
    pub(crate) unresolvable: Vec<Pair>,
}

/// All that a graph has of each kind. It fails only where memory runs out.
pub(crate) fn findings(alloc: Global, graph: &Proper) -> Result<Found, NoMemory>
    ensures { IfOk result (λ found. AreFindings graph.now (findings_of found)) }
{
    let coded = graph.coded();
    let unused = unused(alloc, coded.graph())?;
    let dead = dead(alloc, coded.graph())?;
    let one_way = one_way(alloc, coded.graph())?;
    let choices = withdrawals(alloc, coded.graph(), &Kind::Choice)?;
    let disablings = withdrawals(alloc, coded.graph(), &Kind::Disabling)?;
    let same_codes = same_codes(alloc, graph)?;
    let merged = merged(alloc, graph)?;
    let unresolvable = unresolvable(alloc, coded)?;
    Ok(Found {
        unused,
        dead,
        one_way,
        choices,
        disablings,
        same_codes,
        merged,
        unresolvable,
    })
}
