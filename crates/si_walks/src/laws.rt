//! The laws of conflicts whose states input events join. Each contract is the law.

ghost use Rattle.std.specs.Prelude.{ℕ};
ghost use Rattle.si_walks.specs.Joined.{IsJoinedConflict};
ghost use Rattle.si_walks.specs.Laws.{JoinedConflictStays, KeptJoinedConflictStays};
ghost use Rattle.si_walks.specs.Laws.{JoinedIsNeverResolved, WalkJoinsConflict, WaysAreFirstWalks};
ghost use Rattle.si_walks.specs.Laws.{WaysAreUnique, WaysExist};
ghost use Rattle.si_walks.specs.Twins.{JoinedIsTwin, TwinIsNeverResolved};

use si_insert::resolved::Resolved;

/// A conflict whose states input events join stays, whatever is inserted: the environment gets from
/// the one state to the other, or to both from a third, before the circuit can tell them apart.
pub fn joined_conflicts()
    ensures walk { WalkJoinsConflict }
    ensures stays { JoinedConflictStays }
    ensures kept { KeptJoinedConflictStays }
    ensures never_resolved { JoinedIsNeverResolved }
{}

/// The given graph of a resolved lineage has no such conflict.
pub fn resolved_has_none(resolved: &Resolved)
    ensures { (pair : ℕ × ℕ) → IsJoinedConflict resolved.now.given pair → ⊥ }
{
    let lineage = resolved.lineage();
    let _trace = lineage.trace();
}

/// Each state of a graph has one first path from the start, and in a deterministic graph the events
/// of this are the first walk.
pub fn first_paths()
    ensures unique { WaysAreUnique }
    ensures exist { WaysExist }
    ensures walks { WaysAreFirstWalks }
{}

/// Nothing that is inserted resolves a conflict to whose two states moves of twins lead from one
/// state: an input waits for nothing, and at two states of one code the circuit does the same. A
/// conflict whose states input events join is one of these.
pub fn twin_conflicts()
    ensures never_resolved { TwinIsNeverResolved }
    ensures joined { JoinedIsTwin }
{}
