//! States of equal code, linked into rings, and the conflicts that an insertion would leave.

ghost use Rattle.std.specs.Prelude.{◌≡◌, ℕ, ◌*◌, ◌<◌, ◌≤◌, ◌↔◌, false, IsTrue, IfOk};
ghost use Rattle.std.specs.Prelude.{IfSome, IfNone, length, slice_index};
ghost use Rattle.si_base.specs.Limits.{max_states};
ghost use Rattle.si_insert.specs.Accepted.{IsAccepted};
ghost use Rattle.si_insert.specs.Partition.{IsLawful};
ghost use Rattle.si_conflicts.specs.Loops.Apart as Apart;
ghost use Rattle.si_conflicts.specs.Loops.Apart.{pair_sum};
ghost use Rattle.si_conflicts.specs.Loops.Chains.{AreChains};
ghost use Rattle.si_conflicts.specs.Loops.Crowds.{crowded_of};
ghost use Rattle.si_conflicts.specs.Left.{LeavesConflicts};
ghost use Rattle.si_conflicts.specs.Loops.Own.{HasOwnConflicts};

use crate::classes::Classes;
use crate::crowds::{Crowded, crowded_members};
use crate::keys::Key;
use crate::members::{Member, members};
use crate::own::count_own;
use crate::rings::rings;
use crate::trial::{count_stable, count_switching};
use crate::turns::{Turn, turns};
use si_base::ids::{NoMemory, StateId};
use si_base::sets::StateSet;
use si_checks::proper::Proper;
use si_insert::accept::Accepted;
use si_insert::partition::Class;
use std::alloc::Global;
use std::marker::Model;

/// The states of each code in a ring, in state order, the last state leading to the first.
#[derive(Drop)]
pub struct CodeChains {
    next: Vec<StateId>,
    members: Vec<Member>,
    /// The members as they are counted. Contracts don't see it.
    turns: Vec<Turn>,
    /// Room for the keys of copies in a count. Contracts don't see it either.
    scratch: Vec<Key>,
}

impl Model for CodeChains {
    ghost use Rattle.si_conflicts.specs.Loops.Chains.{Chains};
    ghost use Rattle.si_conflicts.specs.Loops.Turns.{AreTurns};

    ghost Value = { Chains };

    ghost view = { λ c. record { next = c.next.items; members = c.members.items } };

    ghost invariant = { λ c. AreTurns c.members.items c.turns.items };
}

impl CodeChains {
    /// The rings of the graph. It fails only where memory runs out.
    pub fn new(alloc: Global, graph: &Proper) -> Result<CodeChains, NoMemory>
        ensures { IfOk result (AreChains graph.now) }
    {
        let coded = graph.coded();
        let next = rings(alloc, coded)?;
        let members = members(alloc, coded, next.as_slice())?;
        let turns = turns(alloc, members.as_slice())?;
        let scratch = Vec::new(alloc);
        Ok(CodeChains {
            next,
            members,
            turns,
            scratch,
        })
    }

    /// The next state of the state's ring: the state itself where no other has its code.
    pub fn next_equal(&self, s: StateId) -> StateId
        requires { s < length self.now.next }
        ensures { result ≡ slice_index self.now.next s }
    {
        self.next[s.0 as usize]
    }

    /// The states whose code at least `least` states have, two or more, those of one code side by
    /// side. It fails only where memory runs out.
    pub fn crowded_states(
        &self,
        alloc: Global,
        graph: &Proper,
        least: u64,
    ) -> Result<Vec<Crowded>, NoMemory>
        requires { AreChains graph.now self.now }
        ensures { IfOk result (λ list. list.items ≡ crowded_of self.now.members least) }
    {
        let _given = graph.coded().graph();
        crowded_members(alloc, self.members.as_slice(), least)
    }

    /// Whether the insertion may leave fewer conflicts than `bar`, by those that the new signal
    /// shows and those of copies where it is stable: the others are not counted.
    pub fn may_leave_below<C: Classes>(&self, graph: &Proper, classes: &C, bar: u64) -> bool
        requires chains { AreChains graph.now self.now }
        requires count { length (C.classes classes.now) ≡ graph.now.graph.states }
        ensures told { IsTrue result
            ↔ (pair_sum (Apart.stable_count (C.classes classes.now)) self.now.members < bar) }
        ensures none { result ≡ false → IsLawful graph.now.graph (C.classes classes.now)
            → (n : ℕ) → LeavesConflicts graph.now (C.classes classes.now) n → bar ≤ n }
    {
        let _given = graph.coded().graph();
        count_stable(self.turns.as_slice(), classes, bar) < bar
    }

    /// How many conflicts of the insertion the new signal shows, or the others at copies where it is
    /// stable: None where these are `bar` or more. It ends as soon as that shows.
    pub fn told_below<C: Classes>(&self, graph: &Proper, classes: &C, bar: u64) -> Option<u64>
        requires chains { AreChains graph.now self.now }
        requires count { length (C.classes classes.now) ≡ graph.now.graph.states }
        ensures told { IfSome result (λ n.
            n ≡ pair_sum (Apart.stable_count (C.classes classes.now)) self.now.members) }
        ensures fewer { IfSome result (λ n. n < bar) }
        ensures few { IfSome result (λ n. n ≤ 2 * max_states * max_states) }
        ensures none { IfNone result
            (bar ≤ pair_sum (Apart.stable_count (C.classes classes.now)) self.now.members) }
    {
        let _given = graph.coded().graph();
        below(count_stable(self.turns.as_slice(), classes, bar), bar)
    }

    /// How many pairs of states of the set have equal codes, while other non-inputs lead from them
    /// to states of the set. So many conflicts are left between copies at which a new signal may
    /// rise, if it rises at just these states, or at which it may fall, if it falls at these. The
    /// chains stay as they are. It fails only where memory runs out.
    pub fn own_conflicts(
        &mut self,
        alloc: Global,
        graph: &Proper,
        set: &StateSet,
    ) -> Result<u64, NoMemory>
        requires chains { AreChains graph.now self.old }
        requires size { length set.now ≡ graph.now.graph.states }
        ensures own { IfOk result (HasOwnConflicts graph.now.graph self.old.members set.now) }
        ensures few { IfOk result (λ n. n ≤ max_states * max_states) }
        ensures chains { self.new ≡ self.old }
    {
        let given = graph.coded().graph();
        count_own(
            alloc,
            &mut self.scratch,
            given,
            set,
            self.members.as_slice(),
        )
    }

    /// How many conflicts the insertion by the partition leaves. The chains stay as they are. It
    /// fails only where memory runs out.
    pub fn trial(
        &mut self,
        alloc: Global,
        graph: &Proper,
        accepted: &Accepted,
    ) -> Result<u64, NoMemory>
        requires chains { AreChains graph.now self.old }
        requires accepted { IsAccepted graph.now.graph accepted.now }
        ensures conflicts { IfOk result (LeavesConflicts graph.now accepted.now) }
        ensures chains { self.new ≡ self.old }
    {
        let given = graph.coded().graph();
        let classes = accepted.partition().classes();
        let members = self.members.as_slice();
        let told = count_stable(self.turns.as_slice(), &classes, u64::MAX);
        let rest = count_switching(alloc, &mut self.scratch, given, classes, members)?;
        Ok(told + rest)
    }

    /// How many conflicts the insertion by the classes of a lawful partition leaves, or None where
    /// they are `bar` or more: it ends as soon as that shows. The chains stay as they are. It fails
    /// only where memory runs out.
    pub fn trial_below(
        &mut self,
        alloc: Global,
        graph: &Proper,
        classes: &[Class],
        bar: u64,
    ) -> Result<Option<u64>, NoMemory>
        requires chains { AreChains graph.now self.old }
        requires lawful { IsLawful graph.now.graph classes.now }
        ensures fewer { IfOk result
            (λ o. IfSome o (λ n. LeavesConflicts graph.now classes.now n × (n < bar))) }
        ensures none { IfOk result (λ o. IfNone o
            ((n : ℕ) → LeavesConflicts graph.now classes.now n → bar ≤ n)) }
        ensures chains { self.new ≡ self.old }
    {
        let given = graph.coded().graph();
        let members = self.members.as_slice();
        let told = count_stable(self.turns.as_slice(), &classes, bar);
        if told >= bar {
            return Ok(None);
        }
        let rest = count_switching(alloc, &mut self.scratch, given, classes, members)?;
        Ok(below(told + rest, bar))
    }
}

/// The number where it is below the bar.
fn below(n: u64, bar: u64) -> Option<u64>
    ensures some { IfSome result (λ m. (m ≡ n) × (n < bar)) }
    ensures none { IfNone result (bar ≤ n) }
{
    if n < bar { Some(n) } else { None }
}
