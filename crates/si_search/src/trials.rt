//! How many conflicts insertions into one graph would leave.

ghost use Rattle.si_conflicts.specs.Loops.Chains.{AreChains};

use si_base::ids::NoMemory;
use si_checks::proper::Proper;
use si_conflicts::chains::CodeChains;
use si_insert::partition::{Class, Partition};
use std::alloc::Global;
use std::marker::Model;

/// A graph with its states by their codes, for counts of conflicts.
#[derive(Drop)]
pub(crate) struct Trials<'a> {
    graph: &'a Proper,
    chains: CodeChains,
}

impl<'a> Model for Trials<'a> {
    ghost use Rattle.si_base.specs.Codes.{CodedGraph};
    ghost use Rattle.si_conflicts.specs.Loops.Chains.{AreChains};

    ghost Value = { CodedGraph };

    ghost view = { λ t. t.graph.now };

    ghost invariant = { λ t. AreChains t.graph.now t.chains };
}

impl<'a> Trials<'a> {
    /// Trials for the graph. It fails only where memory runs out.
    pub(crate) fn new(alloc: Global, graph: &'a Proper) -> Result<Trials<'a>, NoMemory> {
        let chains = CodeChains::new(alloc, graph)?;
        Ok(Trials { graph, chains })
    }

    /// How many conflicts the insertion by these classes would leave, where they are a lawful
    /// partition and the conflicts fewer than `bar`.
    pub(crate) fn left_below(
        &mut self,
        alloc: Global,
        classes: &[Class],
        bar: u64,
    ) -> Result<Option<u64>, NoMemory> {
        let graph = self.graph;
        if classes.len() != graph.coded().graph().states() as usize {
            return Ok(None);
        }
        if !self.chains.may_leave_below(graph, &classes, bar) {
            return Ok(None);
        }
        let list = Vec::from_slice(alloc, classes)?;
        let Ok(partition) = Partition::lawful(graph, list) else {
            return Ok(None);
        };
        self.chains
            .trial_below(alloc, graph, partition.classes(), bar)
    }
}
