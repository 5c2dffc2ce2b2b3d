//! Arcs, and where paths along them lead.

ghost use Rattle.std.specs.Prelude.{◌≡◌, ◌<◌, ◌↔◌, [], ◌∷◌, ◌++◌, IfOk, IsTrue, OnOk};
ghost use Rattle.std.specs.Prelude.{get_or, length, map};
ghost use Rattle.std.specs.List.{range_with_len};
ghost use Rattle.si_base.specs.Bits.{flip};
ghost use Rattle.si_base.specs.Limits.{max_signals};
ghost use Rattle.si_loops.specs.Arcs.{Leads};
ghost use Rattle.si_loops.specs.Loops.Paths.{IsNarrow, led_on};

use crate::arcs::Arc;
use si_base::ids::{Code, NoMemory, Sig};
use si_base::limits::MAX_SIGNALS;
use std::alloc::Global;
use std::marker::Model;

/// Arcs in a row, seen as their list.
#[derive(Drop)]
pub(crate) struct Paths {
    arcs: Vec<Arc>,
    /// For each signal those to which a path along the arcs leads, itself included.
    ends: Vec<Code>,
}

impl Model for Paths {
    ghost use Rattle.std.specs.Prelude.{List};
    ghost use Rattle.si_loops.specs.declared.arcs.Arc.{Arc};
    ghost use Rattle.si_loops.specs.Loops.Paths.{AreEnds};

    ghost Value = { List Arc };

    ghost view = { λ p. p.arcs.items };

    ghost invariant = { λ p. AreEnds p.arcs.items p.ends.items };
}

impl Paths {
    /// No arcs.
    pub(crate) fn none(alloc: Global) -> Result<Paths, NoMemory>
        ensures { IfOk result (λ paths. paths ≡ []) }
    {
        Ok(Paths {
            arcs: Vec::new(alloc),
            ends: each_alone(alloc)?,
        })
    }

    /// Whether a path leads from one signal to another.
    pub(crate) fn lead(&self, from: Sig, to: Sig) -> bool
        requires from { from < max_signals }
        requires to { to < max_signals }
        ensures { IsTrue result ↔ Leads self.now from to }
    {
        word_of(self.ends.as_slice(), from).get(to)
    }

    /// Puts an arc last.
    pub(crate) fn add(&mut self, arc: Arc) -> Result<(), NoMemory>
        requires { IsNarrow arc }
        ensures { OnOk result (self.new ≡ self.old ++ arc ∷ []) }
    {
        let Arc { from, to } = arc;
        self.arcs.push(arc)?;
        lead_on(self.ends.as_mut_slice(), from, to);
        Ok(())
    }

    /// The arcs.
    pub(crate) fn into_arcs(self) -> Vec<Arc>
        ensures { result.items ≡ self }
    {
        self.arcs
    }
}

/// For each signal the word of that signal alone.
fn each_alone(alloc: Global) -> Result<Vec<Code>, NoMemory>
    ensures { IfOk result (λ v. v.items ≡ map (flip 0) (range_with_len 0 max_signals)) }
{
    let mut words = Vec::new(alloc);
    for s in 0..MAX_SIGNALS {
        words.push(Code(0).flip(Sig(s as u8)))?;
    }
    Ok(words)
}

/// The word of a signal.
fn word_of(words: &[Code], s: Sig) -> Code
    requires { s < length words.now }
    ensures { result ≡ get_or words.now s 0 }
{
    words[s.0 as usize]
}

/// Each signal that leads to `from` leads to where `to` leads, too.
fn lead_on(words: &mut [Code], from: Sig, to: Sig)
    requires from { from < max_signals }
    requires to { to < length words.old }
    ensures { words.new ≡ map (led_on from (get_or words.old to 0)) words.old }
{
    let beyond = words[to.0 as usize];
    for s in 0..words.len() {
        words[s] = led_on(words[s], from, beyond);
    }
}

/// The word of a signal once an arc leads from `from` to a signal with the word `beyond`.
fn led_on(word: Code, from: Sig, beyond: Code) -> Code
    requires { from < max_signals }
    ensures { result ≡ led_on from beyond word }
{
    if word.get(from) {
        Code(word.0 | beyond.0)
    } else {
        word
    }
}
