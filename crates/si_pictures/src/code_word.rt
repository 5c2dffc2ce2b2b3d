//! Codes as they are printed, with the excited signals marked.

ghost use Rattle.std.specs.Prelude.{◌≡◌, ◌<◌, ◌++◌, OnOk, length};
ghost use Rattle.si_pictures.specs.CodeWord as words;
ghost use Rattle.si_pictures.specs.CodeWord.{code_word};

use si_base::ids::{NoMemory, Sig, StateId};
use si_base::text::Text;
use si_graph::coded::Coded;

/// Adds the code of a state: a digit for each signal, and `*` behind that of an excited one.
///
/// It fails only where memory runs out. The text may then end in a part of the word, and isn't to
/// be used.
pub fn add_code(text: &mut Text, graph: &Coded, s: StateId) -> Result<(), NoMemory>
    requires { s < graph.now.graph.states }
    ensures { OnOk result (text.new ≡ text.old ++ code_word graph.now s) }
{
    let signals = graph.graph().signals().len();
    for i in 0..signals {
        let z = Sig(i as u8);
        text.add(marked_digit(graph.code(s).get(z), is_excited(graph, s, z)))?;
    }
    Ok(())
}

/// Whether the signal is excited at the state, that is, whether some event of it is enabled.
pub fn is_excited(graph: &Coded, s: StateId, z: Sig) -> bool
    requires state { s < graph.now.graph.states }
    requires signal { z < length graph.now.graph.signals }
    ensures { result ≡ words.is_excited graph.now.graph s z }
{
    let _graph = graph.graph();
    graph.next_value(s, z) != graph.code(s).get(z)
}

/// The digit of a value, with `*` behind it where it is about to change.
fn marked_digit(value: bool, excited: bool) -> &'static [u8]
    ensures { result.now ≡ words.marked_digit value excited }
{
    match (value, excited) {
        (false, false) => b"0",
        (false, true) => b"0*",
        (true, false) => b"1",
        (true, true) => b"1*",
    }
}
