//! The codes that a sum must cover, and those that it must not.

ghost use Rattle.std.specs.Prelude.{◌≡◌, ◌<◌, ◌++◌, [], ◌∷◌, IfOk, OnOk, length, if◌then◌else◌};
ghost use Rattle.si_cover.specs.Demands.{codes_where, is_required, is_forbidden};

use crate::kind::SumKind;
use si_base::ids::{Code, Event, NoMemory, Sig, StateId};
use si_graph::coded::Coded;
use std::alloc::Global;

/// Codes in state order.
#[derive(Drop)]
pub struct Codes {
    pub required: Vec<Code>,
    pub forbidden: Vec<Code>,
}

/// The codes of the states that require them, and of those that forbid them.
pub fn codes_of(alloc: Global, coded: &Coded, kind: SumKind, z: Sig) -> Result<Codes, NoMemory>
    requires { z < length coded.now.graph.signals }
    ensures required { IfOk result
        (λ codes. codes.required.items ≡ codes_where coded.now (is_required kind coded.now z)) }
    ensures forbidden { IfOk result
        (λ codes. codes.forbidden.items ≡ codes_where coded.now (is_forbidden kind coded.now z)) }
{
    let graph = coded.graph();
    let mut required = Vec::new(alloc);
    let mut forbidden = Vec::new(alloc);
    for s in 0..graph.states() {
        let s = StateId(s);
        let (is_required, is_forbidden) = asks(coded, kind, s, z);
        let code = coded.code(s);
        push_if(is_required, &mut required, code)?;
        push_if(is_forbidden, &mut forbidden, code)?;
    }
    Ok(Codes {
        required,
        forbidden,
    })
}

/// Whether the state requires its code, and whether it forbids it.
fn asks(coded: &Coded, kind: SumKind, s: StateId, z: Sig) -> (bool, bool)
    requires state { s < coded.now.graph.states }
    requires signal { z < length coded.now.graph.signals }
    ensures { result ≡ (is_required kind coded.now z s, is_forbidden kind coded.now z s) }
{
    let graph = coded.graph();
    let rise = Event { sig: z, up: true };
    let fall = Event { sig: z, up: false };
    match kind {
        SumKind::Next => {
            let next = coded.next_value(s, z);
            (next, !next)
        }
        SumKind::Set => {
            let rises = graph.enabled(s, rise);
            let falls = graph.enabled(s, fall);
            let stays_low = !coded.code(s).get(z) && !rises;
            (rises, stays_low || falls)
        }
        SumKind::Reset => {
            let rises = graph.enabled(s, rise);
            let falls = graph.enabled(s, fall);
            let stays_high = coded.code(s).get(z) && !falls;
            (falls, stays_high || rises)
        }
    }
}

/// Puts the code last, if it is asked for.
fn push_if(asked: bool, codes: &mut Vec<Code>, code: Code) -> Result<(), NoMemory>
    ensures { OnOk result
        (codes.new.items ≡ codes.old.items ++ (if asked then code ∷ [] else [])) }
{
    if asked {
        codes.push(code)?;
    }
    Ok(())
}
