//! What no whole run shows: a key, sets and codes bit by bit, and the order of events.

use crate::sets::set_of;
use si_base::graph::Edge;
use si_base::ids::{Code, Event, Sig, StateId};
use si_base::text_key::TextKey;
use std::hash::{BuildHasher, Hasher};
use std::test::Fail;

/// What SHA-512 and SipHash-1-3 with the key 0 make of `abc`, one after the other.
#[test]
fn key_of_a_text(rt: HostRuntime) {
    assert_eq!(rt;
        TextKey::of(b"abc").build_hasher().finish(),
        0x8c2e_ff76_18ad_c3f0
    );
}

/// Of 66 states, which are kept in two words.
#[test]
fn a_set_of_two_words(rt: HostRuntime) -> Result<(), Fail> {
    let mut set = set_of(&rt, rt.alloc(), 66, [1, 64].as_slice())?;
    assert_eq!(rt; set.size(), 66);
    assert_eq!(rt; set.count(), 2);
    assert!(rt; set.has(StateId(64)) && !set.has(StateId(65)));
    assert_eq!(rt; set.first_from(StateId(2)), Some(StateId(64)));
    assert_eq!(rt; set.first_from(StateId(65)), None);
    set.remove(StateId(64));
    assert_eq!(rt; set.count(), 1);
    Ok(())
}

#[test]
fn codes(rt: HostRuntime) {
    let code = Code(0)
        .set(Sig(5), true)
        .set(Sig(127), true)
        .set(Sig(5), false);
    assert_eq!(rt; code, Code(1 << 127));
    assert!(rt; code.get(Sig(127)) && !code.get(Sig(5)));
    assert_eq!(rt; Code::ones(128).flip(Sig(127)), Code::ones(127));
}

fn edge(from: u32, event: Event, to: u32) -> Edge {
    Edge {
        from: StateId(from),
        event,
        to: StateId(to),
    }
}

#[test]
fn rising_events_come_first(rt: HostRuntime) {
    let rise = Event {
        sig: Sig(1),
        up: true,
    };
    let fall = Event {
        sig: Sig(1),
        up: false,
    };
    let next = Event {
        sig: Sig(2),
        up: true,
    };
    assert!(rt; rise < fall && fall < next);
    assert!(rt; edge(0, fall, 9) < edge(1, rise, 0));
    assert!(rt; edge(0, rise, 9) < edge(0, fall, 9));
}
