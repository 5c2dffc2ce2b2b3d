//! Ids, events and codes.

ghost use Rattle.std.specs.Prelude.{◌≡◌, ℕ, ◌<◌, ◌≤◌, ◌^◌};
ghost use Rattle.si_base.specs.Bits.{bit, flip, ones, IsSet};
ghost use Rattle.si_base.specs.Limits.{code_width};

use crate::limits::CODE_WIDTH;
use std::alloc::{AllocError, AllocFailed};
use std::marker::Model;

/// A signal, by its place in signal order.
#[derive(Clone, Copy, PartialEq, Eq, PartialOrd, Ord, Debug)]
pub struct Sig(pub u8);

impl Model for Sig {
    ghost Value = { ℕ };

    ghost view = { λ s. s.0 };

    ghost inverse = { λ n. record { 0 = n } };
}

/// A state, by its place in state order.
#[derive(Clone, Copy, PartialEq, Eq, PartialOrd, Ord, Debug)]
pub struct StateId(pub u32);

impl Model for StateId {
    ghost Value = { ℕ };

    ghost view = { λ s. s.0 };

    ghost inverse = { λ n. record { 0 = n } };
}

/// One switching of a signal: `up` from 0 to 1, else from 1 to 0.
#[derive(Clone, Copy, PartialEq, Eq, Debug)]
pub struct Event {
    pub sig: Sig,
    pub up: bool,
}

/// A value for each signal: bit i is the value of signal i.
#[derive(Clone, Copy, PartialEq, Eq, PartialOrd, Ord, Debug)]
pub struct Code(pub u128);

impl Model for Code {
    ghost Value = { ℕ };

    ghost view = { λ c. c.0 };

    ghost inverse = { λ n. record { 0 = n } };
}

impl Code {
    /// The value of a signal.
    pub fn get(self, s: Sig) -> bool
        requires { s < code_width }
        ensures { result ≡ bit self s }
    {
        self.0 >> s.0 & 1 == 1
    }

    /// The code with that value for the signal.
    pub fn set(self, s: Sig, v: bool) -> Code
        requires { s < code_width }
        ensures { IsSet self s v result }
    {
        if self.get(s) == v { self } else { self.flip(s) }
    }

    /// The code with the other value for the signal.
    pub fn flip(self, s: Sig) -> Code
        requires { s < code_width }
        ensures { result ≡ flip self s }
    {
        Code(self.0 ^ 1 << s.0)
    }

    /// The code in which the first `count` signals have the value 1, and no other signal has.
    pub fn ones(count: usize) -> Code
        requires { count ≤ code_width }
        ensures { result ≡ ones count }
    {
        if count == CODE_WIDTH {
            Code(u128::MAX)
        } else {
            Code((1 << count) - 1)
        }
    }
}

/// A signal plain or complemented.
#[derive(Clone, Copy, PartialEq, Eq, Debug)]
pub struct Literal {
    pub sig: Sig,
    pub plain: bool,
}

/// Out of memory.
#[derive(Clone, Copy, PartialEq, Eq, Debug)]
pub struct NoMemory;

impl From<AllocError> for NoMemory {
    fn from(_e: AllocError) -> NoMemory {
        NoMemory
    }
}

impl<T: Drop> From<AllocFailed<T>> for NoMemory {
    fn from(_e: AllocFailed<T>) -> NoMemory {
        NoMemory
    }
}
