//! Faults of a text.

ghost use Rattle.std.specs.Prelude.{◌≡◌};
ghost use Rattle.si_base.specs.declared.fault.LineFault.TheVariants.{NoMemory, Kind};
ghost use Rattle.si_base.specs.declared.fault.TextFault.TheVariants as text;
ghost use Rattle.si_base.specs.TextFaults.{ToldAt, kind_name};

use crate::ids;
use std::alloc::{AllocError, AllocFailed};
use thiserror::Error;

/// What is wrong with a text.
#[derive(Clone, Copy, PartialEq, Eq, Debug)]
pub enum TextKind {
    BadByte,
    UnknownDirective,
    BadName,
    Repeated,
    Dummy,
    Toggle,
    Undeclared,
    BadEvent,
    BadArcLine,
    BadLine,
    NoStateGraph,
    NoMarking,
    MarkingNotOne,
    UnknownState,
    NoEnd,
    TooManySignals,
    TooManyStates,
    TooManyArcs,
    TooManyCells,
    TooManyPins,
    /// A gate whose name, output or `=` can't be read.
    BadGate,
    /// A word that isn't decimal, where a number is due.
    BadNumber,
    /// A pin whose phase isn't one of the three.
    BadPin,
    /// A latch among the gates.
    Latch,
    /// A word or a character that can't stand where it stands.
    BadWord,
    /// A token at which an expression can't go on.
    BadExpression,
    /// An expression in which too many operators are unfinished at once.
    TooDeep,
    /// A gate that falls with its own output: for some values of its pins it gives 1 where the
    /// output is 0, and 0 where it is 1.
    OwnFalling,
}

/// Why a line was not read.
#[derive(Clone, Copy, PartialEq, Eq, Debug)]
pub enum LineFault {
    NoMemory,
    Kind(TextKind),
}

impl From<AllocError> for LineFault {
    ghost from_gives = { λ _ e. e ≡ NoMemory };

    fn from(_e: AllocError) -> LineFault {
        LineFault::NoMemory
    }
}

impl<T: Drop> From<AllocFailed<T>> for LineFault {
    ghost from_gives = { λ _ e. e ≡ NoMemory };

    fn from(_e: AllocFailed<T>) -> LineFault {
        LineFault::NoMemory
    }
}

impl From<ids::NoMemory> for LineFault {
    ghost from_gives = { λ _ e. e ≡ NoMemory };

    fn from(_e: ids::NoMemory) -> LineFault {
        LineFault::NoMemory
    }
}

impl From<TextKind> for LineFault {
    ghost from_gives = { λ kind e. e ≡ Kind kind };

    fn from(kind: TextKind) -> LineFault {
        LineFault::Kind(kind)
    }
}

/// Why a text was not read.
#[derive(Clone, Copy, PartialEq, Eq, Debug, Drop, Error)]
pub enum TextFault {
    #[error("no memory")]
    NoMemory,
    /// The first fault of the text, with the number of its line, from 1.
    #[error("line {line}: {kind:?}")]
    At { line: u64, kind: TextKind },
}

impl From<AllocError> for TextFault {
    ghost from_gives = { λ _ e. e ≡ text.NoMemory };

    fn from(_e: AllocError) -> TextFault {
        TextFault::NoMemory
    }
}

impl<T: Drop> From<AllocFailed<T>> for TextFault {
    ghost from_gives = { λ _ e. e ≡ text.NoMemory };

    fn from(_e: AllocFailed<T>) -> TextFault {
        TextFault::NoMemory
    }
}

impl From<ids::NoMemory> for TextFault {
    ghost from_gives = { λ _ e. e ≡ text.NoMemory };

    fn from(_e: ids::NoMemory) -> TextFault {
        TextFault::NoMemory
    }
}

impl TextKind {
    /// The word under which the kind prints.
    pub fn name(self) -> &'static str
        ensures { result.now ≡ kind_name self }
    {
        match self {
            TextKind::BadByte => "BadByte",
            TextKind::UnknownDirective => "UnknownDirective",
            TextKind::BadName => "BadName",
            TextKind::Repeated => "Repeated",
            TextKind::Dummy => "Dummy",
            TextKind::Toggle => "Toggle",
            TextKind::Undeclared => "Undeclared",
            TextKind::BadEvent => "BadEvent",
            TextKind::BadArcLine => "BadArcLine",
            TextKind::BadLine => "BadLine",
            TextKind::NoStateGraph => "NoStateGraph",
            TextKind::NoMarking => "NoMarking",
            TextKind::MarkingNotOne => "MarkingNotOne",
            TextKind::UnknownState => "UnknownState",
            TextKind::NoEnd => "NoEnd",
            TextKind::TooManySignals => "TooManySignals",
            TextKind::TooManyStates => "TooManyStates",
            TextKind::TooManyArcs => "TooManyArcs",
            TextKind::TooManyCells => "TooManyCells",
            TextKind::TooManyPins => "TooManyPins",
            TextKind::BadGate => "BadGate",
            TextKind::BadNumber => "BadNumber",
            TextKind::BadPin => "BadPin",
            TextKind::Latch => "Latch",
            TextKind::BadWord => "BadWord",
            TextKind::BadExpression => "BadExpression",
            TextKind::TooDeep => "TooDeep",
            TextKind::OwnFalling => "OwnFalling",
        }
    }
}

/// The fault of a line with its number.
pub fn at_line(line: u64, fault: LineFault) -> TextFault
    ensures { ToldAt fault line result }
{
    match fault {
        LineFault::NoMemory => TextFault::NoMemory,
        LineFault::Kind(kind) => TextFault::At { line, kind },
    }
}
