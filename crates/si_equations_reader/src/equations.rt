//! Equations that are read.

ghost use Rattle.std.specs.Prelude.{◌≡◌};
ghost use Rattle.si_equations.specs.Equations as spec;
ghost use Rattle.si_equations_reader.specs.Held.{progress_now};

use crate::progress::Progress;

/// The equations of a text: its lists, and an equation for each signal that isn't an input.
#[derive(Drop)]
pub struct Equations<'a> {
    pub(crate) read: Progress<'a>,
    ghost signals: { read.signals ≡ spec.signals (progress_now read) },
}

impl<'a> Equations<'a> {
    /// All that is read.
    pub(crate) fn of(read: Progress<'a>) -> Equations<'a>
        requires { read.signals ≡ spec.signals (progress_now read) }
        ensures { result.read ≡ read.entry }
    {
        Equations { read }
    }
}
