//! A reset input of a netlist, and the outputs that it forces.

ghost use Rattle.std.specs.Prelude.{◌≡◌, ◌<◌, All, IfErr, IfOk};
ghost use Rattle.si_base.specs.Limits.{max_signals};
ghost use Rattle.si_resettable.specs.Forcing.{IsForcing};
ghost use Rattle.si_resettable.specs.Refusals as refusals;
ghost use Rattle.si_resettable.specs.Refusals.{Shows};

use crate::refusal::Unresettable;
use si_base::ids::Sig;
use si_base::text::Name;
use si_netlist::netlist::Netlist;
use si_settled::forced::forced;
use si_words::words::is_signal_name;
use std::alloc::Global;
use std::marker::Model;

/// A reset input, and the signals that it forces to their start values.
#[derive(Drop)]
pub struct Forcing {
    name: Name,
    forced: Vec<Sig>,
}

impl Model for Forcing {
    ghost use Rattle.std.specs.Prelude.{◌<◌, All};
    ghost use Rattle.si_base.specs.Limits.{max_signals};
    ghost use Rattle.si_resettable.specs.Forcing as spec;

    ghost Value = { spec.Forcing };

    ghost view = { λ f. record { name = f.name; forced = f.forced.items } };

    ghost invariant = { λ f. All (λ z. z < max_signals) f.forced.items };
}

impl Forcing {
    /// The reset input of that name for the netlist: it forces the outputs by which the netlist
    /// comes to its start values.
    ///
    /// # Errors
    ///
    /// `NotAName` where it isn't a name that a signal may have, `NameIsTaken` where it is that of
    /// a signal of the netlist. `NoMemory` where memory runs out.
    pub fn of(alloc: Global, netlist: &Netlist, name: &[u8]) -> Result<Forcing, Unresettable>
        ensures named { IfOk result (λ f. f.name ≡ name.now) }
        ensures is { IfOk result (IsForcing netlist.now) }
        ensures err { IfErr result (Shows netlist.now name.now) }
    {
        if !is_signal_name(name) {
            return Err(Unresettable::NotAName);
        }
        if is_taken(netlist, name) {
            return Err(Unresettable::NameIsTaken);
        }
        Ok(Forcing {
            name: Name::copy_of(alloc, name)?,
            forced: forced(alloc, netlist)?,
        })
    }

    /// The name of the input.
    pub fn name(&self) -> &[u8]
        ensures { result.now ≡ self.now.name }
    {
        self.name.bytes()
    }

    /// The signals that it forces.
    pub fn forced(&self) -> &[Sig]
        ensures same { result.now ≡ self.now.forced }
        ensures narrow { All (λ z. z < max_signals) self.now.forced }
    {
        self.forced.as_slice()
    }
}

/// Whether a signal of the netlist has the name.
fn is_taken(netlist: &Netlist, name: &[u8]) -> bool
    ensures { result ≡ refusals.is_taken netlist.now name.now }
{
    netlist.signals().iter().any(|x| x.name.bytes() == name)
}
