//! Names of instances, and of the nets that inverters and gates of forced signals drive.

ghost use Rattle.std.specs.Prelude.{◌≡◌, IfOk};
ghost use Rattle.si_structure.specs.StructureText as structure;

use si_base::ids::NoMemory;
use si_base::text::Text;
use std::alloc::Global;

/// The name of the instance for the gate of a signal. It fails only where memory runs out.
pub(crate) fn instance_name(alloc: Global, name: &[u8]) -> Result<Text, NoMemory>
    ensures { IfOk result (λ made. made ≡ structure.instance_name name.now) }
{
    let mut made = Text::copy_of(alloc, name)?;
    made.add(b"$gate")?;
    Ok(made)
}

/// The name of the inverter at a pin of the gate of a signal. It fails only where memory runs out.
pub(crate) fn inverter_name(alloc: Global, name: &[u8], pin: &[u8]) -> Result<Text, NoMemory>
    ensures { IfOk result (λ made. made ≡ structure.inverter_name name.now pin.now) }
{
    let mut made = Text::copy_of(alloc, name)?;
    made.add(b"$")?;
    made.add(pin)?;
    made.add(b"$inverter")?;
    Ok(made)
}

/// The net that the inverter at a pin of the gate of a signal drives. It fails only where memory
/// runs out.
pub(crate) fn inverted_net(alloc: Global, name: &[u8], pin: &[u8]) -> Result<Text, NoMemory>
    ensures { IfOk result (λ made. made ≡ structure.inverted_net name.now pin.now) }
{
    let mut made = Text::copy_of(alloc, name)?;
    made.add(b"$")?;
    made.add(pin)?;
    made.add(b"$inverted")?;
    Ok(made)
}

/// The net that the gate of a forced signal drives. It fails only where memory runs out.
pub(crate) fn free_net(alloc: Global, name: &[u8]) -> Result<Text, NoMemory>
    ensures { IfOk result (λ made. made ≡ structure.free_net name.now) }
{
    let mut made = Text::copy_of(alloc, name)?;
    made.add(b"$free")?;
    Ok(made)
}
