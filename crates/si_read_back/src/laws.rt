//! The law of modules of cells that are read back. The function does nothing: its contract is the
//! law.

ghost use Rattle.si_read_back.specs.Laws.{StructuresAreReadBack};

/// The modules of a netlist over a library are read back: their text has no fault, the ports of the
/// controller are the inputs and outputs of the netlist, and for all values of all signals each of
/// its equations has the value of its gate. No gate has a complement at a pin, there is no reset
/// input, and the modules of the cells are small.
pub fn structures_are_read_back()
    ensures { StructuresAreReadBack }
{}
