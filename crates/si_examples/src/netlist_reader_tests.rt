//! Netlist texts that are read and written back. The line and the kind of each fault are tried by
//! whole runs.

use si_base::text::Text;
use si_netlist::write::write_netlist;
use si_netlist_reader::reader::read_netlist;
use std::alloc::Global;
use std::process::Abort;
use std::test::Fail;

/// The C-element, by its majority function.
const MAJORITY: &[u8] = b".model c2
.inputs a b
.outputs c
.internal
.inserted
.start 000
.gates
c sum a b + b c + a c
.end
";

/// The read cycle of a VME bus controller, with an inserted signal.
const VME: &[u8] = b".model vme
.inputs DSr LDTACK
.outputs D DTACK LDS
.internal
.inserted csc0
.start 000001
.insert csc0 up s6 down s1
.gates
D sum LDTACK csc0'
DTACK sum D
LDS sum csc0' + D
csc0 sum DSr' + LDTACK csc0
.end
";

/// The same, with library cells.
const VME_CELLS: &[u8] = b".model vme
.inputs DSr LDTACK
.outputs D DTACK LDS
.internal
.inserted csc0
.start 000001
.insert csc0 up s6 down s1
.gates
D cell AND2 LDTACK csc0' : LDTACK csc0'
DTACK cell BUF D : D
LDS cell OR2 D csc0' : D + csc0'
csc0 cell C2 DSr' LDTACK : DSr' LDTACK + DSr' csc0 + LDTACK csc0
.end
";

/// The three-input C-element of two cells.
const TREE: &[u8] = b".model c3
.inputs a b c
.outputs z
.internal
.inserted map0
.start 00000
.insert map0 up l110 l111 down h001 h000
.gates
z cell C2 c map0 : c map0 + c z + z map0
map0 cell C2 a b : a b + a map0 + b map0
.end
";

/// Generalised C-elements, sums without literals and without cubes, a cell without pins, and no
/// signal at all.
const ODD: &[u8] = b".model {#}
.inputs a
.outputs x y z
.internal w
.inserted
.start 00101
.gates
x gc a | a'
y sum 1 + 1
z cell TIE : 0
w sum 1 + a
.end
";

const EMPTY: &[u8] = b".model m
.inputs
.outputs
.internal
.inserted
.start
.gates
.end
";

fn rewritten(alloc: Global, text: &[u8]) -> Result<Text, Fail> {
    let netlist = read_netlist(alloc, text)?;
    Ok(write_netlist(alloc, &netlist)?)
}

/// Says that the text is written back in version 2, and that again as it is.
fn expect_written_back(rt: &impl Abort, alloc: Global, text: &[u8]) -> Result<(), Fail> {
    let written = rewritten(alloc, text)?;
    assert_eq!(rt; written.bytes().strip_prefix(b".version 2\n"), Some(text));
    assert_eq!(rt; rewritten(alloc, written.bytes())?.bytes(), written.bytes());
    Ok(())
}

#[test]
fn netlists_read_and_written_back(rt: HostRuntime) -> Result<(), Fail> {
    let alloc = rt.alloc();
    for text in [MAJORITY, VME, VME_CELLS, TREE, ODD, EMPTY] {
        expect_written_back(&rt, alloc, text)?;
    }
    Ok(())
}
