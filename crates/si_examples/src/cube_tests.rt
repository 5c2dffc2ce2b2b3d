//! Cubes by their bits. The sums of cubes are in the netlists of whole runs.

use si_base::ids::{Code, Sig};
use si_cube::cube::Cube;

/// Whether the cube has these signals and values.
fn is(cube: &Cube, care: u128, value: u128) -> bool {
    cube.care == Code(care) && cube.value == Code(value)
}

#[test]
fn cubes_of_two_signals(rt: HostRuntime) {
    let full = Cube::of_code(Code(0b01), 2);
    assert!(rt; is(&full, 0b11, 0b01));
    assert!(rt; full.covers(Code(0b01)) && !full.covers(Code(0b11)));
    let grown = full.supercube(Code(0b11));
    assert!(rt; is(&grown, 0b01, 0b01));
    assert!(rt; grown.covers(Code(0b11)) && !grown.covers(Code(0b10)));
    assert!(rt; is(&full.drop_literal(Sig(0)), 0b10, 0b00));
}

#[test]
fn full_cube_of_all_signals(rt: HostRuntime) {
    let full = Cube::of_code(Code(1 << 127), 128);
    assert!(rt; is(&full, u128::MAX, 1 << 127));
    assert!(rt; Cube::of_code(Code(5), 0).covers(Code(7)));
}
