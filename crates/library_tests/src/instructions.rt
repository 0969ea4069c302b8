//! Tests of `formats`: the ends of fields. Words and texts are cases, in `instructions.sessions`.
use crate::asserting::assert_row;
use formats::{Instr, Reg};

/// Numbers, and whether they fit the fields of ADDI, BEQ, JAL, LUI and SLLI.
const FIELDS: &[(i64, [bool; 5])] = &[
    (-1048578, [false, false, false, false, false]),
    (-1048576, [false, false, true, false, false]),
    (-4098, [false, false, true, false, false]),
    (-4096, [false, true, true, false, false]),
    (-2049, [false, false, false, false, false]),
    (-2048, [true, true, true, false, false]),
    (-1, [true, false, false, false, false]),
    (0, [true, true, true, true, true]),
    (31, [true, false, false, true, true]),
    (32, [true, true, true, true, false]),
    (2047, [true, false, false, true, false]),
    (2048, [false, true, true, true, false]),
    (4094, [false, true, true, true, false]),
    (4096, [false, false, true, true, false]),
    (1048574, [false, false, true, true, false]),
    (1048575, [false, false, false, true, false]),
    (1048576, [false, false, false, false, false]),
];

/// Which of five fields a number fits.
fn fits(number: i64) -> [bool; 5] {
    let zero = Reg::new(0);
    [
        Instr::addi(zero, zero, number).is_ok(),
        Instr::beq(zero, zero, number).is_ok(),
        Instr::jal(zero, number).is_ok(),
        Instr::lui(zero, number).is_ok(),
        Instr::slli(zero, zero, number).is_ok(),
    ]
}

#[test]
fn ends_of_the_fields(rt: HostRuntime) {
    for &(number, fields) in FIELDS {
        assert_row(&rt, number, fits(number), fields);
    }
}
