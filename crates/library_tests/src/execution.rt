//! Tests of `isa_table`: instructions on a memory of 64 bytes, which keeps the laws of `Bus` as pages do.
use crate::asserting::assert_row;
use crate::flat_bus::FlatBus;
use formats::{Immediate, Instr, LoadOperator, Reg};
use isa_table::{Outcome, Regs, exec};
use machine_model::{Cause, Width};

/// What is loaded from where 0x80818283 was stored over bytes of 0x11: how much was stored, the load, and its value.
const LOADED: &[(Width, LoadOperator, u32)] = &[
    (Width::Byte, LoadOperator::Lb, 0xffff_ff83),
    (Width::Byte, LoadOperator::Lbu, 0x83),
    (Width::Byte, LoadOperator::Lw, 0x1111_1183),
    (Width::Half, LoadOperator::Lh, 0xffff_8283),
    (Width::Half, LoadOperator::Lhu, 0x8283),
    (Width::Half, LoadOperator::Lw, 0x1111_8283),
    (Width::Word, LoadOperator::Lw, 0x8081_8283),
];

/// Loads that end in a trap: the address, and the cause.
const REFUSED: &[(LoadOperator, u32, Cause)] = &[
    (LoadOperator::Lw, 64, Cause::PageFault),
    (LoadOperator::Lb, 0x8000_0000, Cause::PageFault),
    (LoadOperator::Lh, 61, Cause::MisalignedData),
    (LoadOperator::Lw, 0x7fff_fffe, Cause::MisalignedData),
];

/// Registers with this address in x1, and what is stored in x2.
fn registers(at: u32) -> Regs {
    let mut x = [0; 32];
    x[1] = at;
    x[2] = 0x8081_8283;
    Regs { x, pc: 0x0001_0000 }
}

/// A load from the address in x1.
fn load(operator: LoadOperator) -> Instr {
    Instr::Load {
        operator,
        rd: Reg::new(3),
        rs1: Reg::new(1),
        imm: Immediate::new(0),
    }
}

/// A store of x2 there.
fn store(width: Width) -> Instr {
    Instr::Store {
        width,
        rs1: Reg::new(1),
        rs2: Reg::new(2),
        imm: Immediate::new(0),
    }
}

#[test]
fn stores_and_loads(rt: HostRuntime) {
    for &(width, operator, value) in LOADED {
        let mut bus = FlatBus { bytes: [0x11; 64] };
        let mut regs = registers(60);
        let stored = exec(&mut regs, &mut bus, store(width));
        let loaded = exec(&mut regs, &mut bus, load(operator));
        let found = (stored, loaded, regs.x[3]);
        assert_row(
            &rt,
            &load(operator),
            found,
            (Outcome::Next, Outcome::Next, value),
        );
    }
}

#[test]
fn refuses(rt: HostRuntime) {
    for &(operator, at, cause) in REFUSED {
        let mut bus = FlatBus { bytes: [0; 64] };
        let outcome = exec(&mut registers(at), &mut bus, load(operator));
        assert_row(&rt, &load(operator), outcome, Outcome::Trap(cause));
    }
}
