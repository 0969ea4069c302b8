//! The address that an instruction names.
ghost use Rattle.std.specs.Prelude.{◌≡◌};
ghost use Rattle.trap_reports.specs.Named.{beside, named_by};

use formats::{Immediate, Instr, Reg};
use isa_table::moved;
use machine::Machine;

/// The address that a register and an immediate name.
fn beside(machine: &Machine, register: Reg, imm: Immediate) -> u32
    ensures { result ≡ beside machine.now.architectural register imm }
{
    moved(machine.reg(register), imm.value())
}

/// The address that an instruction of a machine names: that of a load or a store, or of the instruction to which a jump or a branch
/// goes. None for any other.
pub fn named_by(machine: &Machine, instr: Instr) -> Option<u32>
    ensures { result ≡ named_by instr machine.now.architectural }
{
    match instr {
        Instr::Load { rs1, imm, .. } | Instr::Store { rs1, imm, .. } => {
            Some(beside(machine, rs1, imm))
        }
        Instr::Jalr { rs1, imm, .. } => {
            let at = beside(machine, rs1, imm);
            Some(at - at % 2)
        }
        Instr::Jal { offset, .. } => Some(moved(machine.pc(), offset.value())),
        Instr::Branch { offset, .. } => Some(moved(machine.pc(), offset.value())),
        _ => None,
    }
}
