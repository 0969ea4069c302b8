//! Prints registers by their names: all of them, or those that changed.
use debugger::Machine;
use formats::Reg;
use std::alloc::Global;
use std::io;
use std::io::Write;
use timeline::SessionFault;

const REGISTERS: u8 = 32;

/// Prints a register that changed, with the value before and the value after.
fn print_changed<O: Write>(register: Reg, before: u32, after: u32, out: &mut O) -> io::Result<()> {
    if before == after {
        Ok(())
    } else {
        writeln!(out, "  {register} {before:08x} -> {after:08x}")
    }
}

/// Prints the registers that changed, a line each.
pub fn print_changed_registers<O: Write>(
    before: &Machine,
    after: &Machine,
    out: &mut O,
) -> io::Result<()> {
    for number in 0..REGISTERS {
        let register = Reg::new(number);
        print_changed(register, before.reg(register), after.reg(register), out)?;
    }
    Ok(())
}

/// What is printed after the register of this number: the end of the line after each fourth one, else blanks.
fn end_of(number: u8) -> &'static str {
    if number % 4 == 3 { "\n" } else { "  " }
}

/// Prints a register's name and its value in columns.
fn print_column<O: Write>(
    alloc: Global,
    register: Reg,
    value: u32,
    out: &mut O,
) -> Result<(), SessionFault> {
    let name = format!(in alloc; "{register}")?;
    let end = end_of(register.number());
    Ok(write!(out, "{name:<4} {value:08x}{end}")?)
}

/// Prints all registers.
pub fn print_registers<O: Write>(
    alloc: Global,
    machine: &Machine,
    out: &mut O,
) -> Result<(), SessionFault> {
    for number in 0..REGISTERS {
        let register = Reg::new(number);
        print_column(alloc, register, machine.reg(register), out)?;
    }
    Ok(())
}
