//! On what a process waits, and who could end that.
use crate::calls_at::call_at;
use call_forms::Call;
use calls::KernelTables;
use formats::Reg;
use kernel_model::{Descriptor, PipeEnd};
use machine::Machine;

/// On what a process waits.
#[derive(Clone, Copy, PartialEq, Eq)]
pub enum Awaited {
    /// On bytes in the pipe of this number.
    Bytes(u32),
    /// On room in the pipe of this number.
    Room(u32),
    /// On the end of a child.
    Child,
}

/// On what a process waits that stands at a call with this machine. None where no such call ever waits.
pub fn awaited_at(tables: KernelTables<'_>, pid: u32, machine: &Machine) -> Option<Awaited> {
    if call_at(machine) == Some(Call::Wait) {
        return Some(Awaited::Child);
    }
    match tables.processes.descriptor(pid, machine.reg(Reg::new(10)))? {
        Descriptor::Pipe(PipeEnd::Read(pipe)) => Some(Awaited::Bytes(pipe)),
        Descriptor::Pipe(PipeEnd::Write(pipe)) => Some(Awaited::Room(pipe)),
        _ => None,
    }
}

/// Whether a process has an end of a pipe.
fn has_end(tables: KernelTables<'_>, pid: u32, end: PipeEnd) -> bool {
    let wanted = Some(Descriptor::Pipe(end));
    match tables.processes.descriptors(pid) {
        Some(descriptors) => descriptors.as_slice().iter().any(|it| *it == wanted),
        None => false,
    }
}

/// Whether another process could end what a process waits on: it has the other end of the pipe, or is a child that is left to collect.
pub fn could_end(tables: KernelTables<'_>, pid: u32, awaited: Awaited, other: u32) -> bool {
    match awaited {
        Awaited::Bytes(pipe) => has_end(tables, other, PipeEnd::Write(pipe)),
        Awaited::Room(pipe) => has_end(tables, other, PipeEnd::Read(pipe)),
        Awaited::Child => tables.processes.children(pid).contains(&other),
    }
}
