//! Where a process calls the kernel, and what it asks for.
ghost use Rattle.std.specs.Prelude.{◌≡◌, IfOk, option_map};
ghost use Rattle.machine_model.specs.States.{stopped_at};
ghost use Rattle.run_events.specs.Records.{call_site_at, call_site, request_at, request};

use calls::request_of;
use formats::Reg;
use kernel::{Core, Event, Machine};
use kernel_model::Request;
use machine_model::Stop;
use std::alloc::{AllocError, Global};

/// A call or a trap: its address, and the registers of a call, a7 (its number) and a0 to a2.
#[derive(Clone, Copy)]
pub struct CallSite {
    pub stop: Stop,
    pub pc: u32,
    pub number: u32,
    pub arguments: [u32; 3],
}

fn call_site_at(machine: &Machine) -> Option<CallSite>
    ensures { result ≡ option_map (λ stop. call_site_at stop machine.now) (stopped_at machine.now) }
{
    match machine.stopped() {
        Some(stop) => Some(CallSite {
            stop,
            pc: machine.pc(),
            number: machine.reg(Reg::new(17)),
            arguments: [
                machine.reg(Reg::new(10)),
                machine.reg(Reg::new(11)),
                machine.reg(Reg::new(12)),
            ],
        }),
        None => None,
    }
}

/// The call or trap by which the process of an Enter enters the kernel. None of other events.
pub fn call_site(core: &Core, event: Event) -> Option<CallSite>
    ensures { result ≡ call_site core.now event }
{
    let Event::Enter { pid } = event else {
        return None;
    };
    match core.machine(pid) {
        Ok(machine) => call_site_at(machine),
        Err(_) => None,
    }
}

fn request_at(alloc: Global, machine: &Machine) -> Result<Option<Request>, AllocError>
    ensures { IfOk result (λ r. r ≡ request_at (stopped_at machine.now) machine.now) }
{
    match machine.stopped() {
        Some(Stop::Call) => Ok(Some(request_of(alloc, machine)?)),
        _ => Ok(None),
    }
}

/// What the process of an Enter asks for by its call. None of a trap and of other events.
pub fn request(alloc: Global, core: &Core, event: Event) -> Result<Option<Request>, AllocError>
    ensures { IfOk result (λ r. r ≡ request core.now event) }
{
    let Event::Enter { pid } = event else {
        return Ok(None);
    };
    match core.machine(pid) {
        Ok(machine) => request_at(alloc, machine),
        Err(_) => Ok(None),
    }
}
