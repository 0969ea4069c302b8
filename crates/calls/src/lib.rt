//! The system calls of the kernel: what a process asks for, and what that comes to, before anything changes. Read `request_of` and
//! then `plan_call`. Its plan is the row of the table of calls, the definitions `Rows` of `kernel_model`. Each call has a file, with
//! its tests in the table's order.
#![tactic(auto)]

mod ends;
mod errno;
mod exec;
mod fork;
mod names;
mod open;
mod pipe;
mod plan;
mod read;
mod rename;
mod request;
mod row;
mod seek;
mod tables;
mod tapes;
mod unlink;
mod verdict;
mod wait;
mod write;

pub use ends::plan_end;
pub use kernel_model::{Descriptor, Output, PipeStep, Request, Slot, TapeRead, Verdict};
pub use plan::{CallPlan, plan_call};
pub use request::request_of;
pub use tables::KernelTables;
pub use tapes::TapeTable;
