//! Where a process is, as it stands in a page's JSON.
use serde::Serialize;
use std::collections::BTreeMap;

/// Where a process is after an event of its own, or at its begin.
#[derive(Drop, Serialize)]
pub struct PlaceData {
    /// The program counter, in eight hexadecimal digits.
    pub pc: String,
    /// The instruction there, and its line in the source or its function, as far as they are known, each after a comma.
    pub next: String,
    /// The registers that the event changed, or at the begin those that are not zero: by their numbers, in eight hexadecimal digits.
    pub regs: BTreeMap<u32, String>,
}
