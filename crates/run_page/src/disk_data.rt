//! Writes of the disk, as they stand in a page's JSON.
use serde::Serialize;

/// A write, from when it was submitted.
#[derive(Drop, Serialize)]
pub struct WriteData {
    pub at: u32,
    pub bytes: usize,
    /// What it writes: `record` or `gate`, and of a checkpoint also `closing` and `switch`.
    pub what: &'static str,
    /// Of which group it is, from 1.
    pub group: u64,
    /// The event by which it was submitted.
    pub from: u64,
    /// The event by which it was complete or failed, 0 where it was neither.
    pub to: u64,
    pub failed: bool,
}
