//! Outputs, as they stand in a page's JSON.
use serde::Serialize;

/// What an event wrote to a terminal.
#[derive(Drop, Serialize)]
pub struct OutputData {
    pub e: u64,
    pub t: u32,
    /// The bytes, in hexadecimal digits.
    pub hex: String,
    /// How many changes it rests on, or an output before it on the same terminal does. It is shown once they are committed.
    pub needs: u64,
    /// By which event it was shown, 0 where it was not.
    pub shown: u64,
}
