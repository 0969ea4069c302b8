//! `WorkFault`: why a worker's turn fails, at a desk as at a seat of a pool.
use kernel::{Refused, Rejected};

/// Why a worker's turn failed.
#[derive(Drop)]
pub enum WorkFault {
    /// The loan was refused.
    Lend(Refused),
    /// The loan's result was not taken back.
    Settle(Rejected),
}
