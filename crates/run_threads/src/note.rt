//! What a desk notes of its calls. The notes exist in proofs alone.
use bursts::LoanId;
use kernel::{Answer, Event, Refused};

/// What one call came to.
#[derive(Clone, Copy)]
pub enum Note {
    /// A loan was asked for, and there was none.
    Idle,
    /// A loan was asked for, and given.
    Given(LoanId),
    /// A loan was asked for, and refused.
    Refused(Refused),
    /// A loan's result was handed in, and taken back, with this answer.
    Accepted(LoanId, Answer),
    /// A loan's result was handed in, and not taken back.
    Rejected(LoanId, Refused),
    /// An event, and what was answered to it.
    Applied(Event, Result<Answer, Refused>),
    /// It was asked where the first write in flight begins.
    First(Option<u32>),
    /// The writes in flight were asked for, and so many were given.
    InFlight(usize),
    /// It was asked whether a Cut is wanted.
    WantsCut(bool),
    /// It was asked whether the work is over for a quantum.
    Over(u32, bool),
    /// Stop was said.
    Stopped,
}
