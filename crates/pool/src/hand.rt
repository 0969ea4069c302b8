//! `Hand`: what a pass of the queue of results, or of a deque of loans, shows.
use bursts::LoanId;
use std::collections::LinkedList;

/// What a pass put in and what it took, in order: of each, which loan it is, or of which loan it is the result. It exists in proofs
/// alone: no value of it is made.
pub struct Hand {
    pub put: LinkedList<LoanId>,
    pub taken: LinkedList<LoanId>,
}
