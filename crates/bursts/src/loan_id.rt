//! `LoanId`: which loan it is, of what is lent and of its result.

/// Which loan: of which process, its number among that process's loans, and for how many instructions.
#[derive(Clone, Copy)]
pub struct LoanId {
    pub pid: u32,
    pub number: u64,
    pub quantum: u32,
}
