//! Two threads of a run beside its workers: one commits what output waits for, and one writes out what terminals show. Read `Desk`
//! first, where whoever commits asks for it and a worker without a pool gets its loans, one at a time, and then `worker_turn`,
//! `CommitThread` and `Screen`. A desk keeps a record in proofs alone: the contract of each call, and of a turn, says what it adds
//! there. Of a `CommitThread` with a file it is proved that it tells its core of no write but by stages. Of `Screen`, and of `Watch`,
//! which tells the threads when the work is over and keeps the first fault, only safety is proved.
#![tactic(auto)]

mod account;
mod backoff;
mod board_reader;
mod committing;
mod copies;
mod desk;
mod fault;
mod locked;
mod note;
mod screen;
mod transcript;
mod watch;
mod worker;

pub use board_reader::BoardReader;
pub use bursts::{Done, Gate, Loan, LoanId, Rejected, WorkFault};
pub use committing::CommitThread;
pub use desk::{Desk, LockedDesk};
pub use fault::RunFault;
pub use note::Note;
pub use screen::Screen;
pub use watch::Watch;
pub use worker::{Turned, worker_turn};
