//! Group commit: many changes go to the disk in one record of a write-ahead log, and a crash keeps a prefix of them. Where the
//! log's half is full, a checkpoint of all files goes to the other half. Read `Committer` first: each call does exactly what
//! `disk_model/specs/Storage` says.
#![tactic(auto)]

mod committer;
mod copying;
mod pieces;
mod plan;
mod refusal;

pub use committer::Committer;
pub use refusal::CommitRefusal;
