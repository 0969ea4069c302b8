//! `Recorded`: what a recorder finds of its process: replies, its end, that it waits, or nothing yet.
use machine_model::Reply;

/// What a recorder finds of its process.
#[derive(Drop)]
pub enum Recorded {
    /// The replies of its trace that were not taken before, in order. There is at least one.
    Replies(Vec<Reply>),
    /// The process ended with this status. Each reply was taken.
    Ended(u32),
    /// The process waits for what nobody will do: no process runs on. Each reply was taken.
    Waits,
    /// Nothing yet: as many loans were done as were asked for, each with an event at least.
    Going,
}
