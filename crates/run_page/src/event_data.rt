//! Events, as they stand in a page's JSON.
use crate::place_data::PlaceData;
use serde::Serialize;
use std::collections::BTreeMap;

/// For what a process waits.
#[derive(Drop, Serialize)]
pub struct WaitData {
    /// `bytes`, `room` or `child`.
    #[serde(rename = "for")]
    pub what: &'static str,
    /// The pipe's number, from 0.
    pub pipe: Option<u32>,
    /// The processes that could end it: those that hold the other end, or the children.
    pub by: Vec<u32>,
}

/// What an event did.
#[derive(Drop, Serialize)]
#[serde(tag = "does", rename_all = "lowercase")]
pub enum EventDeed {
    Turn {
        ran: u32,
        stop: &'static str,
        /// The call or the trap to which it came.
        call: String,
    },
    Call {
        call: String,
        reply: i32,
        /// The first bytes that a call read, in hexadecimal digits.
        got: String,
    },
    Waits {
        call: String,
        waits: Option<WaitData>,
    },
    Ends {
        call: String,
        status: Option<u32>,
    },
    Cut {
        takes: u64,
    },
    Complete,
    Fail,
}

/// An event.
#[derive(Drop, Serialize)]
pub struct EventData {
    /// Its number since the boot, from 1.
    pub n: u64,
    /// The line of a script that applies it, and the answer, as `replay` prints it.
    pub line: String,
    pub answer: String,
    /// Its process, 0 for the disk.
    pub p: u32,
    #[serde(flatten)]
    pub deed: EventDeed,
    /// Where its process is after it; none for the disk.
    pub at: Option<PlaceData>,
    /// How many changes are made, and how many are committed, after it.
    pub changes: u64,
    pub committed: u64,
    /// Of each process with an event in its cone, the last of these. An event of the disk has none. All events of a process up to
    /// that one are in the cone, but for those that waited.
    pub cone: BTreeMap<u32, u64>,
    /// What a crash after it leaves, for each fill: the files after so many changes.
    pub crash: Vec<Option<u64>>,
}
