//! The objects of JSON about a run. docs/EXEC.md has their schema.
use serde::Serialize;

#[derive(Drop, Serialize)]
pub struct RunObject {
    pub status: u8,
    /// `over`, `limit` or `deadlock`.
    pub ending: &'static str,
    pub instructions: u64,
    pub processes: Vec<ProcessObject>,
    pub terminals: Vec<TerminalObject>,
    pub files: Vec<FileObject>,
    pub disk: DiskObject,
}

#[derive(Drop, Serialize)]
pub struct ProcessObject {
    pub process: u32,
    /// `exited`, `trapped`, `waits` or `stopped`.
    pub state: &'static str,
    pub status: Option<u32>,
    /// Where it stands, in eight hexadecimal digits.
    pub pc: String,
    /// Of one that trapped or waits, why.
    pub why: Option<String>,
    pub instructions: u64,
    pub calls: Vec<CallObject>,
}

/// How often a process made a call.
#[derive(Drop, Serialize)]
pub struct CallObject {
    pub call: &'static str,
    pub count: u64,
}

/// A terminal that shows something.
#[derive(Drop, Serialize)]
pub struct TerminalObject {
    pub terminal: u32,
    /// What it shows, if that is text (UTF-8).
    pub text: Option<String>,
    pub hex: String,
}

#[derive(Drop, Serialize)]
pub struct FileObject {
    pub name: String,
    pub length: usize,
}

/// How many changes of files there were, and how many are on the disk.
#[derive(Drop, Serialize)]
pub struct DiskObject {
    pub changes: u64,
    pub committed: u64,
}
