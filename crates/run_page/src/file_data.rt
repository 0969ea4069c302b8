//! Files and their changes, as they stand in a page's JSON.
use serde::Serialize;

/// A file as it was at some time.
#[derive(Drop, Serialize)]
pub struct FileData {
    pub name: String,
    pub length: usize,
    /// Its first bytes, in hexadecimal digits.
    pub head: String,
    /// The first digits of the SHA-256 digest of all its bytes.
    pub digest: String,
}

/// What a change does with its file.
#[derive(Drop, Serialize)]
#[serde(tag = "does", rename_all = "lowercase")]
pub enum ChangeDeed {
    Make,
    Write { at: u32, bytes: u32 },
    Empty,
    Remove,
    Rename { to: String },
    /// It was made by no call that a page knows.
    Other,
}

/// A change, and the event and the process that made it.
#[derive(Drop, Serialize)]
pub struct ChangeData {
    pub e: u64,
    pub p: u32,
    pub file: String,
    #[serde(flatten)]
    pub deed: ChangeDeed,
}
