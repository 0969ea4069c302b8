//! Bytes as they are shown in a picture.
use call_forms::BytesText;
use std::alloc::{AllocError, Global};

/// The first bytes, at most so many, and dots where there are more.
pub fn bytes_shown(alloc: Global, bytes: &[u8], most: usize) -> Result<String, AllocError> {
    let text = BytesText { bytes, most };
    format!(in alloc; "{text}")
}
