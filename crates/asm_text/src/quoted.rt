//! The contents of a string.
ghost use Rattle.std.specs.Prelude.{◌≡◌, ◌≤◌, IfOk, IfSome, false, length};
ghost use Rattle.std.specs.Option.{option_map};
ghost use Rattle.asm_text.specs.Scan.{escaped, contents_from};

use byte_list::Bytes;
use std::alloc::{AllocError, Global};

/// The byte that an escape gives, by the byte after its `\`.
fn escaped(byte: u8) -> Option<u8>
    ensures { result ≡ escaped byte }
{
    match byte {
        b'n' => Some(b'\n'),
        b't' => Some(b'\t'),
        b'0' => Some(0),
        b'\\' => Some(b'\\'),
        b'"' => Some(b'"'),
        _ => None,
    }
}

/// Reads a string from the byte after its opening quote up to its closing quote. Gives its contents, and how many bytes they and
/// the quote take in the source. None where the bytes begin no string.
pub fn contents(alloc: Global, bytes: &[u8]) -> Result<Option<(Bytes, usize)>, AllocError>
    ensures value { IfOk result (λ found. found ≡ contents_from false bytes.now) }
    ensures bound { IfOk result (λ found. IfSome found (λ f. f.1 ≤ length bytes.now)) }
{
    let mut contents = Vec::new(alloc);
    let mut escaping = false;
    for (i, byte) in bytes.iter().enumerate() {
        if escaping {
            let Some(meant) = escaped(*byte) else {
                return Ok(None);
            };
            contents.push(meant)?;
            escaping = false;
        } else {
            match *byte {
                b'"' => return Ok(Some((Bytes::new(contents), i + 1))),
                b'\\' => escaping = true,
                b' '..=b'~' => contents.push(*byte)?,
                _ => return Ok(None),
            }
        }
    }
    Ok(None)
}
