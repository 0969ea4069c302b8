//! Texts in a file of XML.
ghost use Rattle.std.specs.Prelude.{◌≡◌, ℕ, ◌++◌, List, None, true, map, IfOk, OnOk};
ghost use Rattle.std.specs.List.{flat_map, list_all};
ghost use Rattle.pictures.specs.Escapes.{drawn, entity, read_on, is_plain};

use std::alloc::{AllocError, Global};

/// Adds what stands for a byte.
fn push_escaped(out: &mut Vec<u8>, byte: u8) -> Result<(), AllocError>
    ensures { OnOk result (out.new.items ≡ out.old.items ++ entity byte) }
{
    match byte {
        b'&' => out.extend_from_slice(b"&amp;"),
        b'<' => out.extend_from_slice(b"&lt;"),
        b'>' => out.extend_from_slice(b"&gt;"),
        b'"' => out.extend_from_slice(b"&quot;"),
        b' '..=b'~' => Ok(out.push(byte)?),
        _ => Ok(out.push(b'.')?),
    }
}

/// A text as it stands in a file of XML, between two tags or between quotes. A byte that is no printable ASCII becomes a dot. Fails for
/// want of memory alone.
pub fn escaped(alloc: Global, text: &[u8]) -> Result<Vec<u8>, AllocError>
    ensures { IfOk result (λ out. out.items ≡ flat_map entity text.now) }
{
    let mut out = Vec::new(alloc);
    for byte in text {
        push_escaped(&mut out, *byte)?;
    }
    Ok(out)
}

/// The law of escaping: a reader of XML reads back each text, with dots for what is no printable ASCII; and nothing in it begins or
/// ends a tag or ends a quoted text.
pub fn escapes_are_read_back()
    ensures back { (text : List ℕ) → read_on None (flat_map entity text) ≡ map drawn text }
    ensures plain { (text : List ℕ) → list_all is_plain (flat_map entity text) ≡ true }
{}
