//! JSON in an element of HTML.
ghost use Rattle.std.specs.Prelude.{◌≡◌, ℕ, ◌++◌, List, true, IfOk, OnOk};
ghost use Rattle.std.specs.List.{flat_map, list_all};
ghost use Rattle.run_page.specs.Embedding.{embedded_byte, is_calm};

use std::alloc::{AllocError, Global};

/// Adds what stands for a byte.
fn push_embedded(out: &mut Vec<u8>, byte: u8) -> Result<(), AllocError>
    ensures { OnOk result (out.new.items ≡ out.old.items ++ embedded_byte byte) }
{
    match byte {
        b'&' => out.extend_from_slice(b"\\u0026"),
        b'<' => out.extend_from_slice(b"\\u003c"),
        b'>' => out.extend_from_slice(b"\\u003e"),
        _ => Ok(out.push(byte)?),
    }
}

/// JSON as it stands in an element of HTML. Three signs are written by their numbers: they stand in strings alone, where JSON has that.
/// Fails for want of memory alone.
pub fn embedded(alloc: Global, json: &[u8]) -> Result<Vec<u8>, AllocError>
    ensures { IfOk result (λ out. out.items ≡ flat_map embedded_byte json.now) }
{
    let mut out = Vec::new(alloc);
    for byte in json {
        push_embedded(&mut out, *byte)?;
    }
    Ok(out)
}

/// The law of embedding: nothing in what was embedded begins or ends a tag. So no name and no output of a program ends its element.
pub fn embedded_is_plain()
    ensures { (json : List ℕ) → list_all is_calm (flat_map embedded_byte json) ≡ true }
{}
