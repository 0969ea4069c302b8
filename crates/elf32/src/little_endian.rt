//! Half words written little-endian.
ghost use Rattle.std.specs.Prelude.{◌≡◌, ◌++◌, OnOk};
ghost use Rattle.elf32.specs.Files.{bytes_of_halves};

use std::alloc::AllocError;

/// Appends half words, each little-endian. An error leaves some of them appended.
pub fn put_halves(bytes: &mut Vec<u8>, halves: &[u16]) -> Result<(), AllocError>
    ensures { OnOk result (bytes.new.items ≡ bytes.old.items ++ bytes_of_halves halves.now) }
{
    for half in halves {
        bytes.extend_from_slice(&half.to_le_bytes())?;
    }
    Ok(())
}
