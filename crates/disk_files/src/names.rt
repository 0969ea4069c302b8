//! Names of files.
ghost use Rattle.std.specs.Prelude.{◌≡◌, true};
ghost use Rattle.std.specs.List.{AllByRecursion};
ghost use Rattle.disk_model.specs.Files.{IsName, IsNameByte, is_name_byte};

use disk_model::LONGEST_NAME;

fn is_name_byte(byte: u8) -> bool
    ensures { result ≡ is_name_byte byte }
{
    byte >= 33 && byte <= 126 && byte != b'/'
}

/// Whether each byte may stand in a file's name.
fn are_name_bytes(bytes: &[u8]) -> bool
    ensures { result ≡ true → AllByRecursion IsNameByte bytes.now }
{
    bytes.iter().all(|byte| is_name_byte(*byte))
}

/// Whether a file may have this name.
pub fn is_name(name: &[u8]) -> bool
    ensures { result ≡ true → IsName name.now }
{
    !name.is_empty() && name.len() <= LONGEST_NAME as usize && are_name_bytes(name)
}
