//! Names of files.
ghost use Rattle.std.specs.Prelude.{◌≡◌};
ghost use Rattle.disk_model.specs.Files.{is_name_byte};
ghost use Rattle.std.specs.List.{list_all};
ghost use Rattle.kernel_model.specs.Limits.{AreNumbered};
ghost use Rattle.kernel_model.specs.Rows.{directory, is_bad_length, number_named};

use disk_model::LONGEST_NAME;
use files::FileTable;

/// Whether no name has so many bytes.
pub fn is_bad_length(n: u32) -> bool
    ensures { result ≡ is_bad_length n }
{
    n == 0 || n > LONGEST_NAME
}

/// Whether a byte may stand in a file's name: 0x21 to 0x7E, and no slash.
fn is_name_byte(byte: u8) -> bool
    ensures { result ≡ is_name_byte byte }
{
    byte >= 33 && byte <= 126 && byte != b'/'
}

/// Whether each byte may stand in a file's name.
pub fn is_name(bytes: &[u8]) -> bool
    ensures { result ≡ list_all is_name_byte bytes.now }
{
    bytes.iter().all(|byte| is_name_byte(*byte))
}

/// The number of the file of a name; None where no file that lives has it. Takes no memory.
pub fn number_named(files: &FileTable, name: &[u8]) -> Option<u64>
    requires { AreNumbered files.now }
    ensures { result ≡ number_named (directory files.now) name.now }
{
    let place = files.find(name)?;
    Some(files.number(place))
}
