//! The words of a script's lines: numbers, terminals and bytes. A word of another form gives None.
ghost use Rattle.std.specs.Prelude.{◌≡◌, ◌<◌, IfOk, IfSome, length, vec_len};
ghost use Rattle.kernel_model.specs.World.{terminal_count};

use byte_list::Bytes;
use disk_model::LONGEST_NAME;
use input_reading::{bytes_of, hexadecimal};
use kernel_model::TERMINALS;
use std::alloc::{AllocError, Global};

/// A terminal's number, 0 to 7.
#[derive(Clone, Copy)]
pub struct Terminal {
    pub number: u32,
    ghost there: { number < terminal_count },
}

/// The terminal of this number, if there is one.
pub fn terminal_of(number: u32) -> Option<Terminal> {
    if number < TERMINALS as u32 {
        Some(Terminal { number })
    } else {
        None
    }
}

/// The numbers of words of eight hexadecimal digits. None where one has no such form.
pub fn numbers_of(alloc: Global, texts: &[&str]) -> Result<Option<Vec<u32>>, AllocError>
    ensures { IfOk result (λ numbers. IfSome numbers (λ list. vec_len list ≡ length texts.now)) }
{
    let mut numbers = Vec::new(alloc);
    for text in texts {
        match hexadecimal(text) {
            Some(number) => numbers.push(number)?,
            None => return Ok(None),
        }
    }
    Ok(Some(numbers))
}

/// The bytes of a tape line or a crash line. None where they have no form.
pub fn only_bytes_of(alloc: Global, texts: &[&str]) -> Result<Option<Bytes>, AllocError> {
    match texts {
        [text] => bytes_of(alloc, text),
        _ => Ok(None),
    }
}

/// Whether a file may have this name: 1 to 32 bytes, each 0x21 to 0x7E and no slash.
pub fn is_file_name(word: &str) -> bool {
    !word.is_empty()
        && word.len() <= LONGEST_NAME as usize
        && word
            .bytes()
            .all(|byte| byte.is_ascii_graphic() && byte != b'/')
}
