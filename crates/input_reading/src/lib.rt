//! What the program is given to read. `bytes_in` and `image_file_in` read a file of the host, no further than what is asked of it
//! needs: so also a file without an end is refused. The other functions read a word of a line: a number, bytes or a register. Only safety is
//! proved.
#![tactic(auto)]

mod image_file;
mod limited;
mod registers;
mod words;

pub use image_file::image_file_in;
pub use limited::{MOST_TAPE_BYTES, bytes_in};
pub use registers::{numbered_register, register_named};
pub use words::{
    bytes_of, decimal, decimal_word, hex_bytes, hex_number, hex_word, hexadecimal, printed_decimal,
};
