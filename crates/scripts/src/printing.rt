//! Prints answers, refusals, bytes and replies, as `replay` shows them.
use crate::texts::AnswerText;
use elf32::write;
use kernel::{Answer, Refused};
use machine_model::{Image, Reply};
use std::alloc::{AllocError, Global};
use std::io;
use std::io::Write;

/// Prints a refusal; want of memory ends the run.
pub fn print_refusal<O: Write>(why: Refused, out: &mut O) -> io::Result<()> {
    match why {
        Refused::OutOfMemory => Err(io::Error::from(AllocError)),
        why => {
            let number = why.number();
            writeln!(out, "refused {number} {why:?}")
        }
    }
}

/// Prints what came of an event.
pub fn print_answer<O: Write>(answer: Result<Answer, Refused>, out: &mut O) -> io::Result<()> {
    match answer {
        Ok(answer) => {
            let answer = AnswerText(answer);
            writeln!(out, "{answer}")
        }
        Err(why) => print_refusal(why, out),
    }
}

/// Bytes as pairs of hexadecimal digits, or `-` for none.
pub fn bytes_text(alloc: Global, bytes: &[u8]) -> Result<String, AllocError> {
    if bytes.is_empty() {
        String::from_str(alloc, "-")
    } else {
        hex::encode(alloc, bytes)
    }
}

/// Prints a word of a reply: eight digits, and a space.
fn print_word<O: Write>(word: u32, out: &mut O) -> io::Result<()> {
    write!(out, "{word:08x} ")
}

/// Prints a reply that entered a program: 0, and the bytes of a file that holds the program's image. They need not be those of the
/// file that was executed, which may place its segments elsewhere.
fn print_image<O: Write>(alloc: Global, image: &Image, out: &mut O) -> io::Result<()> {
    let file = write(alloc, image)?;
    let digits = bytes_text(alloc, file.as_slice())?;
    print_word(0, out)?;
    writeln!(out, "image {digits}")
}

/// Prints a reply: a0, and its bytes after the place where they go, or `-` for none; or the image that it brings.
pub fn print_reply<O: Write>(alloc: Global, reply: &Reply, out: &mut O) -> io::Result<()> {
    if let Some(image) = reply.image() {
        return print_image(alloc, image, out);
    }
    let bytes = bytes_text(alloc, reply.bytes())?;
    print_word(reply.a0(), out)?;
    if !reply.bytes().is_empty() {
        print_word(reply.at(), out)?;
    }
    writeln!(out, "{bytes}")
}
