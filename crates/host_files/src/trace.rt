//! `read_trace`: reads a trace, the replies that a debugged program's calls take.
use elf32::{ElfFault, parse};
use faults::{Fault, Refusal};
use input_reading::{bytes_of, hexadecimal};
use machine_model::Reply;
use std::alloc::{AllocError, Global};

/// The reply of a number, with bytes for a place. None where `digits` are not those of bytes.
fn plain_reply(alloc: Global, a0: u32, at: u32, digits: &str) -> Result<Option<Reply>, AllocError> {
    match bytes_of(alloc, digits)? {
        Some(bytes) => Ok(Some(Reply::with_bytes(alloc, a0, at, bytes)?)),
        None => Ok(None),
    }
}

/// The reply of a call that entered a program. None where `digits` are not those of an image's file.
fn image_reply(alloc: Global, digits: &str) -> Result<Option<Reply>, AllocError> {
    let Some(file) = bytes_of(alloc, digits)? else {
        return Ok(None);
    };
    match parse(alloc, file.as_slice()) {
        Ok(image) => Ok(Some(Reply::with_image(alloc, image)?)),
        Err(ElfFault::OutOfMemory) => Err(AllocError),
        Err(_) => Ok(None),
    }
}

/// The reply of a number, with bytes for a place, as `AT HEX`. None where `stored` has no such form.
fn placed_reply(alloc: Global, a0: u32, stored: &str) -> Result<Option<Reply>, AllocError> {
    match stored.split_once(' ') {
        Some(("image", digits)) if a0 == 0 => image_reply(alloc, digits),
        Some((at, digits)) => match hexadecimal(at) {
            Some(at) => plain_reply(alloc, a0, at, digits),
            None => Ok(None),
        },
        None => Ok(None),
    }
}

/// The reply of a line. None where the line has no form of a reply.
fn reply_of(alloc: Global, line: &str) -> Result<Option<Reply>, AllocError> {
    let Some((a0, stored)) = line.split_once(' ') else {
        return Ok(None);
    };
    match (hexadecimal(a0), stored) {
        (Some(a0), "-") => plain_reply(alloc, a0, 0, "-"),
        (Some(a0), stored) => placed_reply(alloc, a0, stored),
        (None, _) => Ok(None),
    }
}

/// Reads the trace of the file at a path, a line for each reply. `A0 -` and `A0 AT HEX` are replies of a number, without and with bytes. `00000000 image
/// HEX` is the reply of a call which entered a program, with the bytes of the program's file. A0 and AT are eight hexadecimal
/// digits; HEX is pairs of such digits, or `-` for no bytes. Lines are counted from 1 and end at a line feed. Empty lines and those
/// that begin with `#` are skipped. Refused is the first line that has no such form, or whose file is no image; or OutOfMemory.
pub fn read_trace(alloc: Global, path: &str, text: &str) -> Result<Vec<Reply>, Fault> {
    let mut replies = Vec::new(alloc);
    let mut number = 0usize;
    for line in text.split('\n') {
        number = number.saturating_add(1);
        if !line.is_empty() && !line.starts_with('#') {
            match reply_of(alloc, line)? {
                Some(reply) => replies.push(reply)?,
                None => {
                    let refusal = Refusal::Trace { line: number };
                    return Err(Fault::of_line(alloc, refusal, line).at(alloc, path));
                }
            }
        }
    }
    Ok(replies)
}
