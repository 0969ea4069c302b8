//! Tests how the program ends where the host does not give the arguments, which no case can have.
use anyhow::{Error, ensure};
use case_format::check_text;
use std::alloc::Global;
use std::io::{self, ErrorKind};

/// Reasons why arguments cannot be read, and each with the program's status and the line that it says.
const ENDS: [(ErrorKind, u8, &str); 2] = [
    (ErrorKind::OutOfMemory, 5, "bench: out of memory\n"),
    (
        ErrorKind::InvalidData,
        1,
        "bench: an argument is not UTF-8\n",
    ),
];

/// Want of memory is status 5, and an argument that is no text a faulty command line.
pub fn check_lost_arguments(alloc: Global) -> Result<String, Error> {
    for (kind, status, line) in ENDS {
        let mut err = Vec::new(alloc);
        let ended = monitor::end_without_arguments(&io::Error::from(kind), &mut err);
        ensure!(ended == status, "the status was {ended}");
        check_text(str::from_utf8(&err)?, line)?;
    }
    Ok(String::from_str(alloc, "arguments that cannot be read")?)
}
