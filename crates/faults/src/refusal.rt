//! `Refusal`: what is refused, or fails. Its line stands beside it, and all else that is said of it in one table, `row`.
use crate::exploration::ExplorationFault;
use crate::fill::Fill;
use assembler::AsmFault;
use elf32::{ElfFault, LinkFault};
use journal::DiskFault;
use thiserror::Error;

/// What is refused, or fails. It prints as what stands after `bench:` in its line.
#[derive(Clone, Copy, Debug, Error)]
pub enum Refusal {
    #[error("an argument is not UTF-8")]
    Argument,
    /// The first line of the script that has no form, or that may not stand where it stands.
    #[error("script refused at line {line}")]
    Script { line: usize },
    #[error("script refused at line 1")]
    NoProgram,
    /// The event of this number has no cone: there is none, or it is one of the disk.
    #[error("event refused: {event}")]
    Event { event: u64 },
    #[error("process refused: NoProcess: no process {process} comes to be, of the programs and of what they fork")]
    Process { process: u32 },
    #[error("source refused: {number} {fault}")]
    Source { number: u8, fault: AsmFault },
    #[error("source refused: OtherImage: it assembles to another image than the one given")]
    OtherImage,
    /// A file that holds no image, and the first check that it fails.
    #[error("image refused: {number} {fault}")]
    Image { number: u8, fault: ElfFault },
    /// An executable that no image can be made of, and why.
    #[error("executable refused: {0}")]
    Linked(LinkFault),
    #[error("executable refused: the image would be written over it; name another file")]
    SameFile,
    /// The first line of a trace that is no reply.
    #[error("trace refused at line {line}")]
    Trace { line: usize },
    #[error("log refused: no line of it says an instruction, as those of bench exec --log do")]
    Log,
    #[error("logs differ at instruction {instruction}")]
    Logs { instruction: u64 },
    #[error("disk refused: 4 BadLength")]
    DiskLength,
    #[error("disk refused: {number} {fault:?}")]
    Disk { number: u8, fault: DiskFault },
    #[error("disk in use by another run")]
    DiskInUse,
    #[error("disk failed")]
    DiskFailed,
    /// A file that is not copied to a disk, or from it.
    #[error("file refused: NoFile: the disk has no file of this name; bench disk lists its files")]
    NoFile,
    #[error("file refused: BadName: a name has 1 to 32 bytes, each 0x21 to 0x7E, and no slash")]
    BadName,
    #[error("file refused: TooLong: a file has at most 16384 bytes")]
    TooLong,
    #[error("file refused: TooMany: the disk has 32 files")]
    TooMany,
    /// The first line of the expectations that has no form.
    #[error("expectations refused at line {line}")]
    Expectations { line: usize },
    /// The first crash whose outcome is not expected, as the line of its outcome names it: which boot began the run, from 1, the number
    /// of the event after which it came, and the fill.
    #[error("outcome not expected: boot {boot} event {event} fill {fill}")]
    NotExpected { boot: u64, event: u64, fill: Fill },
    #[error("{0}")]
    Exploration(ExplorationFault),
    /// A file that cannot be read, or a stream or a file that cannot be written.
    #[error("input or output failed")]
    InputOutput,
    /// A file that is to be text, and the place of its first byte that is none.
    #[error("input or output failed")]
    NoText { line: usize, column: usize },
    /// The streams of a run, or of a session, where the host's reason is not known any more.
    #[error("input or output failed")]
    Output,
    #[error("input or output failed")]
    Streams,
    /// What is said in full where it is found, and its exit status.
    #[error("refused")]
    Told { status: u8 },
}

/// Which file of a command a refusal is about, where it comes up without the file.
#[derive(Clone, Copy, PartialEq, Eq)]
pub enum Role {
    Script,
    Expectations,
    Disk,
    /// It comes up with its file, or is about none.
    Known,
}

/// Where in its file a refusal is, counted from 1.
#[derive(Clone, Copy)]
pub enum Place {
    Whole,
    Line(usize),
    /// A line, and a byte of it.
    Byte(usize, usize),
}

/// What is said of a refusal beside its line.
#[derive(Clone, Copy)]
pub struct Row {
    /// The exit status.
    pub status: u8,
    pub role: Role,
    pub place: Place,
    /// What is wrong, where no more is known; empty where the line says all.
    pub reason: &'static str,
}

impl Refusal {
    /// The table.
    pub fn row(self) -> Row {
        let whole = Place::Whole;
        let (status, role, place, reason) = match self {
            Refusal::Argument => (1, Role::Known, whole, ""),
            Refusal::Script { line } => {
                let reason = "has no form, or may not stand there";
                (2, Role::Script, Place::Line(line), reason)
            }
            Refusal::NoProgram => (2, Role::Script, whole, "it sets up no program"),
            Refusal::Event { .. } => {
                let reason = "since the last boot it has no such event, or that is one of the disk";
                (2, Role::Script, whole, reason)
            }
            Refusal::Source { fault, .. } => {
                (2, Role::Known, Place::Byte(fault.line, fault.column), "")
            }
            Refusal::Image { .. } => (2, Role::Script, whole, ""),
            Refusal::Trace { line } => (2, Role::Known, Place::Line(line), "is no reply"),
            Refusal::Process { .. }
            | Refusal::OtherImage
            | Refusal::Linked(_)
            | Refusal::SameFile
            | Refusal::Log
            | Refusal::NoFile
            | Refusal::BadName
            | Refusal::TooLong => (2, Role::Known, whole, ""),
            Refusal::TooMany => (2, Role::Disk, whole, ""),
            Refusal::Expectations { line } => {
                (2, Role::Expectations, Place::Line(line), "has no form")
            }
            Refusal::DiskLength | Refusal::Disk { .. } => (3, Role::Disk, whole, ""),
            Refusal::DiskFailed => {
                let reason = "a write failed, and no change after it is committed";
                (4, Role::Disk, whole, reason)
            }
            Refusal::DiskInUse => {
                let reason = "another run has this disk, and ends before the next may begin";
                (6, Role::Disk, whole, reason)
            }
            Refusal::InputOutput => (6, Role::Known, whole, ""),
            Refusal::NoText { line, column } => {
                let reason = "this byte is not UTF-8, and so the file is no text";
                (6, Role::Known, Place::Byte(line, column), reason)
            }
            Refusal::Output => (
                6,
                Role::Known,
                whole,
                "standard output could not be written",
            ),
            Refusal::Streams => {
                let reason =
                    "standard input could not be read as text, or standard output not be written";
                (6, Role::Known, whole, reason)
            }
            Refusal::Logs { .. }
            | Refusal::NotExpected { .. }
            | Refusal::Exploration(ExplorationFault::NotExpected { .. }) => {
                (7, Role::Known, whole, "")
            }
            Refusal::Exploration(_) => (8, Role::Known, whole, ""),
            Refusal::Told { status } => (status, Role::Known, whole, ""),
        };
        Row {
            status,
            role,
            place,
            reason,
        }
    }
}
