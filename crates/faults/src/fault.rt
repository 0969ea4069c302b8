//! `Fault`: why the program ends early.
use crate::exploration::ExplorationFault;
use crate::reason::{Why, said_of_line};
use crate::refusal::{Place, Refusal, Role};
use elf32::{ElfFault, LinkFault};
use journal::DiskFault;
use simdisk::DiskRefusal;
use std::alloc::{AllocError, AllocFailed, Global};
use std::{fmt, io};
use thiserror::Error;

/// Why the program ends before its end. It prints as the line of its exit status; `ForPeople` has all of it.
#[derive(Debug, Drop, Error)]
pub enum Fault {
    /// What is refused, or fails; the file that it is about; and what is wrong. The last two are missing where they are not known.
    #[error("bench: {refusal}")]
    Refused {
        refusal: Refusal,
        path: Option<String>,
        why: Option<Why>,
    },
    #[error("bench: out of memory")]
    OutOfMemory,
}

impl Fault {
    /// What is refused, and what a text says of it, of a file that is not known yet.
    pub fn saying(refusal: Refusal, text: Result<String, AllocError>) -> Fault {
        match text {
            Ok(text) => Fault::Refused {
                refusal,
                path: None,
                why: Some(Why::Said(text)),
            },
            Err(_) => Fault::OutOfMemory,
        }
    }

    /// What a text says in full, and the exit status.
    pub fn told(text: String, status: u8) -> Fault {
        Fault::saying(Refusal::Told { status }, Ok(text))
    }

    /// What is refused of the file at a path, and why.
    pub fn of_file(alloc: Global, refusal: Refusal, path: &str, why: &str) -> Fault {
        Fault::saying(refusal, String::from_str(alloc, why)).at(alloc, path)
    }

    /// What is refused for a line, which has this text.
    pub fn of_line(alloc: Global, refusal: Refusal, line: &str) -> Fault {
        Fault::saying(refusal, said_of_line(alloc, line, refusal.row().reason))
    }

    /// The same fault, of the file at a path, unless it names a file already.
    pub fn at(self, alloc: Global, path: &str) -> Fault {
        match self {
            Fault::Refused {
                refusal,
                path: None,
                why,
            } => match String::from_str(alloc, path) {
                Ok(path) => Fault::Refused {
                    refusal,
                    path: Some(path),
                    why,
                },
                Err(_) => Fault::OutOfMemory,
            },
            fault => fault,
        }
    }

    /// The same fault; of the file at a path, if it is about the file of this role of a command.
    pub fn of(self, alloc: Global, role: Role, path: &str) -> Fault {
        match &self {
            Fault::Refused { refusal, .. } if refusal.row().role == role => self.at(alloc, path),
            _ => self,
        }
    }

    /// The exit status, 1 to 8.
    pub fn status(&self) -> u8 {
        match self {
            Fault::Refused { refusal, .. } => refusal.row().status,
            Fault::OutOfMemory => 5,
        }
    }

    /// Whether it is this refusal of a disk's file, for which a caller may have another cure.
    pub fn is_in_use(&self) -> bool {
        matches!(
            self,
            Fault::Refused {
                refusal: Refusal::DiskInUse,
                ..
            }
        )
    }

    /// Whether it says no more than that a standard stream failed. `is_closed` says that nobody reads the output any more.
    pub fn is_of_closed(&self, is_closed: bool) -> bool {
        match self {
            Fault::Refused {
                path: None,
                why: Some(Why::System(error)),
                ..
            } => error.kind() == io::ErrorKind::BrokenPipe,
            Fault::Refused {
                refusal: Refusal::Output | Refusal::Streams,
                ..
            } => is_closed,
            _ => false,
        }
    }
}

/// A fault, as a person is told of it: the file, the place there, and what is wrong. A place in a file is written as editors read it.
#[derive(Clone, Copy)]
pub struct ForPeople<'a>(pub &'a Fault);

/// Writes the file and the place.
fn write_place<W: fmt::Write>(
    f: &mut fmt::Formatter<W>,
    path: Option<&str>,
    place: Place,
) -> fmt::Result {
    match (place, path) {
        (Place::Byte(line, byte), Some(path)) => write!(f, "{path}:{line}:{byte}: error: "),
        (Place::Line(line), Some(path)) => write!(f, "{path}:{line}: error: "),
        (Place::Whole, Some(path)) => write!(f, "bench: {path}: "),
        (Place::Line(line), None) => write!(f, "bench: line {line}: "),
        (_, None) => f.write_str("bench: "),
    }
}

impl fmt::Display for ForPeople<'_> {
    fn fmt<W: fmt::Write>(&self, f: &mut fmt::Formatter<W>) -> fmt::Result {
        let Fault::Refused { refusal, path, why } = self.0 else {
            return f.write_str(
                "bench: the host gave no more memory, or no thread; or the run has 2^40 events",
            );
        };
        let row = refusal.row();
        let path = path.as_ref().map(|path| path.as_str());
        write_place(f, path, row.place)?;
        match (why, refusal) {
            (Some(Why::System(error)), _) if path.is_none() => {
                write!(f, "standard input or output: {error}")
            }
            (Some(Why::System(error)), _) => write!(f, "{error}"),
            (Some(Why::Said(text)), _) => f.write_str(text.as_str()),
            (None, Refusal::Disk { fault, .. }) => write!(f, "{fault}"),
            (None, refusal) if row.reason.is_empty() => write!(f, "{refusal}"),
            (None, _) => f.write_str(row.reason),
        }
    }
}

/// What a call of the host came to that is about the file at a path.
pub fn at_path<T: Drop>(alloc: Global, path: &str, done: io::Result<T>) -> Result<T, Fault> {
    match done {
        Ok(done) => Ok(done),
        Err(error) => Err(Fault::from(error).at(alloc, path)),
    }
}

impl From<AllocError> for Fault {
    fn from(_error: AllocError) -> Fault {
        Fault::OutOfMemory
    }
}

impl<T: Drop> From<AllocFailed<T>> for Fault {
    fn from(_failed: AllocFailed<T>) -> Fault {
        Fault::OutOfMemory
    }
}

impl From<Refusal> for Fault {
    fn from(refusal: Refusal) -> Fault {
        Fault::Refused {
            refusal,
            path: None,
            why: None,
        }
    }
}

impl From<ExplorationFault> for Fault {
    fn from(fault: ExplorationFault) -> Fault {
        Fault::from(Refusal::Exploration(fault))
    }
}

impl From<ElfFault> for Fault {
    fn from(fault: ElfFault) -> Fault {
        match fault {
            ElfFault::OutOfMemory => Fault::OutOfMemory,
            fault => Fault::from(Refusal::Image {
                number: fault.number(),
                fault,
            }),
        }
    }
}

impl From<LinkFault> for Fault {
    fn from(fault: LinkFault) -> Fault {
        match fault {
            LinkFault::OutOfMemory => Fault::OutOfMemory,
            fault => Fault::from(Refusal::Linked(fault)),
        }
    }
}

impl From<DiskFault> for Fault {
    fn from(fault: DiskFault) -> Fault {
        match fault {
            DiskFault::OutOfMemory => Fault::OutOfMemory,
            fault => Fault::from(Refusal::Disk {
                number: fault.number(),
                fault,
            }),
        }
    }
}

/// A disk is made of a file's bytes, or of zeros: so it is refused for its length, or for want of memory.
impl From<DiskRefusal> for Fault {
    fn from(refusal: DiskRefusal) -> Fault {
        match refusal {
            DiskRefusal::BadLength => Fault::from(Refusal::DiskLength),
            _ => Fault::OutOfMemory,
        }
    }
}

impl From<io::Error> for Fault {
    fn from(error: io::Error) -> Fault {
        match error.kind() {
            io::ErrorKind::OutOfMemory => Fault::OutOfMemory,
            _ => Fault::Refused {
                refusal: Refusal::InputOutput,
                path: None,
                why: Some(Why::System(error)),
            },
        }
    }
}
