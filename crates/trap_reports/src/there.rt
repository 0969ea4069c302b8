//! What is at an address.
ghost use Rattle.std.specs.Prelude.{◌≡◌};
ghost use Rattle.trap_reports.specs.Places.{there_at};

use machine_model::{Bus, Width};
use memory::Space;
use std::fmt;

/// What a process has at an address.
#[derive(Clone, Copy, Debug, PartialEq, Eq)]
pub enum There {
    NoPage,
    /// A page that may be read, written or executed.
    Page {
        read: bool,
        write: bool,
        execute: bool,
    },
}

impl There {
    /// What a memory has at an address.
    pub fn at(space: &Space, at: u32) -> There
        ensures { result ≡ there_at space.now at }
    {
        if space.byte(at).is_none() {
            return There::NoPage;
        }
        There::Page {
            read: space.load(at, Width::Byte).is_ok(),
            write: space.store_fault(at, Width::Byte).is_none(),
            execute: space.fetch(at - at % 4).is_ok(),
        }
    }
}

fn letter(has: bool, letter: char) -> char {
    if has { letter } else { '-' }
}

impl fmt::Display for There {
    fn fmt<W: fmt::Write>(&self, f: &mut fmt::Formatter<W>) -> fmt::Result {
        match self {
            There::NoPage => f.write_str("where no page is"),
            There::Page {
                read,
                write,
                execute,
            } => {
                let read = letter(*read, 'r');
                let write = letter(*write, 'w');
                let execute = letter(*execute, 'x');
                write!(f, "in a page with the rights {read}{write}{execute}")
            }
        }
    }
}
