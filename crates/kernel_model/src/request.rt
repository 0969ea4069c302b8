//! What processes ask for by their calls, and what a call tells its caller.
use byte_list::Bytes;
use machine_model::Reply;

/// What a process asks for by the call at which it stands. Bytes that are too many, or that it may not read itself, are
/// None.
#[derive(Drop)]
pub enum Request {
    /// The process ends.
    Exit {
        status: u32,
    },
    /// n bytes are written through a descriptor.
    Write {
        fd: u32,
        n: u32,
        bytes: Option<Bytes>,
    },
    /// The file with a name of n bytes is opened: to be read (mode 0), to be written as it stands (1), or to be made or
    /// emptied, and written (2).
    Open {
        n: u32,
        mode: u32,
        name: Option<Bytes>,
    },
    /// At most n bytes are read through a descriptor, to this place; `fits` says that they are not too many, and that the
    /// process may write them there itself.
    Read {
        fd: u32,
        at: u32,
        n: u32,
        fits: bool,
    },
    /// A descriptor is closed.
    Close {
        fd: u32,
    },
    /// A pipe is made, and its two descriptors written to this place; `fits` says that the process may write there itself.
    Pipe {
        at: u32,
        fits: bool,
    },
    /// A new process is made, as this one is.
    Fork,
    /// A child that has ended is collected, and its status written to this place, unless that is 0; `fits` says that it is
    /// 0, or that the process may write there itself.
    Wait {
        at: u32,
        fits: bool,
    },
    /// The process asks for its own number.
    GetPid,
    /// A file is read or written next at this offset through a descriptor.
    Seek {
        fd: u32,
        offset: u32,
    },
    /// The process asks that its changes of files be stored.
    Sync,
    /// The file with a name of n bytes loses it.
    Unlink {
        n: u32,
        name: Option<Bytes>,
    },
    /// The file with a name of n bytes gets a name of m bytes; `names` is both, the old one first.
    Rename {
        n: u32,
        m: u32,
        names: Option<Bytes>,
    },
    /// The process goes on from the first state of the image that the file with a name of n bytes holds.
    Exec {
        n: u32,
        name: Option<Bytes>,
    },
    /// A call of no number of the table.
    Unknown,
}

/// What a call tells its caller.
#[derive(Drop)]
pub enum Verdict {
    /// Nothing: it has to wait.
    Waits,
    /// A reply.
    Replies(Reply),
    /// That it has ended, with a status: 0 to 255, or 256 plus the number of a trap's cause.
    Ends(u32),
}
