//! How a process stands.

/// How a process stands. It tells a scheduler whether to lend it, and never a reply's value or an exit's status.
#[derive(Clone, Copy, Debug, PartialEq, Eq)]
pub enum Standing {
    /// It has ended, by a call or a trap, whether or not its end is handed out.
    Ended,
    /// It is out on loan.
    Lent,
    /// Its last Enter had to wait, and so had each Enter since, of whichever process.
    Waits,
    /// None of these.
    Free,
}
