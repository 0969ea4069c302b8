//! `Told`: what the bench told a worker. It exists in proofs alone.
use kernel::Refused;

/// One answer of the bench, by which a worker had no loan, or to whether the work is over.
#[derive(Clone, Copy)]
pub enum Told {
    /// A loan was asked for, and there was none.
    Idle,
    /// A loan was asked for, and refused.
    Refused(Refused),
    /// It was asked whether the work is over.
    Over(bool),
}
