//! `Naming`: the names of a run's ledgers, its board and its log of loans, which exist in proofs alone.
ghost use Rattle.std.specs.Prelude.{ℕ};

use board::Opening;
use notes::LogName;
use std::marker::{Brand, PhantomData};
use std::sync::ledger::Ledger;

/// The names of a run's four ledgers, beside that of its log of loans and the pair with which its board opens. They exist in proofs
/// alone. The caller of the one function that makes a run's board and bench picks them.
pub trait Naming: Opening + LogName {
    ghost events: { ℕ };

    ghost ran: { ℕ };

    ghost turns: { ℕ };

    ghost enters: { ℕ };
}

impl Naming for Brand {
    ghost events = { 0 };

    ghost ran = { 0 };

    ghost turns = { 0 };

    ghost enters = { 0 };
}

/// The ledger of events.
pub struct Events<N> {
    of: PhantomData<N>,
}

impl<N: Naming> Ledger for Events<N> {
    ghost name = { N.events };

    ghost parts = { 64 };
}

/// The ledger of the instructions that Turns ran.
pub struct Ran<N> {
    of: PhantomData<N>,
}

impl<N: Naming> Ledger for Ran<N> {
    ghost name = { N.ran };

    ghost parts = { 64 };
}

/// The ledger of the process numbers of Turns.
pub struct Turns<N> {
    of: PhantomData<N>,
}

impl<N: Naming> Ledger for Turns<N> {
    ghost name = { N.turns };

    ghost parts = { 64 };
}

/// The ledger of the process numbers of Enters.
pub struct Enters<N> {
    of: PhantomData<N>,
}

impl<N: Naming> Ledger for Enters<N> {
    ghost name = { N.enters };

    ghost parts = { 64 };
}
