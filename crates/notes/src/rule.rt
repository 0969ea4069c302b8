//! The rule of a log's book, and what its one step tells.
use logbook::{Gain, Plain, Play, Rule};
use std::marker::Brand;

/// Which log it is. It exists in proofs alone, and the caller that opens the log picks it.
pub trait LogName {
    ghost use Rattle.logbook.specs.Pages.{Book};

    ghost book: { Book };
}

impl LogName for Brand {
    ghost book = { record { number = 0; log_name = 0; cells_name = 0 } };
}

/// What is noted of a value: an entry of the log.
pub trait Entry<X, E> {
    ghost entry_of: { X → E };
}

/// The rule of the book: its first word is the length of the log.
pub struct Counted;

impl<E> Rule<E, u64> for Counted {
    ghost use Rattle.std.specs.Prelude.{[]};
    ghost use base.Fml.{ftrue};
    ghost use Rattle.notes.specs.Logs.{IsCounted};

    ghost holds = { λ cells log. IsCounted cells log };

    ghost first = { [] };

    ghost hinted = { λ n log. Unit {0} };

    ghost shows = { λ log. [] };

    ghost keeps = { λ names log. ftrue };

    ghost moves = { λ ask before after answer. Unit {0} };
}

/// Whoever notes an entry trades nothing for it.
pub(crate) struct Nothing;

impl<E> Gain<E, u64> for Nothing {
    ghost use base.Fml.{ftrue};

    ghost after = { λ names about answer. ftrue };
}

/// An entry is noted.
pub(crate) struct Noting;

impl<E> Play<E, u64> for Noting {
    ghost use Rattle.notes.specs.Logs.{Adds};

    ghost then = { Adds };
}

/// What a step asks for: the entry of a value.
pub(crate) struct Asks<M> {
    of: std::marker::PhantomData<M>,
}

impl<X, E, M: Entry<X, E>> Plain<X, E, u64> for Asks<M> {
    ghost use Rattle.std.specs.Prelude.{None};

    ghost ask = { M.entry_of };

    ghost state = { λ x. None };
}
