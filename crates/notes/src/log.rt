//! A log, and receipts for its entries.
ghost use Rattle.std.specs.Prelude.{◌≡◌, ◌++◌, ◌∷◌, [], true, IfSome, IfNone};
ghost use mathlib.Core.List.{IsPrefix};
ghost use Rattle.notes.specs.Logs.{head_of};

use crate::rule::{Asks, Counted, Entry, LogName, Nothing, Noting};
use logbook::{Offer, Seen, Start, Word};
use std::marker::{Model, PhantomData};

/// An empty log that has no name yet.
#[derive(Drop)]
pub struct Blank<E> {
    head: Word<E, u64, Counted>,
    pub seen: Seen<E, u64, Counted>,
    ghost empty: { seen.log ≡ [] },
    ghost head_is: { head ≡ head_of seen.book },
}

impl<E> Blank<E> {
    pub fn new() -> Blank<E> {
        let (seen, mut first, _second) = Seen::open(Start::alone(), 0, 0);
        Blank {
            head: Word::tracked(0, &mut first),
            seen,
        }
    }
}

/// A log, in the hands of the one who writes it. Contracts see it as its entries. At run time it is a number, how many they are.
#[derive(Drop)]
pub struct Log<E, N: LogName> {
    head: Word<E, u64, Counted>,
    len: u64,
    seen: Seen<E, u64, Counted>,
    of: PhantomData<N>,
}

impl<E, N: LogName> Model for Log<E, N> {
    ghost use Rattle.std.specs.Prelude.{◌≡◌, List, length};
    ghost use Rattle.notes.specs.Logs.{head_of};

    ghost Value = { List E };

    ghost view = { λ l. l.seen.log };

    ghost invariant = { λ l. (l.len ≡ length l.seen.log) × (l.seen.book ≡ N.book) × (l.head ≡ head_of N.book) };
}

/// Shows that the log had come to its entry: contracts see it as the log up to that. It may be handed to another thread.
#[derive(Drop)]
pub struct Receipt<E, N: LogName> {
    len: u64,
    seen: Seen<E, u64, Counted>,
    of: PhantomData<N>,
}

impl<E, N: LogName> Model for Receipt<E, N> {
    ghost use Rattle.std.specs.Prelude.{◌≡◌, List, length};

    ghost Value = { List E };

    ghost view = { λ r. r.seen.log };

    ghost invariant = { λ r. (r.len ≡ length r.seen.log) × (r.seen.book ≡ N.book) };
}

impl<E, N: LogName> Log<E, N> {
    /// An empty log under its name.
    pub fn open(blank: Blank<E>) -> Log<E, N>
        requires { blank.seen.book ≡ N.book }
        ensures { result ≡ [] }
    {
        let Blank { head, seen } = blank;
        Log {
            head,
            len: 0,
            seen,
            of: PhantomData,
        }
    }

    /// Notes the entry of a value, and gives a receipt for it. None where the log is as it was. That is so once it has 2^62 entries,
    /// and else it never is; no clause says so, since a book's length is known by its word alone.
    pub fn note<X, M: Entry<X, E>>(&mut self, about: &X) -> Option<Receipt<E, N>>
        ensures noted { IfSome result (λ r. (self.new ≡ self.old ++ M.entry_of about.now ∷ []) × (r ≡ self.new)) }
        ensures none { IfNone result (self.new ≡ self.old) }
    {
        if self.len >= MOST {
            return None;
        }
        let mut seen = self.seen.again();
        let mut offer: Offer<E, u64, Counted, Nothing> = seen.plain::<Nothing, X, Asks<M>>(about);
        let mut pen = seen.no_pen();
        let found = self
            .head
            .compare_exchange::<Noting, Nothing>(
                self.len,
                self.len + 1,
                &mut seen,
                &mut offer,
                &mut pen,
            );
        if found != self.len {
            return None;
        }
        self.len += 1;
        self.seen = seen;
        Some(Receipt {
            len: self.len,
            seen: self.seen.again(),
            of: PhantomData,
        })
    }

    /// Whether the log begins with what the receipt shows. It does for each receipt that this log gave; no clause says so.
    pub fn has(&self, receipt: &Receipt<E, N>) -> bool
        ensures { result ≡ true → IsPrefix receipt.now self.now }
    {
        let mut both = self.seen.again();
        both.learn(&receipt.seen);
        receipt.len <= self.len
    }
}

/// The most entries of a log.
const MOST: u64 = 1 << 62;
