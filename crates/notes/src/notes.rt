//! A list of notes, which clauses read and no code does.
ghost use Rattle.std.specs.Prelude.{◌≡◌, List, [], ◌∷◌, ◌++◌};
ghost use Rattle.std.specs.Borrow.{ftrue};

use std::marker::{Model, PhantomData};

/// Notes of what was done, in order. They have no bytes and take no memory, so there may be any number of them. Clauses read them
/// as `items`.
#[derive(Drop)]
pub struct Notes<T> {
    of: PhantomData<T>,
    pub ghost items: { List T },
}

impl<T> Model for Notes<T> {
    ghost also_owns = { λ _. ftrue };
}

// There is nothing in it that could be shared.
unsafe impl<T: Send> Send for Notes<T> {}

impl<T> Notes<T> {
    /// No notes.
    pub fn new() -> Notes<T>
        ensures { result.items ≡ [] }
    {
        Notes { of: PhantomData }
    }

    /// These notes and one more.
    pub fn and(&self, note: &T) -> Notes<T>
        ensures { result.items ≡ self.now.items ++ note.now ∷ [] }
    {
        Notes { of: PhantomData }
    }
}
