//! Items that are held back until they may be seen.
ghost use Rattle.std.specs.Prelude.{◌≡◌, ◌≤◌, ◌++◌, ◌∷◌, [], OnOk, IfOk, length};
ghost use Rattle.held_output.specs.Withheld.{released, holds_back, whats, all_held, nothing, IsSame};

use crate::marks::Marks;
use commit_deps::Mark;
use std::alloc::{AllocError, Global};
use std::marker::Model;

/// Items in order, each with the mark of the event that gave it. Released is the longest prefix of those that rest on committed
/// changes alone.
pub struct Withheld<T> {
    pub(crate) items: Vec<T>,
    pub(crate) marks: Marks,
}

impl<T: Drop> Drop for Withheld<T> {
    fn drop(self) {
        let Withheld {
            items: _items,
            marks: _marks,
        } = self;
    }
}

impl<T> Model for Withheld<T> {
    ghost use Rattle.std.specs.Prelude.{◌≡◌, ◌-◌, length, vec_capacity, vec_len};
    ghost use Rattle.held_output.specs.Withheld.{Withheld as Items, withheld_code, held_with, room_for};

    ghost Value = { Items T };

    ghost coded = { withheld_code T.code };

    ghost view = { λ w. record {
      items = held_with w.items.items w.marks.marks;
      committed = w.marks.committed;
      room = room_for (vec_capacity w.items - vec_len w.items) w.marks.room;
    } };

    ghost invariant = { λ w. length w.marks.marks ≡ length w.items.items };
}

impl<T> Withheld<T> {
    /// No items, where no change is committed. Takes no memory.
    pub fn new(alloc: Global) -> Withheld<T>
        ensures { result ≡ nothing }
    {
        Withheld {
            items: Vec::new(alloc),
            marks: Marks::new(alloc),
        }
    }

    /// The items that are released, which may be seen. Takes no memory.
    pub fn released(&self) -> &[T]
        ensures { result.now ≡ released self.now }
    {
        &self.items[..self.marks.count()]
    }

    /// All items, released or held back. Takes no memory.
    pub fn items(&self) -> &[T]
        ensures { result.now ≡ whats self.now.items }
    {
        &self.items
    }

    /// Whether some item is not released yet.
    pub fn holds_back(&self) -> bool
        ensures { result ≡ holds_back self.now }
    {
        self.marks.count() < self.items.len()
    }

    /// How many changes are committed, as `advance` said last; 0 before.
    pub fn committed(&self) -> u64
        ensures { result ≡ self.now.committed }
    {
        self.marks.committed()
    }

    /// Makes room for so many items more. Where memory runs out the items stay as they were.
    pub fn reserve(&mut self, count: usize) -> Result<(), AllocError>
        ensures room { OnOk result (count ≤ self.new.room) }
        ensures same { IsSame self.old self.new }
    {
        self.items.reserve(count)?;
        self.marks.reserve()
    }

    /// Appends an item of an event of this mark. Takes no memory.
    pub fn push(&mut self, item: T, mark: Mark)
        requires { 1 ≤ self.old.room }
        ensures items { self.new.items ≡ self.old.items ++ all_held mark (item ∷ []) }
        ensures committed { self.new.committed ≡ self.old.committed }
    {
        self.items.push(item).unwrap();
        self.marks.append(mark, 1);
    }

    /// Says how many changes are committed now: what rests on these alone is released. Looks at the runs of equal marks that
    /// were held back alone, unless the number fell. Takes no memory.
    pub fn advance(&mut self, committed: u64)
        ensures items { self.new.items ≡ self.old.items }
        ensures committed { self.new.committed ≡ committed }
    {
        self.marks.advance(committed);
    }
}

impl<T: Copy> Withheld<T> {
    /// Appends the items of an event of this mark. Takes no memory.
    pub fn extend(&mut self, items: &[T], mark: Mark)
        requires { length items.now ≤ self.old.room }
        ensures items { self.new.items ≡ self.old.items ++ all_held mark items.now }
        ensures committed { self.new.committed ≡ self.old.committed }
    {
        if !items.is_empty() {
            self.items.extend_from_slice(items).unwrap();
            self.marks.append(mark, items.len());
        }
    }

    /// The same items with their marks, in memory of their own. Refused for want of memory alone.
    pub fn try_clone(&self, alloc: Global) -> Result<Withheld<T>, AllocError>
        ensures items { IfOk result (λ copy. copy.items ≡ self.now.items) }
        ensures committed { IfOk result (λ copy. copy.committed ≡ self.now.committed) }
    {
        let mut items = Vec::new(alloc);
        items.extend_from_slice(&self.items)?;
        Ok(Withheld {
            items,
            marks: self.marks.try_clone(alloc)?,
        })
    }
}
