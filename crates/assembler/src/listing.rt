//! The listing of a program's text.
ghost use Rattle.std.specs.Prelude.{◌≡◌, ◌≤◌, length, IfOk};
ghost use Rattle.assembler.specs.Assembly.{rows_from};

use crate::filling::Cell;
use std::alloc::{AllocError, Global};
use std::marker::Model;

/// A word of text: its address, the word, and the line of its statement, from 1.
#[derive(Clone, Copy, Debug, PartialEq, Eq)]
pub struct ListingRow {
    pub address: u32,
    pub word: u32,
    pub line: usize,
}

/// The words of a program's text, in ascending order. A contract sees the list of its rows.
pub struct Listing {
    rows: Vec<ListingRow>,
}

impl Drop for Listing {
    fn drop(self) {
        let Listing { rows: _rows } = self;
    }
}

impl Model for Listing {
    ghost use Rattle.std.specs.Prelude.{List};
    ghost use Rattle.assembler.specs.declared.listing.ListingRow.{ListingRow};

    ghost Value = { List ListingRow };

    ghost view = { λ l. l.rows.items };
}

impl Listing {
    /// The rows, in ascending order of their addresses.
    pub fn rows(&self) -> &[ListingRow]
        ensures { result.now ≡ self.now }
    {
        self.rows.as_slice()
    }
}

/// The listing of words of text.
pub fn list_cells(alloc: Global, cells: &[Cell]) -> Result<Listing, AllocError>
    requires { length cells.now ≤ 61440 }
    ensures { IfOk result (λ l. l ≡ rows_from 65536 cells.now) }
{
    let mut rows = Vec::with_capacity(alloc, cells.len())?;
    let mut address: u32 = 65536;
    for cell in cells {
        rows.push(ListingRow {
            address,
            word: cell.word,
            line: cell.line,
        })?;
        address += 4;
    }
    Ok(Listing { rows })
}
