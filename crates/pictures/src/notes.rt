//! Notes: rows across the whole picture that are no events, as of a crash. Each covers what stands below it.
ghost use Rattle.std.specs.Prelude.{◌≤◌, length};

use crate::columns::{EVENT_WIDTH, LEFT};
use crate::elements::{Look, Spot, full, write_bar, write_text};
use crate::heights::{ROW_HEIGHT, top_of};
use crate::page::Page;
use crate::picture::{Deed, Row};
use crate::rows::write_event;
use std::alloc::Global;
use std::io;
use std::io::Write;

/// How far a note begins before the first column, and ends after the last one.
const NOTE_MARGIN: u32 = 4;

/// Draws a note in the row at this place.
fn draw_note<O: Write>(
    alloc: Global,
    out: &mut O,
    page: &Page,
    row: &Row,
    place: usize,
    note: &[u8],
) -> io::Result<()>
    requires { place ≤ 400 }
{
    let top = top_of(place);
    let width = page.columns.width();
    let at = Spot {
        x: LEFT - NOTE_MARGIN,
        y: top,
    };
    let across = width - 2 * (LEFT - NOTE_MARGIN);
    write_bar(out, at, across, ROW_HEIGHT, full(Look::Call))?;
    write_event(alloc, out, row, top)?;
    let at = Spot {
        x: LEFT + EVENT_WIDTH,
        y: top + 20,
    };
    let room = width - 2 * LEFT - EVENT_WIDTH;
    write_text(alloc, out, at, full(Look::Plain), room, note)
}

/// Draws the rows that are notes.
pub fn draw_notes<O: Write>(alloc: Global, out: &mut O, page: &Page, rows: &[Row]) -> io::Result<()>
    requires { length rows.now ≤ 400 }
{
    for (place, row) in rows.iter().enumerate() {
        if let Deed::Note(note) = &row.deed {
            draw_note(alloc, out, page, row, place, note.as_bytes())?;
        }
    }
    Ok(())
}
