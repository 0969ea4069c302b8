//! The rows: each event with its answer, and what its process did.
ghost use Rattle.std.specs.Prelude.{◌≤◌, length};

use crate::columns::{CALL_MARGIN, EVENT_WIDTH, LEFT};
use crate::elements::{Look, Spot, Style, full, write_bar, write_line, write_text};
use crate::heights::top_of;
use crate::page::Page;
use crate::picture::{Deed, Row};
use crate::widths::{DOTS, fitting, width_of};
use std::alloc::{AllocError, Global};
use std::io;
use std::io::Write;

/// How far a row's answer stands to the right of its event.
const INDENT: u32 = 14;

/// A look, pale where the row is.
fn style_in(row: &Row, look: Look) -> Style {
    Style {
        look,
        pale: row.pale,
    }
}

/// Writes a row's event and its answer, where the row begins at this height.
pub fn write_event<O: Write>(alloc: Global, out: &mut O, row: &Row, top: u32) -> io::Result<()>
    requires { top ≤ 20000 }
{
    let at = Spot {
        x: LEFT,
        y: top + 14,
    };
    let style = style_in(row, Look::Plain);
    write_text(alloc, out, at, style, EVENT_WIDTH, row.label.as_bytes())?;
    let at = Spot {
        x: LEFT + INDENT,
        y: top + 26,
    };
    let style = style_in(row, Look::Small);
    write_text(
        alloc,
        out,
        at,
        style,
        EVENT_WIDTH - INDENT,
        row.answer.as_bytes(),
    )
}

/// What a process's call says, cut so that what came of it fits beside it.
fn call_line(alloc: Global, call: &[u8], outcome: &[u8], room: u32) -> Result<Vec<u8>, AllocError> {
    let mut line = Vec::new(alloc);
    let count = fitting(call, room.saturating_sub(width_of(outcome)));
    line.extend_from_slice(&call[..count])?;
    if count < call.len() {
        line.extend_from_slice(DOTS)?;
    }
    line.extend_from_slice(outcome)?;
    Ok(line)
}

/// Draws a call in a box that begins here.
fn write_call<O: Write>(
    alloc: Global,
    out: &mut O,
    at: Spot,
    width: u32,
    pale: bool,
    line: &[u8],
) -> io::Result<()>
    requires x { at.x ≤ 20000 }
    requires y { at.y ≤ 20100 }
    requires wide { 6 ≤ width }
{
    let Spot { x, y } = at;
    let look = Style {
        look: Look::Call,
        pale,
    };
    write_bar(out, at, width, 24, look)?;
    let at = Spot {
        x: x + CALL_MARGIN,
        y: y + 15,
    };
    let look = Style {
        look: Look::Plain,
        pale,
    };
    write_text(alloc, out, at, look, width - CALL_MARGIN, line)
}

/// Draws what a row's process did, where the row begins at this height.
fn write_deed<O: Write>(
    alloc: Global,
    out: &mut O,
    page: &Page,
    row: &Row,
    top: u32,
) -> io::Result<()>
    requires { top ≤ 20000 }
{
    match &row.deed {
        Deed::Disk | Deed::Note(_) => Ok(()),
        Deed::Turn { process } => match page.columns.process(*process) {
            Some(x) => write_bar(
                out,
                Spot { x, y: top + 2 },
                6,
                28,
                style_in(row, Look::Turn),
            ),
            None => Ok(()),
        },
        Deed::Call {
            process,
            call,
            outcome,
        } => match page.columns.process(*process) {
            Some(x) => {
                let width = page.columns.call_width;
                let room = width - 2 * CALL_MARGIN;
                let line = call_line(alloc, call.as_bytes(), outcome.as_bytes(), room)?;
                let at = Spot { x, y: top + 1 };
                write_call(alloc, out, at, width, row.pale, line.as_slice())
            }
            None => Ok(()),
        },
    }
}

/// Draws the line of a commit, with how many changes are committed then.
fn write_commit<O: Write>(
    alloc: Global,
    out: &mut O,
    page: &Page,
    committed: u64,
    top: u32,
) -> io::Result<()>
    requires { top ≤ 20000 }
{
    let width = page.columns.width();
    let from = Spot {
        x: LEFT + EVENT_WIDTH - 6,
        y: top + 20,
    };
    write_line(out, from, width - LEFT, full(Look::Commit))?;
    let at = Spot {
        x: width - 84,
        y: top + 16,
    };
    let text = format!(in alloc; "{committed} committed")?;
    write_text(alloc, out, at, full(Look::Small), 74, text.as_bytes())
}

/// Draws the row at this place.
fn draw_row<O: Write>(
    alloc: Global,
    out: &mut O,
    page: &Page,
    row: &Row,
    place: usize,
) -> io::Result<()>
    requires { place ≤ 400 }
{
    if matches!(row.deed, Deed::Note(_)) {
        return Ok(());
    }
    let top = top_of(place);
    write_event(alloc, out, row, top)?;
    write_deed(alloc, out, page, row, top)?;
    match row.committed {
        Some(committed) => write_commit(alloc, out, page, committed, top),
        None => Ok(()),
    }
}

/// Draws the rows that are events.
pub fn draw_rows<O: Write>(alloc: Global, out: &mut O, page: &Page, rows: &[Row]) -> io::Result<()>
    requires { length rows.now ≤ 400 }
{
    for (place, row) in rows.iter().enumerate() {
        draw_row(alloc, out, page, row, place)?;
    }
    Ok(())
}
