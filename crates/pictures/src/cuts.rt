//! What a picture says of what it does not draw.
ghost use Rattle.std.specs.Prelude.{◌≡◌, ◌+◌, ◌-◌, ◌≤◌, take, drop, vec_len};
ghost use Rattle.std.specs.List.{count_by};
ghost use Rattle.pictures.specs.Rows.{is_event};

use crate::columns::{LEFT, MOST_PROCESSES};
use crate::elements::{Look, Spot, full, write_text};
use crate::heights::TOP;
use crate::page::Page;
use crate::picture::{Deed, Picture, Row};
use crate::window::Window;
use std::alloc::Global;
use std::io;
use std::io::Write;

/// The height of a line that says what is not drawn.
const LINE_HEIGHT: u32 = 14;

/// Whether a row is an event, and no note.
fn is_event(row: &Row) -> bool
    ensures { result ≡ is_event row.now }
{
    !matches!(row.deed, Deed::Note(_))
}

/// How many of these rows are events.
fn events_in(rows: &[Row]) -> usize
    ensures { result ≡ count_by is_event rows.now }
{
    rows.iter().filter(|row| is_event(row)).count()
}

/// What of a picture is not drawn: so many events before its first row, so many after its last one, and so many processes.
#[derive(Clone, Copy)]
pub struct Cut {
    pub before: usize,
    pub after: usize,
    pub processes: usize,
}

/// What of a picture is not drawn.
pub fn cut_of(window: &Window, picture: &Picture) -> Cut
    requires { window.now.first + window.now.count ≤ vec_len picture.now.rows }
    ensures before { result.before ≡ count_by is_event (take window.now.first picture.now.rows.items) }
    ensures after { result.after ≡ count_by is_event (drop (window.now.first + window.now.count) picture.now.rows.items) }
    ensures processes { result.processes ≡ picture.now.processes - 16 }
{
    let rows = picture.rows.as_slice();
    Cut {
        before: events_in(&rows[..window.first]),
        after: events_in(&rows[window.first + window.count..]),
        processes: picture.processes.saturating_sub(MOST_PROCESSES) as usize,
    }
}

/// How many pixels the line takes that says how many are not drawn, if any are not.
fn line_height(count: usize) -> u32
    ensures { result ≤ 14 }
{
    if count > 0 { LINE_HEIGHT } else { 0 }
}

impl Cut {
    /// How many pixels the lines below the rows take.
    pub fn height(&self) -> u32
        ensures { result ≤ 28 }
    {
        line_height(self.after) + line_height(self.processes)
    }
}

/// Says how many are not drawn, if any are not.
fn write_cut<O: Write>(
    alloc: Global,
    out: &mut O,
    y: u32,
    count: usize,
    what: &str,
) -> io::Result<()> {
    if count == 0 {
        return Ok(());
    }
    let at = Spot { x: LEFT, y };
    let text = format!(in alloc; "{count} {what} not drawn")?;
    write_text(alloc, out, at, full(Look::Bold), 400, text.as_bytes())
}

/// Says what is not drawn: the events before the first row above it, and the others below the last row.
pub fn write_cuts<O: Write>(alloc: Global, out: &mut O, page: &Page, cut: &Cut) -> io::Result<()> {
    let end = page.window.end();
    let last = end + cut.height();
    write_cut(alloc, out, TOP - 3, cut.before, "events before these are")?;
    write_cut(
        alloc,
        out,
        end + LINE_HEIGHT,
        cut.after,
        "events after these are",
    )?;
    write_cut(alloc, out, last, cut.processes, "processes are")
}
