//! The column of the disk: a bar for each write in flight.
ghost use Rattle.std.specs.Prelude.{◌<◌, ◌≤◌, IfSome};

use crate::elements::{Look, Spot, full, write_bar, write_text};
use crate::heights::top_of;
use crate::page::Page;
use crate::picture::{Flight, Picture};
use crate::window::Window;
use std::alloc::{AllocError, Global};
use std::io;
use std::io::Write;

/// The most bars that stand beside each other; further writes of a row take the first places again.
pub const MOST_BARS: u32 = 4;

/// The width of a bar.
pub const BAR_WIDTH: u32 = 10;

/// How far below its row's top a bar begins, and one ends.
const BAR_EDGE: u32 = 20;

/// How far below its row's top the label of a row's first write stands, and the lower one of two labels.
const UPPER_LABEL: u32 = 18;

const LOWER_LABEL: u32 = 30;

/// In how many bars beside each other the writes stand that are drawn.
pub fn bars_of(window: &Window, flights: &[Flight]) -> u32
    ensures { result ≤ 4 }
{
    let drawn = flights
        .iter()
        .filter(|flight| window.place_of(flight.row).is_some());
    let most = drawn.map(|flight| flight.batch).max().unwrap_or(0);
    most.min(MOST_BARS as usize) as u32
}

/// Where a write begins, and how many bytes it has; of the second of three or more writes, how many there are beside the first.
pub fn flight_label(alloc: Global, flight: &Flight) -> Result<String, AllocError> {
    let Flight {
        at,
        bytes,
        batch,
        ..
    } = *flight;
    if flight.index == 1 && batch > 2 {
        let others = batch - 1;
        return format!(in alloc; "and {others} more");
    }
    if bytes == 1 {
        return format!(in alloc; "{at}: 1 byte");
    }
    format!(in alloc; "{at}: {bytes} bytes")
}

/// How far below its row's top a write's label stands. None for a write that has no label.
fn label_place(flight: &Flight) -> Option<u32>
    ensures { IfSome result (λ place. place ≤ 30) }
{
    match flight.index {
        0 if flight.batch > 1 => Some(UPPER_LABEL),
        0 | 1 => Some(LOWER_LABEL),
        _ => None,
    }
}

/// Writes the label of a write, if it has one.
fn write_label<O: Write>(
    alloc: Global,
    out: &mut O,
    page: &Page,
    flight: &Flight,
    top: u32,
) -> io::Result<()>
    requires { top ≤ 20000 }
{
    let Some(place) = label_place(flight) else {
        return Ok(());
    };
    let bars = BAR_WIDTH * page.columns.disk_bars;
    let at = Spot {
        x: page.columns.disk() + bars + 4,
        y: top + place,
    };
    let room = page.columns.disk_width - bars - 4;
    let label = flight_label(alloc, flight)?;
    write_text(alloc, out, at, full(Look::Plain), room, label.as_bytes())
}

/// Draws a write that a row at this place submitted.
fn draw_flight<O: Write>(
    alloc: Global,
    out: &mut O,
    page: &Page,
    flight: &Flight,
    place: usize,
) -> io::Result<()>
    requires { place < page.now.window.count }
{
    let top = top_of(place);
    let bar = (flight.index % MOST_BARS as usize) as u32;
    let at = Spot {
        x: page.columns.disk() + BAR_WIDTH * bar,
        y: top + BAR_EDGE,
    };
    let end = match flight.until {
        Some(row) => page.window.below(row, BAR_EDGE),
        None => page.window.end(),
    };
    write_bar(
        out,
        at,
        BAR_WIDTH,
        end.saturating_sub(at.y),
        full(Look::Flight),
    )?;
    write_label(alloc, out, page, flight, top)
}

/// Draws the writes that drawn rows submitted.
pub fn draw_flights<O: Write>(
    alloc: Global,
    out: &mut O,
    page: &Page,
    picture: &Picture,
) -> io::Result<()> {
    for flight in picture.flights.as_slice() {
        if let Some(place) = page.window.place_of(flight.row) {
            draw_flight(alloc, out, page, flight, place)?;
        }
    }
    Ok(())
}
