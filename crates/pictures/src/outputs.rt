//! The columns of the terminals: a lane for each output, orange while it is held back, and green once it is shown.
ghost use Rattle.std.specs.Prelude.{◌≡◌, ◌+◌, ◌<◌, ◌≤◌};

use crate::changes::{end_lane, write_lane};
use crate::columns::TerminalColumn;
use crate::elements::{Look, Spot, Style, full, write_text};
use crate::heights::top_of;
use crate::lanes::lane_of;
use crate::page::Page;
use crate::picture::{Fate, Output, Picture};
use crate::window::Window;
use std::alloc::{AllocError, Global};
use std::io;
use std::io::Write;

/// The most lanes of a terminal that stand beside each other; later outputs take the first lanes again.
pub const MOST_LANES: u32 = 5;

/// From one lane to the next, and the width of one.
pub const LANE_STEP: u32 = 9;

const LANE_WIDTH: u32 = 7;

/// Whether an output is drawn, and goes to this terminal.
fn is_drawn(window: &Window, terminal: u32, output: &Output) -> bool {
    output.terminal == terminal && window.place_of(output.row).is_some()
}

/// In how many lanes the outputs of a terminal stand that are drawn.
pub fn lanes_of(window: &Window, outputs: &[Output], terminal: u32) -> u32
    ensures { result ≤ 5 }
{
    let drawn = outputs
        .iter()
        .filter(|output| is_drawn(window, terminal, output));
    drawn.take(MOST_LANES as usize).count() as u32
}

/// Whether an output was shown in the row that wrote it.
fn is_shown_at_once(output: &Output) -> bool {
    matches!(output.fate, Fate::Kept { row } if row == output.row)
}

/// The row in which an output was shown that had been held back.
fn shown_later(output: &Output) -> Option<usize> {
    match output.fate {
        Fate::Kept { row } if row != output.row => Some(row),
        _ => None,
    }
}

/// What stands beside a lane where it begins.
pub fn output_label(alloc: Global, output: &Output) -> Result<String, AllocError> {
    let text = output.text.as_str();
    if is_shown_at_once(output) {
        format!(in alloc; "'{text}' shown at once")
    } else {
        format!(in alloc; "'{text}' held back")
    }
}

/// What stands beside the lanes where some outputs of a terminal become shown, of which this is the first.
fn shown_label(alloc: Global, output: &Output, count: usize) -> Result<String, AllocError> {
    if count == 1 {
        let text = output.text.as_str();
        format!(in alloc; "'{text}' shown")
    } else {
        format!(in alloc; "{count} outputs shown")
    }
}

/// Writes beside the lanes of a terminal, at this height.
fn write_beside<O: Write>(
    alloc: Global,
    out: &mut O,
    page: &Page,
    column: &TerminalColumn,
    y: u32,
    style: Style,
    text: &[u8],
) -> io::Result<()> {
    let lanes = LANE_STEP * column.lanes;
    let at = Spot {
        x: page.columns.terminal(column) + lanes + 3,
        y,
    };
    let room = page.columns.terminal_width - lanes - 6;
    write_text(alloc, out, at, style, room, text)
}

/// How many outputs of a terminal become shown in a row, having been held back.
fn shown_in(outputs: &[Output], terminal: u32, row: usize) -> usize {
    outputs
        .iter()
        .filter(|output| output.terminal == terminal && shown_later(output) == Some(row))
        .count()
}

/// Writes what becomes shown in this row, of a terminal's outputs that had been held back, of which this is the first.
fn write_shown<O: Write>(
    alloc: Global,
    out: &mut O,
    page: &Page,
    column: &TerminalColumn,
    outputs: &[Output],
    first: &Output,
    row: usize,
) -> io::Result<()> {
    let Some(place) = page.window.place_of(row) else {
        return Ok(());
    };
    let label = shown_label(alloc, first, shown_in(outputs, column.number, row))?;
    let y = top_of(place) + 32;
    write_beside(
        alloc,
        out,
        page,
        column,
        y,
        full(Look::Bold),
        label.as_bytes(),
    )
}

/// Draws an output that a row at this place wrote. Its lane may have been another's before.
fn draw_output<O: Write>(
    alloc: Global,
    out: &mut O,
    page: &Page,
    column: &TerminalColumn,
    output: &Output,
    pale: bool,
    place: usize,
    lane: u32,
    is_taken: bool,
) -> io::Result<()>
    requires lane { lane < 5 }
    requires drawn { place < page.now.window.count }
    requires place { output.now.row ≡ page.now.window.first + place }
{
    let bar = lane_of(&page.window, place, output.row, output.fate);
    let x = page.columns.terminal(column) + LANE_STEP * lane;
    if is_taken {
        end_lane(out, page, x, LANE_WIDTH, bar)?;
    }
    write_lane(out, x, LANE_WIDTH, bar, pale)?;
    let style = Style {
        look: Look::Plain,
        pale,
    };
    let label = output_label(alloc, output)?;
    let y = top_of(place) + 18;
    write_beside(alloc, out, page, column, y, style, label.as_bytes())
}

/// Draws the outputs of a terminal that drawn rows wrote.
fn draw_terminal<O: Write>(
    alloc: Global,
    out: &mut O,
    page: &Page,
    picture: &Picture,
    column: &TerminalColumn,
) -> io::Result<()> {
    let outputs = picture.outputs.as_slice();
    let mut lane = 0;
    let mut is_taken = false;
    let mut labelled = None;
    for output in outputs {
        if output.terminal != column.number {
            continue;
        }
        let place = page.window.place_of(output.row);
        if let (Some(place), Some(row)) = (place, picture.rows.get(output.row)) {
            draw_output(
                alloc, out, page, column, output, row.pale, place, lane, is_taken,
            )?;
            lane = (lane + 1) % MOST_LANES;
            is_taken = is_taken || lane == 0;
            let shown = shown_later(output);
            if let Some(shown) = shown
                && labelled != Some(shown)
            {
                labelled = Some(shown);
                write_shown(alloc, out, page, column, outputs, output, shown)?;
            }
        }
    }
    Ok(())
}

/// Draws the outputs that drawn rows wrote.
pub fn draw_outputs<O: Write>(
    alloc: Global,
    out: &mut O,
    page: &Page,
    picture: &Picture,
) -> io::Result<()> {
    for column in page.columns.terminals.as_slice() {
        draw_terminal(alloc, out, page, picture, column)?;
    }
    Ok(())
}
