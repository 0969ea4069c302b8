//! The column of changes: a lane for each, orange until it is on the disk, and green from then on.
ghost use Rattle.std.specs.Prelude.{◌≡◌, ◌+◌, ◌<◌, ◌≤◌};

use crate::elements::{Look, Spot, Style, write_bar, write_blank, write_line, write_text};
use crate::heights::top_of;
use crate::lanes::{Lane, lane_of};
use crate::page::Page;
use crate::picture::{Deed, FileChange, Picture, Row};
use crate::window::Window;
use std::alloc::Global;
use std::io;
use std::io::Write;

/// The most lanes that stand beside each other; later changes take the first lanes again.
pub const MOST_LANES: u32 = 6;

/// From one lane to the next, and the width of one.
const LANE_STEP: u32 = 8;

const LANE_WIDTH: u32 = 6;

/// In how many lanes the changes stand that are drawn.
pub fn lanes_of(window: &Window, changes: &[FileChange]) -> u32
    ensures { result ≤ 6 }
{
    let drawn = changes
        .iter()
        .filter(|change| window.place_of(change.row).is_some());
    drawn.take(MOST_LANES as usize).count() as u32
}

/// Draws the two parts of a lane, of which either may have no height.
pub fn write_lane<O: Write>(
    out: &mut O,
    x: u32,
    width: u32,
    lane: Lane,
    pale: bool,
) -> io::Result<()> {
    let Lane { start, turn, end } = lane;
    let held = Style {
        look: Look::Held,
        pale,
    };
    let safe = Style {
        look: Look::Safe,
        pale,
    };
    write_bar(out, Spot { x, y: start }, width, turn - start, held)?;
    write_bar(out, Spot { x, y: turn }, width, end - turn, safe)
}

/// Ends the lane that stood here before, down to the picture's end, so that the next one is drawn on white.
pub fn end_lane<O: Write>(
    out: &mut O,
    page: &Page,
    x: u32,
    width: u32,
    next: Lane,
) -> io::Result<()> {
    let height = page.window.end().saturating_sub(next.start);
    write_blank(out, Spot { x, y: next.start }, width, height)
}

/// The arrow from the call that made a change to its lane.
fn write_making<O: Write>(
    out: &mut O,
    page: &Page,
    row: &Row,
    y: u32,
    lane_x: u32,
) -> io::Result<()>
    requires { 1 ≤ lane_x }
{
    let Deed::Call { process, .. } = &row.deed else {
        return Ok(());
    };
    let Some(x) = page.columns.process(*process) else {
        return Ok(());
    };
    let from = Spot {
        x: x + page.columns.call_width,
        y,
    };
    let style = Style {
        look: Look::Plain,
        pale: row.pale,
    };
    write_line(out, from, lane_x - 1, style)
}

/// What stands beside a lane, where it begins.
fn write_name<O: Write>(
    alloc: Global,
    out: &mut O,
    page: &Page,
    y: u32,
    change: &FileChange,
    pale: bool,
) -> io::Result<()> {
    let lanes = LANE_STEP * page.columns.change_lanes;
    let at = Spot {
        x: page.columns.changes() + lanes + 4,
        y,
    };
    let style = Style {
        look: Look::Plain,
        pale,
    };
    let number = change.number;
    let name = format!(in alloc; "change {number}")?;
    write_text(alloc, out, at, style, 116 - lanes, name.as_bytes())
}

/// Draws a change that a row at this place made. Its lane may have been another's before.
fn draw_change<O: Write>(
    alloc: Global,
    out: &mut O,
    page: &Page,
    change: &FileChange,
    row: &Row,
    place: usize,
    lane: u32,
    is_taken: bool,
) -> io::Result<()>
    requires lane { lane < 6 }
    requires drawn { place < page.now.window.count }
    requires place { change.now.row ≡ page.now.window.first + place }
{
    let x = page.columns.changes() + LANE_STEP * lane;
    let y = top_of(place);
    let bar = lane_of(&page.window, place, change.row, change.fate);
    if is_taken {
        end_lane(out, page, x, LANE_WIDTH, bar)?;
    }
    write_lane(out, x, LANE_WIDTH, bar, row.pale)?;
    write_name(alloc, out, page, y + 16, change, row.pale)?;
    write_making(out, page, row, y + 13, x)
}

/// Draws the changes that drawn rows made.
pub fn draw_changes<O: Write>(
    alloc: Global,
    out: &mut O,
    page: &Page,
    picture: &Picture,
) -> io::Result<()> {
    let mut lane = 0;
    let mut is_taken = false;
    for change in picture.changes.as_slice() {
        let place = page.window.place_of(change.row);
        if let (Some(place), Some(row)) = (place, picture.rows.get(change.row)) {
            draw_change(alloc, out, page, change, row, place, lane, is_taken)?;
            lane = (lane + 1) % MOST_LANES;
            is_taken = is_taken || lane == 0;
        }
    }
    Ok(())
}
