//! Where the columns stand: events, processes, changes, writes in flight, terminals. All measures are pixels.
ghost use Rattle.std.specs.Prelude.{◌≡◌, ◌+◌, ◌*◌, ◌<◌, ◌≤◌, vec_len, IfSome, IfOk};

use crate::flights::flight_label;
use crate::outputs::output_label;
use crate::picture::{Deed, Picture, Row};
use crate::widths::width_of;
use crate::window::Window;
use crate::{changes, flights, outputs};
use std::alloc::{AllocError, Global};

/// Where the first column begins, and how far the picture goes on after the last one.
pub const LEFT: u32 = 10;

/// The width of the events' column.
pub const EVENT_WIDTH: u32 = 150;

/// The most processes and terminals that are drawn.
pub const MOST_PROCESSES: u32 = 16;

pub const MOST_TERMINALS: u32 = 8;

/// The width of a call's box, at least and at most, and the gap to the next process.
const LEAST_CALL: u32 = 164;

const MOST_CALL: u32 = 300;

const CALL_GAP: u32 = 14;

/// Between a box's side and its text.
pub const CALL_MARGIN: u32 = 6;

/// The width of the column of changes.
const CHANGES_WIDTH: u32 = 128;

/// The widths of the columns of the disk and of a terminal, at least and at most.
const LEAST_DISK: u32 = 96;

const MOST_DISK: u32 = 200;

const LEAST_TERMINAL: u32 = 130;

const MOST_TERMINAL: u32 = 300;

/// A terminal that is drawn.
#[derive(Clone, Copy)]
pub struct TerminalColumn {
    pub number: u32,
    /// How many terminals stand before it.
    pub index: u32,
    pub lanes: u32,
    ghost low: { index < 8 },
    ghost few: { lanes ≤ 5 },
}

/// Where the columns stand.
pub struct Columns {
    /// How many processes are drawn.
    pub processes: u32,
    pub call_width: u32,
    pub change_lanes: u32,
    pub disk_bars: u32,
    pub disk_width: u32,
    pub terminal_width: u32,
    pub terminals: Vec<TerminalColumn>,
    ghost few_processes: { processes ≤ 16 },
    ghost narrow_calls: { call_width ≤ 300 },
    ghost wide_calls: { 164 ≤ call_width },
    ghost few_changes: { change_lanes ≤ 6 },
    ghost few_bars: { disk_bars ≤ 4 },
    ghost narrow_disk: { disk_width ≤ 200 },
    ghost wide_disk: { 96 ≤ disk_width },
    ghost narrow_terminals: { terminal_width ≤ 300 },
    ghost wide_terminals: { 130 ≤ terminal_width },
    ghost few_terminals: { vec_len terminals ≤ 8 },
}

impl Drop for Columns {
    fn drop(self) {
        let Columns {
            processes: _,
            call_width: _,
            change_lanes: _,
            disk_bars: _,
            disk_width: _,
            terminal_width: _,
            terminals: _terminals,
        } = self;
    }
}

/// Where the column at this index begins, of columns of equal width from `x` on.
fn column_at(x: u32, index: u32, width: u32) -> u32
    requires x { x ≤ 10000 }
    requires index { index ≤ 16 }
    requires width { width ≤ 400 }
    ensures place { result ≡ x + index * width }
    ensures after { x ≤ result }
    ensures near { result ≤ x + 6400 }
{
    x + index * width
}

impl Columns {
    /// The distance from one process to the next.
    fn process_step(&self) -> u32
        ensures { result ≡ self.now.call_width + 14 }
    {
        self.call_width + CALL_GAP
    }

    /// Where a process's column begins. None where it is not drawn.
    pub fn process(&self, process: u32) -> Option<u32>
        ensures { IfSome result (λ x. x ≤ 6560) }
    {
        if process == 0 || process > self.processes {
            return None;
        }
        Some(column_at(LEFT + EVENT_WIDTH, process - 1, self.process_step()))
    }

    /// Where the column of changes begins.
    pub fn changes(&self) -> u32
        ensures after { 160 ≤ result }
        ensures near { result ≤ 6560 }
    {
        column_at(LEFT + EVENT_WIDTH, self.processes, self.process_step())
    }

    /// Where the column of writes in flight begins.
    pub fn disk(&self) -> u32
        ensures after { 288 ≤ result }
        ensures near { result ≤ 6688 }
    {
        self.changes() + CHANGES_WIDTH
    }

    /// Where the terminals' columns begin.
    fn terminals_start(&self) -> u32
        ensures after { 384 ≤ result }
        ensures near { result ≤ 6888 }
    {
        self.disk() + self.disk_width
    }

    /// Where a terminal's column begins.
    pub fn terminal(&self, column: &TerminalColumn) -> u32
        ensures { result ≤ 13288 }
    {
        column_at(self.terminals_start(), column.index, self.terminal_width)
    }

    /// How wide the picture is. Without any terminal there is room for one.
    pub fn width(&self) -> u32
        ensures wide { 384 ≤ result }
        ensures narrow { result ≤ 13288 }
    {
        let count = (self.terminals.len() as u32).max(1);
        column_at(self.terminals_start(), count, self.terminal_width)
    }
}

/// The width of what a row writes into its process's column.
fn deed_width(row: &Row) -> u32 {
    match &row.deed {
        Deed::Call { call, outcome, .. } => {
            width_of(call.as_bytes()).saturating_add(width_of(outcome.as_bytes()))
        }
        _ => 0,
    }
}

fn call_width(rows: &[Row]) -> u32
    ensures wide { 164 ≤ result }
    ensures narrow { result ≤ 300 }
{
    let widest = rows.iter().map(deed_width).max().unwrap_or(0);
    widest
        .saturating_add(2 * CALL_MARGIN)
        .clamp(LEAST_CALL, MOST_CALL)
}

/// The widest label of the writes that are drawn.
fn widest_flight(alloc: Global, picture: &Picture, window: &Window) -> Result<u32, AllocError> {
    let mut widest = 0;
    for flight in picture.flights.as_slice() {
        if window.place_of(flight.row).is_some() {
            let label = flight_label(alloc, flight)?;
            widest = width_of(label.as_bytes()).max(widest);
        }
    }
    Ok(widest)
}

/// The widest label of the outputs that are drawn.
fn widest_output(alloc: Global, picture: &Picture, window: &Window) -> Result<u32, AllocError> {
    let mut widest = 0;
    for output in picture.outputs.as_slice() {
        if window.place_of(output.row).is_some() {
            let label = output_label(alloc, output)?;
            widest = width_of(label.as_bytes()).max(widest);
        }
    }
    Ok(widest)
}

/// The width of the disk's column: its bars, and the widest label beside them.
fn disk_width(bars: u32, widest: u32) -> u32
    requires { bars ≤ 4 }
    ensures wide { 96 ≤ result }
    ensures narrow { result ≤ 200 }
{
    widest
        .saturating_add(flights::BAR_WIDTH * bars + 10)
        .clamp(LEAST_DISK, MOST_DISK)
}

/// The room for the label of outputs that become shown.
const SHOWN_WIDTH: u32 = 112;

/// The width of a terminal's column: its lanes, and the widest label beside them.
fn terminal_width(lanes: u32, widest: u32) -> u32
    requires { lanes ≤ 5 }
    ensures wide { 130 ≤ result }
    ensures narrow { result ≤ 300 }
{
    widest
        .max(SHOWN_WIDTH)
        .saturating_add(outputs::LANE_STEP * lanes + 9)
        .clamp(LEAST_TERMINAL, MOST_TERMINAL)
}

/// The terminals to which drawn rows write.
fn terminals_of(
    alloc: Global,
    picture: &Picture,
    window: &Window,
) -> Result<Vec<TerminalColumn>, AllocError>
    ensures { IfOk result (λ terminals. vec_len terminals ≤ 8) }
{
    let mut terminals = Vec::new(alloc);
    for number in 0..MOST_TERMINALS {
        let lanes = outputs::lanes_of(window, picture.outputs.as_slice(), number);
        if lanes > 0 {
            let index = terminals.len() as u32;
            terminals.push(TerminalColumn {
                number,
                index,
                lanes,
            })?;
        }
    }
    Ok(terminals)
}

/// Where the columns of a picture stand.
pub fn columns_of(
    alloc: Global,
    picture: &Picture,
    window: &Window,
) -> Result<Columns, AllocError> {
    let terminals = terminals_of(alloc, picture, window)?;
    let lanes = terminals.iter().map(|terminal| terminal.lanes).max();
    let lanes = lanes.unwrap_or(0).min(outputs::MOST_LANES);
    let disk_bars = flights::bars_of(window, picture.flights.as_slice());
    Ok(Columns {
        processes: picture.processes.min(MOST_PROCESSES),
        call_width: call_width(picture.rows.as_slice()),
        change_lanes: changes::lanes_of(window, picture.changes.as_slice()),
        disk_bars,
        disk_width: disk_width(disk_bars, widest_flight(alloc, picture, window)?),
        terminal_width: terminal_width(lanes, widest_output(alloc, picture, window)?),
        terminals,
    })
}
