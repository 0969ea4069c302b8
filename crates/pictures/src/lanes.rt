//! Where a lane stands: the bar of a change or of an output, which is held back first and kept from some row on.
ghost use Rattle.std.specs.Prelude.{◌≡◌, ◌+◌, ◌<◌, ◌≤◌};
ghost use Rattle.pictures.specs.Rows.{rows_end};
ghost use Rattle.pictures.specs.Lanes.{lane_start, changes_at, lane_turn, lane_end};

use crate::heights::top_of;
use crate::picture::Fate;
use crate::window::Window;

/// How far below its row's top a lane begins.
const LANE_START: u32 = 10;

/// How far below a row's top a lane changes by what the row did.
const LANE_TURN: u32 = 20;

/// A lane, in pixels from the top: held back from `start` to `turn`, and kept from there to `end`.
#[derive(Clone, Copy)]
pub struct Lane {
    pub start: u32,
    pub turn: u32,
    pub end: u32,
    ghost held: { start ≤ turn },
    ghost kept: { turn ≤ end },
}

/// Where a lane changes by what a row did: at once where it is its own row.
fn change_of(window: &Window, place: usize, row: usize, other: usize) -> u32
    requires drawn { place < window.now.count }
    requires place { row ≡ window.now.first + place }
    ensures change { result ≡ changes_at window.now place row other }
    ensures after { lane_start place ≤ result }
    ensures before { result ≤ rows_end window.now }
{
    if other <= row {
        top_of(place) + LANE_START
    } else {
        window.below(other, LANE_TURN)
    }
}

/// The lane of what begins in a row, which is drawn at this place.
pub fn lane_of(window: &Window, place: usize, row: usize, fate: Fate) -> Lane
    requires drawn { place < window.now.count }
    requires place { row ≡ window.now.first + place }
    ensures start { result.start ≡ lane_start place }
    ensures turn { result.turn ≡ lane_turn window.now place row fate }
    ensures end { result.end ≡ lane_end window.now place row fate }
{
    let start = top_of(place) + LANE_START;
    let end = window.end();
    match fate {
        Fate::Open => Lane {
            start,
            turn: end,
            end,
        },
        Fate::Kept { row: other } => Lane {
            start,
            turn: change_of(window, place, row, other),
            end,
        },
        Fate::CutOff { row: other } => {
            let turn = change_of(window, place, row, other);
            Lane {
                start,
                turn,
                end: turn,
            }
        }
    }
}
