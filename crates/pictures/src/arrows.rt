//! Arrows from a row to a later one of another process.
ghost use Rattle.std.specs.Prelude.{◌≤◌};

use crate::elements::{Spot, write_arrow};
use crate::heights::top_of;
use crate::page::Page;
use crate::picture::{Arrow, Deed, Picture};
use std::io;
use std::io::Write;

/// How far from the far side of a box an arrow begins, and from the near side of one it ends.
const ARROW_START: u32 = 14;

const ARROW_END: u32 = 40;

/// Where what a row's process did is drawn: its bar or its box.
#[derive(Clone, Copy)]
struct Mark {
    left: u32,
    width: u32,
    top: u32,
    bottom: u32,
    ghost near: { left ≤ 6560 },
    ghost narrow: { width ≤ 300 },
}

impl Mark {
    /// A place so far from the left side, but not past the middle.
    fn from_left(&self, pixels: u32) -> u32 {
        self.left + pixels.min(self.width / 2)
    }

    /// A place so far from the right side, but not past the middle.
    fn from_right(&self, pixels: u32) -> u32 {
        self.left + (self.width - pixels.min(self.width / 2))
    }
}

/// The mark of a row. None where it has none that is drawn.
fn mark_of(page: &Page, picture: &Picture, row: usize) -> Option<Mark> {
    let top = top_of(page.window.place_of(row)?);
    match &picture.rows.get(row)?.deed {
        Deed::Turn { process } => Some(Mark {
            left: page.columns.process(*process)?,
            width: 6,
            top: top + 2,
            bottom: top + 30,
        }),
        Deed::Call { process, .. } => Some(Mark {
            left: page.columns.process(*process)?,
            width: page.columns.call_width,
            top: top + 1,
            bottom: top + 25,
        }),
        Deed::Disk | Deed::Note(_) => None,
    }
}

/// Draws an arrow from the lower side of a mark to the upper side of another.
fn draw_between<O: Write>(out: &mut O, from: Mark, to: Mark) -> io::Result<()> {
    let (start, end) = if from.left < to.left {
        (from.from_right(ARROW_START), to.from_left(ARROW_END))
    } else {
        (from.from_left(ARROW_START), to.from_right(ARROW_END))
    };
    let start = Spot {
        x: start,
        y: from.bottom,
    };
    write_arrow(out, start, Spot { x: end, y: to.top })
}

/// Draws the arrows between marks that are drawn.
pub fn draw_arrows<O: Write>(out: &mut O, page: &Page, picture: &Picture) -> io::Result<()> {
    for Arrow { from, to } in picture.arrows.as_slice() {
        let from = mark_of(page, picture, *from);
        let to = mark_of(page, picture, *to);
        if let (Some(from), Some(to)) = (from, to) {
            draw_between(out, from, to)?;
        }
    }
    Ok(())
}
