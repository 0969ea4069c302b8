//! The drawing of a whole picture.
ghost use Rattle.std.specs.Prelude.{◌+◌, ◌≤◌, vec_len};

use crate::arrows::draw_arrows;
use crate::changes::draw_changes;
use crate::cuts::{cut_of, write_cuts};
use crate::flights::draw_flights;
use crate::frame::{FOOT, write_colours, write_head, write_heading, write_heads};
use crate::notes::draw_notes;
use crate::outputs::draw_outputs;
use crate::page::{Page, page_of};
use crate::picture::Picture;
use crate::rows::draw_rows;
use std::alloc::Global;
use std::io;
use std::io::Write;

/// Draws what stands in the rows.
fn draw_body<O: Write>(alloc: Global, out: &mut O, page: &Page, picture: &Picture) -> io::Result<()>
    requires { page.now.window.first + page.now.window.count ≤ vec_len picture.now.rows }
{
    let rows = page.window.of(picture.rows.as_slice());
    draw_rows(alloc, out, page, rows)?;
    draw_changes(alloc, out, page, picture)?;
    draw_flights(alloc, out, page, picture)?;
    draw_outputs(alloc, out, page, picture)?;
    draw_notes(alloc, out, page, rows)?;
    draw_arrows(out, page, picture)
}

/// Writes a picture as SVG text, a line for each element, all of printable ASCII. A run of more than 400 rows is cut, and the picture
/// says how many events it leaves out; so it does of processes past the sixteenth.
pub fn draw<O: Write>(alloc: Global, picture: &Picture, out: &mut O) -> io::Result<()> {
    let page = page_of(alloc, picture)?;
    let cut = cut_of(&page.window, picture);
    let height = page.window.end() + cut.height() + 10;
    write_head(out, page.columns.width(), height)?;
    write_heading(alloc, out, &page, picture.heading.as_bytes())?;
    write_colours(alloc, out)?;
    write_heads(alloc, out, &page)?;
    draw_body(alloc, out, &page, picture)?;
    write_cuts(alloc, out, &page, &cut)?;
    out.write_all(FOOT)
}
