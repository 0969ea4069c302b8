//! What stands around the rows: the head of the file, the heading, the colours, the columns' heads, and the foot.
use crate::columns::LEFT;
use crate::elements::{Look, Spot, full, write_bar, write_line, write_text};
use crate::page::Page;
use std::alloc::Global;
use std::io;
use std::io::Write;

/// How each class of element looks.
const STYLE: &[u8] =
    b"<style>text{font:11px sans-serif;fill:#222}.b{font-weight:bold}.g{fill:#888;font-size:9px}.held{fill:#f4a259}.safe{fill:#7bb662}.fly{fill:#b8c4d6}.turn{fill:#9aa7b8}.call{fill:#eef2f7;stroke:#556}.dim{opacity:.2}path{fill:none;stroke:#444;marker-end:url(#a)}.rule{stroke:#999;marker-end:none}.commit{stroke:#7bb662;stroke-dasharray:5 3;marker-end:none}</style>\n";

/// The head of an arrow.
const ARROW: &[u8] =
    b"<marker id=\"a\" viewBox=\"0 0 8 8\" refX=\"7\" refY=\"4\" markerWidth=\"7\" markerHeight=\"7\" orient=\"auto\"><rect width=\"0\" height=\"0\"/><polygon points=\"0,0 8,4 0,8\" fill=\"#444\"/></marker>\n";

/// The end of the file.
pub const FOOT: &[u8] = b"</svg>\n";

/// The colours, with what they mean, and where they begin.
const COLOURS: &[(Look, &str, u32)] = &[
    (Look::Held, "not on the disk yet; held back", 10),
    (Look::Safe, "on the disk; shown", 210),
    (Look::Flight, "a write in flight", 410),
];

/// Writes the head of the file, for a picture of this size.
pub fn write_head<O: Write>(out: &mut O, width: u32, height: u32) -> io::Result<()> {
    writeln!(
        out,
        "<svg xmlns=\"http://www.w3.org/2000/svg\" width=\"{width}\" height=\"{height}\">"
    )?;
    out.write_all(STYLE)?;
    out.write_all(ARROW)?;
    writeln!(
        out,
        "<rect width=\"{width}\" height=\"{height}\" fill=\"white\"/>"
    )
}

/// Writes the heading.
pub fn write_heading<O: Write>(
    alloc: Global,
    out: &mut O,
    page: &Page,
    heading: &[u8],
) -> io::Result<()> {
    let at = Spot { x: LEFT, y: 20 };
    let room = page.columns.width();
    write_text(alloc, out, at, full(Look::Bold), room, heading)
}

/// Writes what the colours mean.
pub fn write_colours<O: Write>(alloc: Global, out: &mut O) -> io::Result<()> {
    for &(look, meaning, x) in COLOURS {
        write_bar(out, Spot { x, y: 32 }, 12, 12, full(look))?;
        let at = Spot { x: x + 17, y: 42 };
        write_text(alloc, out, at, full(Look::Plain), 180, meaning.as_bytes())?;
    }
    Ok(())
}

/// Writes the head of a column.
fn write_column_head<O: Write>(alloc: Global, out: &mut O, x: u32, name: &[u8]) -> io::Result<()> {
    write_text(alloc, out, Spot { x, y: 72 }, full(Look::Bold), 140, name)
}

/// Writes the heads of the processes' columns.
fn write_process_heads<O: Write>(alloc: Global, out: &mut O, page: &Page) -> io::Result<()> {
    for process in 1..=page.columns.processes {
        if let Some(x) = page.columns.process(process) {
            let name = format!(in alloc; "process {process}")?;
            write_column_head(alloc, out, x, name.as_bytes())?;
        }
    }
    Ok(())
}

/// Writes the heads of the terminals' columns.
fn write_terminal_heads<O: Write>(alloc: Global, out: &mut O, page: &Page) -> io::Result<()> {
    for column in page.columns.terminals.as_slice() {
        let number = column.number;
        let name = format!(in alloc; "terminal {number}")?;
        write_column_head(alloc, out, page.columns.terminal(column), name.as_bytes())?;
    }
    Ok(())
}

/// Writes the heads of the columns, and the line below them.
pub fn write_heads<O: Write>(alloc: Global, out: &mut O, page: &Page) -> io::Result<()> {
    write_column_head(alloc, out, LEFT, b"event")?;
    write_process_heads(alloc, out, page)?;
    write_column_head(alloc, out, page.columns.changes(), b"changes of files")?;
    write_column_head(alloc, out, page.columns.disk(), b"disk")?;
    write_terminal_heads(alloc, out, page)?;
    let from = Spot { x: LEFT, y: 78 };
    write_line(out, from, page.columns.width() - LEFT, full(Look::Rule))
}
