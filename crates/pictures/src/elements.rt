//! The elements of a picture, a line each.
use crate::escaping::escaped;
use crate::widths::{DOTS, fitting};
use std::alloc::Global;
use std::io::Write;
use std::{fmt, io};

/// How an element looks.
#[derive(Clone, Copy)]
pub enum Look {
    Plain,
    Bold,
    Small,
    Held,
    Safe,
    Flight,
    Turn,
    Call,
    Rule,
    Commit,
}

impl Look {
    /// The name of its class, which the style at the head of the picture describes.
    fn class(self) -> &'static str {
        match self {
            Look::Plain => "",
            Look::Bold => "b",
            Look::Small => "g",
            Look::Held => "held",
            Look::Safe => "safe",
            Look::Flight => "fly",
            Look::Turn => "turn",
            Look::Call => "call",
            Look::Rule => "rule",
            Look::Commit => "commit",
        }
    }

    /// In how many pixels of a wide text a text of this look fits that has this much room.
    fn room(self, room: u32) -> u32 {
        match self {
            Look::Small => room.saturating_mul(11) / 9,
            Look::Bold => room.saturating_mul(7) / 8,
            _ => room,
        }
    }
}

/// How an element looks, and whether it is pale.
#[derive(Clone, Copy)]
pub struct Style {
    pub look: Look,
    pub pale: bool,
}

/// An element that is not pale.
pub fn full(look: Look) -> Style {
    Style { look, pale: false }
}

/// The attribute of a style.
#[derive(Drop)]
struct ClassText(Style);

impl fmt::Display for ClassText {
    fn fmt<W: fmt::Write>(&self, f: &mut fmt::Formatter<W>) -> fmt::Result {
        let class = self.0.look.class();
        match (class, self.0.pale) {
            ("", false) => Ok(()),
            ("", true) => f.write_str(" class=\"dim\""),
            (class, false) => write!(f, " class=\"{class}\""),
            (class, true) => write!(f, " class=\"{class} dim\""),
        }
    }
}

/// A place, in pixels from the left and from the top.
#[derive(Clone, Copy)]
pub struct Spot {
    pub x: u32,
    pub y: u32,
}

/// A rectangle that is drawn only where it has some height.
pub fn write_bar<O: Write>(
    out: &mut O,
    at: Spot,
    width: u32,
    height: u32,
    style: Style,
) -> io::Result<()> {
    if height == 0 {
        return Ok(());
    }
    let Spot { x, y } = at;
    let class = ClassText(style);
    writeln!(
        out,
        "<rect x=\"{x}\" y=\"{y}\" width=\"{width}\" height=\"{height}\"{class}/>"
    )
}

/// A white rectangle, over which something else may be drawn.
pub fn write_blank<O: Write>(out: &mut O, at: Spot, width: u32, height: u32) -> io::Result<()> {
    let Spot { x, y } = at;
    writeln!(
        out,
        "<rect x=\"{x}\" y=\"{y}\" width=\"{width}\" height=\"{height}\" fill=\"white\"/>"
    )
}

/// A line from one place to another that lies in the same height.
pub fn write_line<O: Write>(out: &mut O, from: Spot, to: u32, style: Style) -> io::Result<()> {
    let Spot { x, y } = from;
    let class = ClassText(style);
    writeln!(out, "<path d=\"M{x},{y} H{to}\"{class}/>")
}

/// An arrow from one place to another.
pub fn write_arrow<O: Write>(out: &mut O, from: Spot, to: Spot) -> io::Result<()> {
    let Spot { x, y } = from;
    let Spot { x: to_x, y: to_y } = to;
    writeln!(out, "<path d=\"M{x},{y} L{to_x},{to_y}\"/>")
}

/// Writes as much of a text as fits, and dots where that is not all.
fn write_fitting<O: Write>(alloc: Global, out: &mut O, text: &[u8], room: u32) -> io::Result<()> {
    let count = fitting(text, room);
    let drawn = escaped(alloc, &text[..count])?;
    out.write_all(drawn.as_slice())?;
    if count < text.len() {
        out.write_all(DOTS)?;
    }
    Ok(())
}

/// A text that begins here, and is cut where it has not enough pixels of room. Nothing is written for an empty one.
pub fn write_text<O: Write>(
    alloc: Global,
    out: &mut O,
    at: Spot,
    style: Style,
    room: u32,
    text: &[u8],
) -> io::Result<()> {
    if text.is_empty() {
        return Ok(());
    }
    let Spot { x, y } = at;
    let class = ClassText(style);
    write!(out, "<text x=\"{x}\" y=\"{y}\"{class}>")?;
    write_fitting(alloc, out, text, style.look.room(room))?;
    writeln!(out, "</text>")
}
