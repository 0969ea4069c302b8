//! The rows of a crash in a picture: what it cuts off, and which files the next boot finds.
ghost use Rattle.std.specs.Prelude.{◌<◌, length};

use crate::builder::PictureBuilder;
use crate::texts::bytes_shown;
use disk_model::LONGEST_NAME;
use files::FileList;
use pictures::{Deed, Picture, Row, width_of};
use scripts::bytes_text;
use std::alloc::{AllocError, Global};

/// The most pixels of a line of files.
const MOST_WIDTH: u32 = 500;

/// A row that is a note.
fn note_row(label: String, answer: String, note: String) -> Row {
    Row {
        label,
        answer,
        deed: Deed::Note(note),
        committed: None,
        pale: false,
    }
}

/// Adds a note that continues the note above.
fn push_note(alloc: Global, picture: &mut Picture, note: String) -> Result<(), AllocError> {
    let row = note_row(String::new(alloc), String::new(alloc), note);
    Ok(picture.rows.push(row)?)
}

/// A count and the name of what is counted, as a text.
fn count_text(alloc: Global, count: u64, thing: &str) -> Result<String, AllocError> {
    match count {
        0 => format!(in alloc; "no {thing}"),
        1 => format!(in alloc; "1 {thing}"),
        count => format!(in alloc; "{count} {thing}s"),
    }
}

/// Adds the row of a crash with this fill, which says how many changes and outputs it cuts off.
pub fn push_crash(
    alloc: Global,
    builder: &mut PictureBuilder,
    fill: &[u8],
) -> Result<(), AllocError> {
    let (changes, outputs) = builder.cut_off();
    let fill = bytes_text(alloc, fill)?;
    let changes = count_text(alloc, changes, "change")?;
    let outputs = count_text(alloc, outputs, "output")?;
    let note = note_row(
        format!(in alloc; "crash {fill}")?,
        String::from_str(alloc, "crashed")?,
        format!(in alloc; "cut off: {changes}, {outputs}")?,
    );
    Ok(builder.picture.rows.push(note)?)
}

/// A file's name and its length.
fn file_text(alloc: Global, files: &FileList, place: usize) -> Result<String, AllocError>
    requires { place < length files.now }
{
    let name = bytes_shown(alloc, files.name(place), LONGEST_NAME as usize)?;
    let length = files.length(place);
    format!(in alloc; "{name} {length}")
}

/// Adds the files that the next boot finds, with their lengths, in as many rows as that takes.
pub fn push_files(
    alloc: Global,
    picture: &mut Picture,
    files: &FileList,
) -> Result<(), AllocError> {
    let count = count_text(alloc, files.count() as u64, "file")?;
    let mut line = format!(in alloc; "the next boot finds {count}")?;
    for place in 0..files.count() {
        let file = file_text(alloc, files, place)?;
        let sign = if place == 0 { ": " } else { ", " };
        line.push_str(sign)?;
        if width_of(line.as_bytes()).saturating_add(width_of(file.as_bytes())) > MOST_WIDTH {
            push_note(alloc, picture, line)?;
            line = String::new(alloc);
        }
        line.push_str(file.as_str())?;
    }
    push_note(alloc, picture, line)
}
