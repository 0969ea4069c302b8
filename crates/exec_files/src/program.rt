//! A program, and what stands at its addresses.
use crate::code_lines::CodeLines;
use crate::functions::{Function, function_at};
use debug_info::SourceLines;
use machine_model::Image;
use std::fmt;

/// What is known of a program beside its image.
#[derive(Drop)]
pub enum Names {
    Source(SourceLines),
    /// The symbols of an executable and its lines, none where it has none.
    Executable {
        functions: Vec<Function>,
        lines: CodeLines,
    },
}

/// What stands at the addresses of a program.
#[derive(Drop)]
pub struct Places {
    /// The path of the program's file.
    pub path: String,
    pub names: Names,
}

/// A program that was loaded.
pub struct LoadedProgram {
    pub image: Image,
    pub places: Places,
}

impl Drop for LoadedProgram {
    fn drop(self) {
        let LoadedProgram {
            image: _image,
            places: _places,
        } = self;
    }
}

impl LoadedProgram {
    /// Its image, and what stands at the addresses.
    pub fn into_parts(self) -> (Image, Places) {
        let LoadedProgram { image, places } = self;
        (image, places)
    }
}

impl Places {
    /// Whether they are an executable's, which has symbols or lines in its file.
    pub fn has_symbols(&self) -> bool {
        match &self.names {
            Names::Source(_) => false,
            Names::Executable { functions, lines } => !functions.is_empty() || !lines.is_empty(),
        }
    }
}

/// What a program has at an address, as a part of a line: the line of its source; or the function with how far it is from its begin, and
/// the line of the file that it was compiled of. Nothing where nothing is known of it.
#[derive(Clone, Copy)]
pub struct PlaceText<'a> {
    pub places: &'a Places,
    pub address: u32,
}

/// Writes the function and the line of an executable's address.
fn write_code<W: fmt::Write>(
    f: &mut fmt::Formatter<W>,
    functions: &[Function],
    lines: &CodeLines,
    place: &PlaceText<'_>,
) -> fmt::Result {
    let path = place.places.path.as_str();
    if let Some(function) = function_at(functions, place.address) {
        let name = function.name.as_str();
        let beyond = place.address.saturating_sub(function.start);
        write!(f, ", {name}+0x{beyond:x} of {path}")?;
    }
    if let Some((file, line)) = lines.line_at(place.address) {
        write!(f, ", {file}:{line}")?;
    }
    Ok(())
}

impl fmt::Display for PlaceText<'_> {
    fn fmt<W: fmt::Write>(&self, f: &mut fmt::Formatter<W>) -> fmt::Result {
        match &self.places.names {
            Names::Source(lines) => {
                if let Some((number, text)) = lines.line_at(self.address) {
                    let path = self.places.path.as_str();
                    write!(f, ", {path}:{number}: {text}")?;
                }
                Ok(())
            }
            Names::Executable { functions, lines } => {
                write_code(f, functions.as_slice(), lines, self)
            }
        }
    }
}
