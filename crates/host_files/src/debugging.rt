//! Reads what an image is debugged with: the replies of a trace, and the image's source.
use crate::reading::text_in;
use crate::source::{source_fault, source_text};
use crate::trace::read_trace;
use debug_info::SourceLines;
use faults::{Fault, Refusal};
use machine_model::{Image, Reply};
use std::alloc::Global;
use std::rt::Files;

/// The replies of the trace in a file, and none where no file is given.
pub fn replies_in<R: Files + AllocGlobal>(rt: &R, path: Option<&str>) -> Result<Vec<Reply>, Fault> {
    match path {
        Some(path) => read_trace(rt.alloc(), path, text_in(rt, path)?.as_str()),
        None => Ok(Vec::new(rt.alloc())),
    }
}

/// The source of the file at a path, beside an image. None where it assembles to another one. Refused is its first fault.
pub fn source_lines(
    alloc: Global,
    path: &str,
    source: &str,
    image: &Image,
) -> Result<Option<SourceLines>, Fault> {
    match SourceLines::read(alloc, String::from_str(alloc, source)?, image) {
        Ok(lines) => Ok(lines),
        Err(fault) => Err(source_fault(alloc, path, source, fault)),
    }
}

/// The source in a file, beside the image to which it has to assemble.
fn lines_in<R: Files + AllocGlobal>(
    rt: &R,
    path: &str,
    image: &Image,
) -> Result<SourceLines, Fault> {
    let source = source_text(rt, path)?;
    match source_lines(rt.alloc(), path, source.as_str(), image)? {
        Some(lines) => Ok(lines),
        None => Err(Fault::from(Refusal::OtherImage).at(rt.alloc(), path)),
    }
}

/// The source in a file, if one is given, beside the image that it has to assemble to. Refused are a source's first fault, and a
/// source that assembles to another image.
pub fn source_lines_in<R: Files + AllocGlobal>(
    rt: &R,
    path: Option<&str>,
    image: &Image,
) -> Result<Option<SourceLines>, Fault> {
    match path {
        Some(path) => Ok(Some(lines_in(rt, path, image)?)),
        None => Ok(None),
    }
}
