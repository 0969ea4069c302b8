//! From a source to its image and listing.
ghost use Rattle.std.specs.Prelude.{◌≡◌, ◌≢◌, ◌∷◌, ◌≤◌, ◌+◌, ◌*◌, Ok, Err, IfOk, IfErr, OnOk, length};
ghost use Rattle.machine_model.specs.Images.{bytes_of_words};
ghost use Rattle.assembler.specs.Faults.{out_of_memory};
ghost use Rattle.assembler.specs.Assembly.{pages, data_base, IsTextAddress, start_at, entry_of, words_of, image_of, text_segment, data_segment, data_segments, assembly, Assembles, FaultOf};
ghost use Rattle.assembler.specs.Layout.{laid, shown};
ghost use Rattle.assembler.specs.Sections.{IsListedFirst, ListsInstructions};

use crate::fault::{AsmFault, Cause};
use crate::filling::{Cell, Output, fill};
use crate::labels::Spot;
use crate::layout::{Layout, lay_out};
use crate::listing::{Listing, list_cells};
use asm_text::{Line, lines, one_reading};
use byte_list::Bytes;
use machine_model::{Image, Rights, Segment};
use std::alloc::{AllocError, Global};

/// The longest source, in bytes.
const SOURCE_LIMIT: usize = 1_048_576;

/// The image and the listing of a source.
///
/// Text begins at 0x00010000 and may be read and executed. Data, if there is any, begins at the next page and may be read and
/// written. The program begins at the label `_start`.
///
/// The first fault of a source is told. The checks go in this order:
///
/// 1. `TooLarge`: over 1,048,576 bytes.
/// 2. `Syntax` in a token, on whatever line.
/// 3. Line by line: `Syntax` in the place of a label, `DoubleLabel`, `Syntax` of the statement, `Range` of a `.space`.
/// 4. `TooLarge`: text and data take over 60 pages.
/// 5. `NoStart`: no `_start` stands before a word of text.
/// 6. Line by line, from left to right: `UnknownName` and `Range` of an operand.
///
/// `OutOfMemory`, at 1:1, may come at any time.
pub fn assemble(alloc: Global, source: &str) -> Result<(Image, Listing), AsmFault>
    ensures assembled { IfOk result (λ r. Assembles source.now r.0 r.1) }
    ensures listed { IfOk result (λ r. IsListedFirst r.0.segments r.1) }
    ensures meant { IfOk result (λ r. ListsInstructions source.now r.1) }
    ensures refused { IfErr result (λ f. f ≢ out_of_memory → FaultOf source.now f) }
{
    if source.len() > SOURCE_LIMIT {
        return Err(AsmFault::whole(Cause::TooLarge));
    }
    let lines = lines(alloc, source)?;
    one_reading();
    assemble_lines(alloc, source.as_bytes(), lines)
}

fn assemble_lines(
    alloc: Global,
    source: &[u8],
    lines: Vec<Line>,
) -> Result<(Image, Listing), AsmFault>
    ensures ok { IfOk result (λ r. assembly source.now lines.items ≡ Ok (record { image = r.0; listing = r.1 })) }
    ensures err { IfErr result (λ f. f ≢ out_of_memory → assembly source.now lines.items ≡ Err f) }
{
    let layout = lay_out(alloc, source, lines)?;
    let entry = entry(&layout)?;
    let base = data_base(layout.position.words);
    let pieces = layout.pieces.as_slice();
    let output = fill(alloc, source, &layout.labels, base, pieces)?;
    let cells = output.cells.as_slice();
    let listing = list_cells(alloc, cells)?;
    let image = image(alloc, entry, output)?;
    Ok((image, listing))
}

fn entry<'a>(layout: &Layout<'a>) -> Result<u32, AsmFault>
    ensures value { result ≡ entry_of (laid layout.now) }
    ensures fits { OnOk result (pages (4 * layout.now.position.words) + pages layout.now.position.bytes ≤ 60) }
    ensures inside { IfOk result (λ at. IsTextAddress layout.now.position.words at) }
{
    let words = layout.position.words;
    let bytes = layout.position.bytes;
    if pages(4 * u64::from(words)) + pages(u64::from(bytes)) > 60 {
        return Err(AsmFault::whole(Cause::TooLarge));
    }
    start(layout.labels.get(b"_start".as_slice()), words)
}

/// The address of `_start`, where it stands before a word of text.
fn start(spot: Option<Spot>, words: u32) -> Result<u32, AsmFault>
    requires { words ≤ 61440 }
    ensures value { result ≡ start_at spot words }
    ensures inside { IfOk result (λ at. IsTextAddress words at) }
{
    match spot {
        Some(spot) => {
            if !spot.in_data && spot.offset < words {
                Ok(65536 + 4 * spot.offset)
            } else {
                Err(AsmFault::whole(Cause::NoStart))
            }
        }
        None => Err(AsmFault::whole(Cause::NoStart)),
    }
}

/// How many pages of 4,096 bytes so many bytes take.
fn pages(bytes: u64) -> u64
    requires { bytes ≤ 17179869184 }
    ensures { result ≡ pages bytes }
{
    (bytes + 4095) / 4096
}

/// Where data begins after so many words of text.
fn data_base(words: u32) -> u32
    requires { words ≤ 61440 }
    ensures { result ≡ data_base words }
{
    65536 + (4 * words + 4095) / 4096 * 4096
}

/// The image of what the sections hold. Text has at least one word.
fn image(alloc: Global, entry: u32, output: Output) -> Result<Image, AllocError>
    requires fits { pages (4 * length output.cells.items) + pages (length output.bytes.items) ≤ 60 }
    requires inside { IsTextAddress (length output.cells.items) entry }
    ensures { IfOk result (λ i. i ≡ image_of entry (shown output)) }
{
    let text = text_bytes(alloc, output.cells.as_slice())?;
    let base = data_base(output.cells.len() as u32);
    let segments = segments(alloc, text, base, output.into_bytes())?;
    Ok(Image::new(entry, segments))
}

/// The segments of text, and of data at its base, if there is any.
fn segments(
    alloc: Global,
    text: Vec<u8>,
    base: u32,
    bytes: Vec<u8>,
) -> Result<Vec<Segment>, AllocError>
    requires small { length text.items ≤ 245760 }
    requires few { length bytes.items ≤ 245760 }
    ensures { IfOk result (λ s. s.items ≡ text_segment text.items ∷ data_segments base bytes.items) }
{
    let mut segments = Vec::with_capacity(alloc, 2)?;
    segments.push(text_segment(text))?;
    if !bytes.is_empty() {
        segments.push(data_segment(base, bytes))?;
    }
    Ok(segments)
}

/// The bytes of the words of text.
fn text_bytes(alloc: Global, cells: &[Cell]) -> Result<Vec<u8>, AllocError>
    requires { length cells.now ≤ 61440 }
    ensures value { IfOk result (λ bytes. bytes.items ≡ bytes_of_words (words_of cells.now)) }
    ensures len { IfOk result (λ bytes. length bytes.items ≡ 4 * length cells.now) }
{
    let mut bytes = Vec::with_capacity(alloc, 4 * cells.len())?;
    for cell in cells {
        bytes.extend_from_slice(&cell.word.to_le_bytes())?;
    }
    Ok(bytes)
}

fn text_segment(bytes: Vec<u8>) -> Segment
    requires { length bytes.items ≤ 245760 }
    ensures { result ≡ text_segment bytes.items }
{
    Segment {
        vaddr: 65536,
        memsz: bytes.len() as u32,
        rights: Rights {
            read: true,
            write: false,
            execute: true,
        },
        bytes: Bytes::new(bytes),
    }
}

fn data_segment(vaddr: u32, bytes: Vec<u8>) -> Segment
    requires { length bytes.items ≤ 245760 }
    ensures { result ≡ data_segment vaddr bytes.items }
{
    Segment {
        vaddr,
        memsz: bytes.len() as u32,
        rights: Rights {
            read: true,
            write: true,
            execute: false,
        },
        bytes: Bytes::new(bytes),
    }
}
