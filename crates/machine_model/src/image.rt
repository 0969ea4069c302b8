//! What may be loaded.
ghost use Rattle.std.specs.Prelude.{◌≡◌, ◌<◌, ◌≤◌, length, IfOk};
ghost use Rattle.machine_model.specs.Images.{IsProfile, program_of_words};

use crate::little_endian::put_words;
use byte_list::Bytes;
use memory_model::Rights;
use std::alloc::{AllocError, Global};
use std::marker::Model;

/// A run of a program's memory, with one set of rights.
pub struct Segment {
    /// The address of its first byte.
    pub vaddr: u32,
    /// How many bytes of memory it takes.
    pub memsz: u32,
    /// The rights of its pages.
    pub rights: Rights,
    /// Its first bytes; the rest, up to `memsz`, are 0.
    pub bytes: Bytes,
}

impl Drop for Segment {
    fn drop(self) {
        let Segment {
            vaddr: _,
            memsz: _,
            rights: _,
            bytes: _bytes,
        } = self;
    }
}

impl Segment {
    fn try_clone(&self, alloc: Global) -> Result<Segment, AllocError>
        ensures { IfOk result (λ copy. copy ≡ self.now) }
    {
        Ok(Segment {
            vaddr: self.vaddr,
            memsz: self.memsz,
            rights: self.rights,
            bytes: self.bytes.try_clone(alloc)?,
        })
    }
}

fn copies_of(alloc: Global, segments: &[Segment]) -> Result<Vec<Segment>, AllocError>
    ensures { IfOk result (λ copies. copies.items ≡ segments.now) }
{
    let mut copies = Vec::new(alloc);
    for segment in segments {
        copies.push(segment.try_clone(alloc)?)?;
    }
    Ok(copies)
}

/// A program that may be loaded. Its type keeps the profile, `IsProfile`: 1 to 4 segments of at most 60 pages in all, which ascend
/// with no page in common.
pub struct Image {
    entry: u32,
    segments: Vec<Segment>,
}

impl Drop for Image {
    fn drop(self) {
        let Image {
            entry: _,
            segments: _segments,
        } = self;
    }
}

impl Model for Image {
    ghost use Rattle.machine_model.specs.Images.{Program, program_code};

    ghost Value = { Program };

    ghost coded = { program_code };

    ghost use Rattle.machine_model.specs.Images.{IsProfile};

    ghost view = { λ i. record { entry = i.entry; segments = i.segments.items } };

    ghost invariant = { λ i. IsProfile (record { entry = i.entry; segments = i.segments.items }) };
}

impl Image {
    /// A program of segments, in ascending order, that begins at `entry`.
    pub fn new(entry: u32, segments: Vec<Segment>) -> Image
        requires { IsProfile (record { entry = entry; segments = segments.items }) }
        ensures { result ≡ record { entry = entry; segments = segments.items } }
    {
        Image { entry, segments }
    }

    /// The program of these words at 0x00010000, each little-endian. They may be read and executed, and the first is its entry.
    pub fn from_text(alloc: Global, words: &[u32]) -> Result<Image, AllocError>
        requires some { 0 < length words.now }
        requires fits { length words.now ≤ 61440 }
        ensures { IfOk result (λ image. image ≡ program_of_words words.now) }
    {
        let mut bytes = Vec::new(alloc);
        put_words(&mut bytes, words)?;
        let text = Segment {
            vaddr: 0x0001_0000,
            memsz: 4 * words.len() as u32,
            rights: Rights {
                read: true,
                write: false,
                execute: true,
            },
            bytes: Bytes::new(bytes),
        };
        let segments = vec![in alloc; text]?;
        Ok(Image::new(0x0001_0000, segments))
    }

    /// The same program in memory of its own.
    pub fn try_clone(&self, alloc: Global) -> Result<Image, AllocError>
        ensures { IfOk result (λ copy. copy ≡ self.now) }
    {
        let segments = copies_of(alloc, self.segments())?;
        Ok(Image::new(self.entry, segments))
    }

    /// The address of the first instruction, a multiple of 4.
    pub fn entry(&self) -> u32
        ensures { result ≡ self.now.entry }
    {
        self.entry
    }

    /// The segments, in ascending order.
    pub fn segments(&self) -> &[Segment]
        ensures value { result.now ≡ self.now.segments }
        ensures profile { IsProfile self.now }
    {
        self.segments.as_slice()
    }
}
