//! `Writable`: which memory the programs of a trace may write, so that only this memory is compared.
use debugger::{Image, Reply};
use machine_model::Segment;
use std::alloc::{AllocError, Global};

/// The words of a page.
const PAGE_WORDS: u32 = 1024;

/// The first of the four pages of the stack, and one past the last.
const STACK: (u32, u32) = (0x7FFFC, 0x80000);

/// Words of memory in a row. A word's number is its address divided by four.
#[derive(Clone, Copy)]
pub struct Words {
    pub first: u32,
    /// The number after the last word.
    pub end: u32,
}

/// The words of a page of this number.
pub fn words_of(page: u32) -> Words {
    let first = (page % 0x80000) * PAGE_WORDS;
    Words {
        first,
        end: first + PAGE_WORDS,
    }
}

/// Adds the numbers of the pages that a segment takes.
fn put_pages(pages: &mut Vec<u32>, segment: &Segment) -> Result<(), AllocError> {
    let end = segment.vaddr.saturating_add(segment.memsz);
    let last = end.saturating_sub(1) / 4096;
    for page in segment.vaddr / 4096..last + 1 {
        pages.push(page)?;
    }
    Ok(())
}

/// Adds the numbers of the pages of a program's segments that it may write.
fn put_writable_pages(pages: &mut Vec<u32>, image: &Image) -> Result<(), AllocError> {
    for segment in image.segments() {
        if segment.rights.write {
            put_pages(pages, segment)?;
        }
    }
    Ok(())
}

/// The memory that the programs of a trace may write: their segments' pages with that right, and the stack. The programs are the
/// first one and those that a reply brings.
#[derive(Drop)]
pub struct Writable {
    /// The numbers of the pages, in order and each once.
    pages: Vec<u32>,
    /// How many replies were looked at.
    replies: usize,
}

impl Writable {
    /// What one program may write.
    pub fn new(alloc: Global, image: &Image) -> Result<Writable, AllocError> {
        let mut pages = Vec::new(alloc);
        for page in STACK.0..STACK.1 {
            pages.push(page)?;
        }
        let mut writable = Writable { pages, replies: 0 };
        writable.add(image)?;
        Ok(writable)
    }

    fn add(&mut self, image: &Image) -> Result<(), AllocError> {
        put_writable_pages(&mut self.pages, image)?;
        self.pages.sort_unstable();
        self.pages.dedup();
        Ok(())
    }

    /// Adds what the programs may write that the replies of a trace bring. Only the replies are looked at that came since the last
    /// time.
    pub fn add_replies(&mut self, trace: &[Reply]) -> Result<(), AllocError> {
        for reply in trace.get(self.replies..).unwrap_or_default() {
            if let Some(image) = reply.image() {
                self.add(image)?;
            }
        }
        self.replies = trace.len();
        Ok(())
    }

    /// The numbers of its pages, in order.
    pub fn pages(&self) -> &[u32] {
        self.pages.as_slice()
    }
}
