//! A run of pages as it was at a moment.
ghost use Rattle.std.specs.Prelude.{◌≡◌, IfOk, map};
ghost use Rattle.std.specs.List.{flat_map};

use crate::kept_page::{KeptPage, kept_page};
use crate::part::Part;
use std::alloc::{AllocError, Global};
use std::marker::Model;
use std::sync::Arc;

/// How many words a page has.
const PAGE: usize = 1024;

/// A run of pages as it was at a moment, in pages that it shares with what was kept before and after it.
pub struct KeptPart {
    first: u32,
    read: bool,
    execute: bool,
    pages: Vec<Arc<KeptPage>>,
}

impl Drop for KeptPart {
    fn drop(self) {
        let KeptPart {
            first: _,
            read: _,
            execute: _,
            pages: _pages,
        } = self;
    }
}

impl Model for KeptPart {
    ghost use Rattle.std.specs.Prelude.{◌+◌, ◌^◌, ◌≤◌, length};
    ghost use Rattle.std.specs.List.{flat_map};
    ghost use Rattle.memory.specs.Pages.{Pages};

    ghost Value = { Pages };

    ghost view = { λ p. record { first = p.first; read = p.read; execute = p.execute; words = flat_map (λ a. a.value) p.pages.items } };

    ghost invariant = { λ p. p.first + length (flat_map (λ a. a.value) p.pages.items) ≤ 2 ^ 30 };
}

impl Part {
    /// This run as it is now. A page is shared with the same page of `before` where their bytes are the same.
    pub fn keep(&self, alloc: Global, before: Option<&KeptPart>) -> Result<KeptPart, AllocError>
        ensures { IfOk result (λ k. k ≡ self.now) }
    {
        let before: &[Arc<KeptPage>] = match before {
            Some(part) => part.pages.as_slice(),
            None => &[],
        };
        Ok(KeptPart {
            first: self.first,
            read: self.read,
            execute: self.execute,
            pages: kept_pages(alloc, self.words.as_slice(), before)?,
        })
    }
}

impl KeptPart {
    /// The run as it was, in memory of its own.
    pub fn part(&self, alloc: Global) -> Result<Part, AllocError>
        ensures { IfOk result (λ p. p ≡ self.now) }
    {
        Ok(Part {
            first: self.first,
            read: self.read,
            execute: self.execute,
            words: words_of(alloc, self.pages.as_slice())?,
        })
    }
}

impl KeptPart {
    /// How many of its blocks nothing else holds. Right after it was kept these are the blocks that were copied for it.
    pub fn own_blocks(&self) -> usize {
        let mut count: usize = 0;
        for page in &self.pages {
            if Arc::strong_count(page) == 1 {
                count = count.saturating_add(page.own_blocks());
            }
        }
        count
    }
}

fn kept_pages(
    alloc: Global,
    words: &[[u8; 4]],
    before: &[Arc<KeptPage>],
) -> Result<Vec<Arc<KeptPage>>, AllocError>
    ensures { IfOk result (λ v. flat_map (λ a. a.value) v.items ≡ words.now) }
{
    let mut pages = Vec::with_capacity(alloc, words.len().div_ceil(PAGE))?;
    for (i, page) in words.chunks(PAGE).enumerate() {
        pages.push(kept_page(alloc, page, before.get(i))?)?;
    }
    Ok(pages)
}

fn words_of(alloc: Global, pages: &[Arc<KeptPage>]) -> Result<Vec<[u8; 4]>, AllocError>
    ensures { IfOk result (λ v. v.items ≡ flat_map (λ a. a.value) pages.now) }
{
    let mut words = Vec::with_capacity(alloc, pages.len().saturating_mul(PAGE))?;
    for page in pages {
        page.append_to(&mut words)?;
    }
    Ok(words)
}
