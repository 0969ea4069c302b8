//! A page as it was at a moment.
ghost use Rattle.std.specs.Prelude.{◌≡◌, ◌++◌, IfOk, IsTrue};
ghost use Rattle.std.specs.List.{flat_map};

use crate::part::are_same_words;
use std::alloc::{AllocError, Global};
use std::marker::Model;
use std::sync::Arc;

/// How many words a block has.
const BLOCK: usize = 64;

/// The words of a page as they were at a moment, in blocks of 256 bytes that it shares with what was kept before and after it: most
/// pages that change do so in few of their blocks.
pub struct KeptPage {
    blocks: Vec<Arc<Vec<[u8; 4]>>>,
}

impl Drop for KeptPage {
    fn drop(self) {
        let KeptPage { blocks: _blocks } = self;
    }
}

impl Model for KeptPage {
    ghost use Rattle.std.specs.Prelude.{ℕ, List};
    ghost use Rattle.std.specs.List.{flat_map};

    ghost Value = { List (List ℕ) };

    ghost view = { λ p. flat_map (λ a. a.value.items) p.blocks.items };
}

impl KeptPage {
    /// The page of these words. A block is shared with the same block of `before` where their bytes are the same.
    fn of(
        alloc: Global,
        words: &[[u8; 4]],
        before: Option<&KeptPage>,
    ) -> Result<KeptPage, AllocError>
        ensures { IfOk result (λ page. page ≡ words.now) }
    {
        let before: &[Arc<Vec<[u8; 4]>>] = match before {
            Some(page) => page.blocks.as_slice(),
            None => &[],
        };
        Ok(KeptPage {
            blocks: kept_blocks(alloc, words, before)?,
        })
    }

    /// Whether these words are those of the page.
    fn is_of(&self, words: &[[u8; 4]]) -> bool
        ensures { IsTrue result → self.now ≡ words.now }
    {
        are_blocks_of(self.blocks.as_slice(), words)
    }

    /// How many of its blocks nothing else holds.
    pub fn own_blocks(&self) -> usize {
        let mut count: usize = 0;
        for block in &self.blocks {
            if Arc::strong_count(block) == 1 {
                count = count.saturating_add(1);
            }
        }
        count
    }

    /// Appends the words of the page.
    pub fn append_to(&self, words: &mut Vec<[u8; 4]>) -> Result<(), AllocError>
        ensures { IfOk result (λ _. words.new.items ≡ words.old.items ++ self.now) }
    {
        append_blocks(words, self.blocks.as_slice())
    }
}

fn are_blocks_of(blocks: &[Arc<Vec<[u8; 4]>>], words: &[[u8; 4]]) -> bool
    ensures { IsTrue result → flat_map (λ a. a.value.items) blocks.now ≡ words.now }
{
    let mut rest = words;
    for block in blocks {
        let Some((first, after)) = rest.split_at_checked(block.len()) else {
            return false;
        };
        if !are_same_words(block.as_slice(), first) {
            return false;
        }
        rest = after;
    }
    rest.is_empty()
}

fn append_blocks(words: &mut Vec<[u8; 4]>, blocks: &[Arc<Vec<[u8; 4]>>]) -> Result<(), AllocError>
    ensures { IfOk result (λ _. words.new.items ≡ words.old.items ++ flat_map (λ a. a.value.items) blocks.now) }
{
    for block in blocks {
        words.extend_from_slice(block.as_slice())?;
    }
    Ok(())
}

/// The page of these words: shared with the one that was kept before, where it is the same.
pub fn kept_page(
    alloc: Global,
    words: &[[u8; 4]],
    before: Option<&Arc<KeptPage>>,
) -> Result<Arc<KeptPage>, AllocError>
    ensures { IfOk result (λ a. a.value ≡ words.now) }
{
    match before {
        Some(page) if page.is_of(words) => Arc::try_clone(page),
        _ => Ok(Arc::new(
            alloc,
            KeptPage::of(alloc, words, before.map(|page| &**page))?,
        )?),
    }
}

fn kept_blocks(
    alloc: Global,
    words: &[[u8; 4]],
    before: &[Arc<Vec<[u8; 4]>>],
) -> Result<Vec<Arc<Vec<[u8; 4]>>>, AllocError>
    ensures { IfOk result (λ v. flat_map (λ a. a.value.items) v.items ≡ words.now) }
{
    let mut blocks = Vec::with_capacity(alloc, words.len().div_ceil(BLOCK))?;
    for (i, block) in words.chunks(BLOCK).enumerate() {
        blocks.push(kept_block(alloc, block, before.get(i))?)?;
    }
    Ok(blocks)
}

fn kept_block(
    alloc: Global,
    words: &[[u8; 4]],
    before: Option<&Arc<Vec<[u8; 4]>>>,
) -> Result<Arc<Vec<[u8; 4]>>, AllocError>
    ensures { IfOk result (λ a. a.value.items ≡ words.now) }
{
    match before {
        Some(block) if are_same_words(block.as_slice(), words) => Arc::try_clone(block),
        _ => Ok(Arc::new(alloc, Vec::from_slice(alloc, words)?)?),
    }
}
