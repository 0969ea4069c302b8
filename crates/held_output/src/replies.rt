//! Copies of replies.
ghost use Rattle.std.specs.Prelude.{◌≡◌, IfOk};

use crate::withheld::Withheld;
use machine_model::Reply;
use std::alloc::{AllocError, Global};

/// So many replies are told before a copy of replies takes more memory.
const FIRST_CALLS: usize = 8;

/// The same replies, and room for those to the first calls of a child. Only one that brings bytes or an image takes memory of its
/// own.
fn copies_of(alloc: Global, replies: &[Reply]) -> Result<Vec<Reply>, AllocError>
    ensures { IfOk result (λ copies. copies.items ≡ replies.now) }
{
    let mut copies = Vec::with_capacity(alloc, replies.len() + FIRST_CALLS)?;
    for reply in replies {
        copies.push(reply.try_clone(alloc)?)?;
    }
    Ok(copies)
}

/// A copy of replies that are held back, with their marks. Refused for want of memory alone.
pub fn copy_of(alloc: Global, replies: &Withheld<Reply>) -> Result<Withheld<Reply>, AllocError>
    ensures items { IfOk result (λ copy. copy.items ≡ replies.now.items) }
    ensures committed { IfOk result (λ copy. copy.committed ≡ replies.now.committed) }
{
    Ok(Withheld {
        items: copies_of(alloc, &replies.items)?,
        marks: replies.marks.try_clone(alloc)?,
    })
}
