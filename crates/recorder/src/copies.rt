//! Copies replies.
ghost use Rattle.std.specs.Prelude.{◌≡◌, IfOk};

use machine_model::Reply;
use std::alloc::{AllocError, Global};

/// The same replies in memory of their own.
pub fn copies_of(alloc: Global, replies: &[Reply]) -> Result<Vec<Reply>, AllocError>
    ensures { IfOk result (λ copies. copies.items ≡ replies.now) }
{
    let mut copies = Vec::new(alloc);
    for reply in replies {
        copies.push(reply.try_clone(alloc)?)?;
    }
    Ok(copies)
}
