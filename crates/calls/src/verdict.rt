//! What a call tells its caller.
ghost use Rattle.std.specs.Prelude.{◌≡◌, [], Some, IfOk};
ghost use Rattle.kernel_model.specs.Rows.{number, with_bytes};
ghost use Rattle.kernel_model.specs.declared.request.Verdict.TheVariants.{Replies};

use byte_list::Bytes;
use kernel_model::Verdict;
use machine_model::{Image, Reply};
use std::alloc::{AllocError, Global};

/// A reply of a number, without bytes. Takes no memory.
pub fn number(a0: u32) -> Verdict
    ensures { result ≡ number a0 }
{
    Verdict::Replies(Reply::number(a0))
}

/// A reply of a number, with bytes for a place; the place is 0 where there are none.
pub fn with_bytes(alloc: Global, a0: u32, at: u32, bytes: Bytes) -> Result<Verdict, AllocError>
    ensures { IfOk result (λ verdict. verdict ≡ with_bytes a0 at bytes) }
{
    let at = match bytes.as_slice() {
        [] => 0,
        [_, ..] => at,
    };
    Ok(Verdict::Replies(Reply::with_bytes(alloc, a0, at, bytes)?))
}

/// The reply by which the caller goes on from an image's first state.
pub fn with_image(alloc: Global, image: Image) -> Result<Verdict, AllocError>
    ensures { IfOk result
        (λ verdict. verdict ≡ Replies (record { a0 = 0; at = 0; bytes = []; image = Some image })) }
{
    Ok(Verdict::Replies(Reply::with_image(alloc, image)?))
}
