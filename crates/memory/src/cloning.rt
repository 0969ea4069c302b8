//! Copies of a space.
ghost use Rattle.std.specs.Prelude.{◌≡◌, IfOk, map};

use crate::part::Part;
use crate::space::Space;
use std::alloc::{AllocError, Global};
use std::sync::Arc;

impl Space {
    /// A copy, as a fork needs it. Pages that may be written are copied, the others shared.
    pub fn try_clone(&self, alloc: Global) -> Result<Space, AllocError>
        ensures { IfOk result (λ s. s ≡ self.now) }
    {
        Ok(Space {
            own: self.own.try_clone(alloc)?,
            shared: shares_of(alloc, self.shared.as_slice())?,
        })
    }
}

pub(crate) fn shares_of(alloc: Global, parts: &[Arc<Part>]) -> Result<Vec<Arc<Part>>, AllocError>
    ensures { IfOk result (λ v. map (λ a. a.value) v.items ≡ map (λ a. a.value) parts.now) }
{
    let mut shares = Vec::with_capacity(alloc, parts.len())?;
    for part in parts {
        shares.push(Arc::try_clone(part)?)?;
    }
    Ok(shares)
}
