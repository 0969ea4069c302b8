//! A source checked.
ghost use Rattle.std.specs.Prelude.{IfOk};
ghost use Rattle.source_checks.specs.Checks.{IsChecked};

use crate::warnings::{Warning, warnings};
use assembler::{AsmFault, Cause, Listing, assemble};
use machine_model::Image;
use std::alloc::{AllocError, Global};

/// What a check of a source finds.
#[derive(Drop)]
pub enum Checked {
    /// Its first fault, as `assemble` tells it.
    Refused(AsmFault),
    /// It assembles, to this image and this listing.
    Passed {
        image: Image,
        listing: Listing,
        warnings: Vec<Warning>,
    },
}

/// Checks a source.
pub fn check(alloc: Global, source: &str) -> Result<Checked, AllocError>
    ensures { IfOk result (λ checked. IsChecked source.now checked) }
{
    match assemble(alloc, source) {
        Ok((image, listing)) => {
            let warnings = warnings(alloc, source, &image)?;
            Ok(Checked::Passed {
                image,
                listing,
                warnings,
            })
        }
        Err(fault) => match fault.why {
            Cause::OutOfMemory => Err(AllocError),
            _ => Ok(Checked::Refused(fault)),
        },
    }
}
