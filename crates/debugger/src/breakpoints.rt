//! Breakpoints by their numbers.
ghost use Rattle.std.specs.Prelude.{◌≡◌, IfOk};
ghost use Rattle.debugger.specs.Coasts.{HasAll};
ghost use Rattle.debugger.specs.Stops.{least_from};

use slab::Slab;
use std::alloc::{AllocError, Global};

/// The least number of a breakpoint at an address.
pub fn least_at(breaks: &Slab<u32>, address: u32) -> Option<usize>
    ensures { result ≡ least_from 0 breaks.now.slots address }
{
    for (number, at) in breaks.iter() {
        if *at == address {
            return Some(number);
        }
    }
    None
}

/// The addresses of the breakpoints.
pub fn addresses_of(alloc: Global, breaks: &Slab<u32>) -> Result<Vec<u32>, AllocError>
    ensures { IfOk result (λ stops. HasAll breaks.now.slots stops.items) }
{
    let mut stops = Vec::new(alloc);
    for (_, at) in breaks.iter() {
        stops.push(*at)?;
    }
    Ok(stops)
}
