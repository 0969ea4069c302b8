//! What a memory is: bytes with rights, and the accesses to them. Read `specs/Memory` first, and then `specs/Access`, which says
//! what each load and store does and why it is refused. Every implementation of `Bus` is proved to keep its laws.
#![tactic(auto)]

mod access;
mod bus;

pub use access::{BusFault, Rights, Width};
pub use bus::Bus;
