//! The definition of a program's machine: effects of instructions, states, runs, replies, and the images that it is loaded from.
//! Read `specs/States` and `specs/Steps` first. `steps` and `runs` join the functions that compute to the relations.
#![tactic(auto)]

mod image;
mod immediate;
mod laws;
mod little_endian;
mod reply;
mod stop;

pub use image::{Image, Segment};
pub use immediate::word_of_immediate;
pub use laws::{runs, steps};
pub use little_endian::put_words;
pub use memory_model::{Bus, BusFault, Rights, Width};
pub use reply::Reply;
pub use stop::{Cause, Stop};
