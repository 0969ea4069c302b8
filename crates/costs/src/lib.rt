//! What a call costs after a long history beside a short one, as a ratio of two times of one run. This is a measurement: nothing is
//! compared with what is wanted.
#![tactic(auto)]

mod writes;

pub use writes::write_lines;
