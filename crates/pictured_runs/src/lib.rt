//! The picture of a script's run. Read `picture` first. It has a script played, and a `PictureBuilder` notes what each event did;
//! `pictures` draws what was noted. Only safety is proved.
#![tactic(auto)]

mod builder;
mod cones;
mod crashes;
mod paths;
mod picturing;
mod texts;

pub use picturing::picture;
