//! Which files a crash may leave under other rules of commits than that of bench: an enumeration, by how many cells are apart. Read
//! `Enumeration` first. `crash_models` defines the rules. Of the lists only safety is proved; tests compare them with another enumeration.
//! As at which moments a list has its cells, `Enumeration::moments` says, by `specs/Rules`; and how much of a change is there
//! `ChangeOnDisk`, by `specs/Presences`.
#![tactic(auto)]

mod cells;
mod choices;
mod contents;
mod directories;
mod effects;
mod lists;
mod model;
mod moments;
mod presence;
mod window;

pub use lists::{Enumeration, Listed, Lists};
pub use model::CrashModel;
pub use moments::FileMoments;
pub use presence::{ChangeOnDisk, Part, PartOnDisk, Presence};
pub use window::Window;
