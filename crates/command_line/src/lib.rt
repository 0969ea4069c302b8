//! The command line of the program `bench`: its words as a `Task`, and whether reasons are told.
//!
//! Read `parse` first, and the table in `table`. Its types keep the limits of a run; else only safety is proved.
#![tactic(auto)]

mod options;
mod parsing;
mod rows;
mod rules;
mod table;
mod task;

pub use options::{
    CrashOptions, ExecOptions, ExploreOptions, Explored, GdbOptions, ImagePaths, LiveOptions,
    ModelName, OrderBounds, PageOptions, PartOf, PictureOptions, ProgramOptions, RunNumbers,
    RunOptions, TapePaths,
};
pub use parsing::{Arguments, parse};
pub use task::{DiskTask, Task};
