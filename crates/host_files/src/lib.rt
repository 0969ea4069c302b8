//! Files of the host, by their paths: what a file holds (`kind_of`), sources that are assembled and checked, images made of executables
//! and listed, traces that are read, and disks read and kept. What is refused has its path and the reason. Only safety is proved, and
//! that the disk with which a run begins is quiet.
#![tactic(auto)]

mod checking;
mod debugging;
mod disk_file;
mod disk_lock;
mod durable_file;
mod fields;
mod image_reason;
mod kind;
mod linked;
mod list;
mod output_file;
mod place;
mod reading;
mod source;
mod trace;

pub use checking::check_file;
pub use debugging::{replies_in, source_lines, source_lines_in};
pub use disk_file::{disk_in, disk_or_zeros, keep, test_place, zeros};
pub use disk_lock::DiskLock;
pub use durable_file::open_durable;
pub use kind::{FileKind, is_script, kind_fault, kind_of};
pub use linked::image_file;
pub use list::list_file;
pub use output_file::{OutputFile, write_file};
pub use place::Place;
pub use reading::{image_bytes_in, image_in, image_of_bytes, image_of_file, text_in, text_of_file};
pub use source::{assemble_file, source_fault, source_text, symbols_file};
