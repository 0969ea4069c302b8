//! The page of a script's run: one file of HTML, in which a browser walks the run event by event. Read `write_page` first. It has a
//! script played, and a `BootRecorder` notes what each event did; the page has that as JSON, and what draws it. The texts of the page
//! stand in `page/`, and `tools/page-texts.py` makes `texts.rt` of them. Safety is proved, and that no name and no output ends the
//! element in which it stands.
#![tactic(auto)]

mod boots;
mod changes;
mod cones;
mod crash;
mod data;
mod deeds;
mod disk_data;
mod embedding;
mod event_data;
mod file_data;
mod html;
mod output_data;
mod outputs;
mod paging;
mod place_data;
mod places;
mod texts;
mod versions;
mod waits;
mod writes;

pub use paging::{PagedRun, write_json, write_page};
