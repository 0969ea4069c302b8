//! What each event of a run did, told to whoever watches the run. Read `EventRecord` first, then `Observer`, `EventSource` and `run`.
#![tactic(auto)]

mod before;
mod both;
mod call_site;
mod event_record;
mod laws;
mod playing;
mod sources;

pub use before::Before;
pub use both::{Both, Nobody};
pub use call_site::CallSite;
pub use event_record::{EventRecord, Output, Told};
pub use laws::records_say_all;
pub use playing::{Interest, Observer, play, run, step};
pub use sources::{Drain, EventList, EventSource, OwnGroups};
