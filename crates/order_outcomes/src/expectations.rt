//! The outcomes that are expected.
use crate::outcome::is_outcome;
use faults::{Fault, Refusal};
use std::alloc::Global;

/// Whether a line may stand among expectations: it is an outcome, it is empty, or it is a comment.
fn may_stand(line: &str) -> bool {
    line.is_empty() || line.starts_with('#') || is_outcome(line)
}

/// The lines of expectations, also those that are empty or comments. Refused is the first that is neither of these and no outcome.
pub fn expectations_of(alloc: Global, text: &str) -> Result<Vec<&str>, Fault> {
    for (place, line) in text.split('\n').enumerate() {
        if !may_stand(line) {
            let refusal = Refusal::Expectations {
                line: place.saturating_add(1),
            };
            return Err(Fault::of_line(alloc, refusal, line));
        }
    }
    Ok(text.split('\n').collect(alloc)?)
}
