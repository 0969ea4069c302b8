//! What the form of a statement wants at a place.
use crate::forms::form_of;
use crate::place::{Place, first_of};

/// Whether the second piece of a text is a comma.
fn has_comma_second(text: &str) -> bool {
    let (_, rest) = first_of(text.trim_start());
    rest.trim_start().starts_with(',')
}

/// The form of the operands of a place's statement, if its name is known. Of two forms the second is meant, which has no register to
/// link, if no comma follows the first operand.
pub fn form_at(place: &Place<'_>) -> Option<&'static str> {
    let first = form_of(place.name, 0)?;
    match form_of(place.name, 1) {
        Some(second) if !has_comma_second(place.after) => Some(second),
        _ => Some(first),
    }
}

/// What a form has after so many operands and marks as a text has. Empty at its end.
pub fn wanted_after(form: &'static str, text: &str) -> &'static str {
    let mut wanted = form;
    let mut rest = text.trim_start();
    for _ in 0..text.len() {
        if rest.is_empty() {
            break;
        }
        rest = first_of(rest).1.trim_start();
        wanted = match first_of(wanted).1 {
            ".." => form,
            after => after,
        };
    }
    wanted
}
