//! Assertions about the rows of a table.
use std::alloc::{AllocError, Global};
use std::fmt::{Debug, Display};
use std::process::Abort;

/// Fails, and says which row it is, where a row gives something else than is wanted. It takes the two values and does not borrow
/// them, since each borrow costs the proof of its caller.
pub fn assert_row<T: PartialEq + Debug + Drop>(
    rt: &impl Abort,
    row: impl Display + Drop,
    found: T,
    wanted: T,
) {
    assert_eq!(rt; found, wanted, "{row}");
}

/// Fails where the text of a value is not this one.
pub fn assert_shown(
    rt: &impl Abort,
    alloc: Global,
    value: &impl Display,
    text: &str,
) -> Result<(), AllocError> {
    let shown = format!(in alloc; "{value}")?;
    assert_row(rt, text, shown.as_str(), text);
    Ok(())
}
