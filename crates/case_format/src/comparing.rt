//! `check_text`: refuses what a run gave that is not what is wanted of it.
use anyhow::{Error, anyhow, bail};

/// The error of a text that is not the wanted one: its first line that differs.
fn difference(came: &str, wanted: &str) -> Error {
    let mut lines = came.lines();
    for line in wanted.lines() {
        let came = lines.next().unwrap_or("");
        if came != line {
            return anyhow!("wanted '{line}', came '{came}'");
        }
    }
    Error::msg("the lines came, and more of them or other ends than were wanted")
}

/// Refuses a text that is not the wanted one. The error has the first line that differs.
pub fn check_text(came: &str, wanted: &str) -> Result<(), Error> {
    if came == wanted {
        Ok(())
    } else {
        Err(difference(came, wanted))
    }
}

/// Refuses an exit status that is not the wanted one.
pub fn check_exit(came: u8, wanted: u8) -> Result<(), Error> {
    if came == wanted {
        Ok(())
    } else {
        bail!("the status was {came}")
    }
}
