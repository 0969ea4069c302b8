//! How runs by two workers are set up, and what is said of them.
ghost use Rattle.std.specs.Prelude.{◌≤◌};

use crate::fault::Fault;
use executor::Settings;
use kernel::Core;

/// Two workers with this quantum. What the first terminal shows is written out.
pub fn settings(quantum: u32) -> Settings
    requires { 1 ≤ quantum }
{
    Settings {
        workers: 2,
        quantum,
        terminal: Some(0),
        fail: None,
    }
}

/// Says of the run of a number how many changes are committed, and what was written out, in hexadecimal digits.
pub fn say(core: &Core, number: u32, written: &str, line: &mut String) -> Result<(), Fault> {
    let committed = core.committed();
    let changes = core.changes();
    Ok(write!(
        line,
        "; {number}: {committed} of {changes} committed, [{written}] written"
    )?)
}
