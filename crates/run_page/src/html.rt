//! The page around a run.
ghost use Rattle.std.specs.Prelude.{OnOk};
ghost use Rattle.std.specs.Io.KnownBytes.{Appends};
ghost use Rattle.run_page.specs.Page.{page_of};

use crate::embedding::embedded;
use crate::texts::{END, MIDDLE, START};
use faults::Fault;
use pictures::escaped;
use std::alloc::Global;
use std::io::Write;

/// Writes the page of a run of this name and with this JSON.
pub fn write_html<O: Write>(alloc: Global, name: &str, json: &str, out: &mut O) -> Result<(), Fault>
    ensures { OnOk result (Appends (O.contents out.old) (O.contents out.new) (page_of name.now json.now)) }
{
    let (name, json) = (name.as_bytes(), json.as_bytes());
    let title = escaped(alloc, name)?;
    let data = embedded(alloc, json)?;
    out.write_all(START.as_bytes())?;
    out.write_all(title.as_slice())?;
    out.write_all(MIDDLE.as_bytes())?;
    out.write_all(data.as_slice())?;
    Ok(out.write_all(END.as_bytes())?)
}
