//! What calls may look at.
use crate::tapes::TapeTable;
use files::FileTable;
use pipes::PipeTable;
use processes::ProcTable;

/// The tables of a kernel from which calls are planned. A plan changes nothing of them.
#[derive(Clone, Copy)]
pub struct KernelTables<'a> {
    pub files: &'a FileTable,
    pub pipes: &'a PipeTable,
    pub tapes: &'a TapeTable,
    pub processes: &'a ProcTable,
}
