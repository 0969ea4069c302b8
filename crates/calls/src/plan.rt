//! What a call comes to, before anything changes.
ghost use Rattle.std.specs.Prelude.{◌≡◌, ◌≤◌, ◌<◌, length, IfOk, IfSome};
ghost use Rattle.std.specs.List.{AllByRecursion};
ghost use Rattle.disk_model.specs.Limits.{longest_file, most_files};
ghost use Rattle.disk_model.specs.declared.change.NamedFile.{NamedFile};
ghost use Rattle.disk_model.specs.Numbers.{place_of};
ghost use Rattle.kernel_model.specs.Limits.{AreNumbered};
ghost use Rattle.kernel_model.specs.Steps.{change_of};
ghost use Rattle.kernel_model.specs.Wholes.{IsWhole};
ghost use Rattle.processes.specs.Parts.{part_at, descriptors_in};
ghost use Rattle.calls.specs.Plans.{IsRow, effect_of, Says, CarriesBytes};
ghost use Rattle.calls.specs.Sights.{sight_of, row_from, MayPlanCall, PlansCall};

use crate::ends::{close, exit};
use crate::errno::Errno;
use crate::exec::exec;
use crate::fork::fork;
use crate::open::open;
use crate::pipe::pipe;
use crate::read::{Place, read};
use crate::rename::rename;
use crate::row::CallRow;
use crate::seek::seek;
use crate::tables::KernelTables;
use crate::unlink::unlink;
use crate::wait::wait;
use crate::write::write;
use disk_model::Change;
use files::FileTable;
use kernel_model::{Carrier, FileEdit, Output, PipeStep, Request, Slot, TapeRead, Verdict};
use processes::{Descriptors, ProcTable};
use std::alloc::{AllocError, Global};

/// What a call comes to. Its fields are those of `CallRow`, but `change` names a file by its place among those that live, and an edit
/// by its number. The carriers are those beside the caller's own.
pub struct CallPlan {
    pub verdict: Verdict,
    pub reads: Vec<Carrier>,
    pub writes: Vec<Carrier>,
    pub change: Option<Change>,
    pub output: Option<Output>,
    pub tape: Option<TapeRead>,
    pub pipes: Vec<PipeStep>,
    pub slots: Vec<Slot>,
    pub child: Option<u32>,
    pub collects: Option<u32>,
}

impl Drop for CallPlan {
    fn drop(self) {
        let CallPlan {
            verdict: _verdict,
            reads: _reads,
            writes: _writes,
            change: _change,
            output: _output,
            tape: _,
            pipes: _pipes,
            slots: _slots,
            child: _,
            collects: _,
        } = self;
    }
}

impl CallPlan {
    /// What the caller is told, and the change of the files; the rest is let go.
    pub fn into_verdict_and_change(self) -> (Verdict, Option<Change>)
        ensures verdict { result.0 ≡ self.verdict }
        ensures change { result.1 ≡ self.change }
    {
        let CallPlan {
            verdict,
            reads: _reads,
            writes: _writes,
            change,
            output: _output,
            tape: _,
            pipes: _pipes,
            slots: _slots,
            child: _,
            collects: _,
        } = self;
        (verdict, change)
    }
}

/// The place of the file of this number among those that live.
fn place_of(files: &FileTable, file: u64) -> Option<u16>
    requires { length files.now.living ≤ most_files }
    ensures { result ≡ place_of files.now file }
{
    let place = files.place(file)?;
    Some(place as u16)
}

/// The change by which an edit of a file is made. None where the file does not live.
fn change_of(files: &FileTable, edit: FileEdit) -> Option<Change>
    requires { length files.now.living ≤ most_files }
    ensures { result ≡ change_of files.now edit }
{
    match edit {
        FileEdit::Create(name) => Some(Change::Create(name)),
        FileEdit::Write {
            file,
            offset,
            bytes,
        } => {
            let file = place_of(files, file)?;
            Some(Change::Write {
                file,
                offset,
                bytes,
            })
        }
        FileEdit::Empty(file) => place_of(files, file).map(Change::Empty),
        FileEdit::Remove(file) => place_of(files, file).map(Change::Remove),
        FileEdit::Rename { file, name } => {
            let file = place_of(files, file)?;
            Some(Change::Rename { file, name })
        }
    }
}

/// The plan of a row of the table: its edit of a file becomes a change, by the file's place. Takes no memory.
fn planned(files: &FileTable, mut row: CallRow) -> CallPlan
    requires { length files.now.living ≤ most_files }
    ensures { Says files.now result (effect_of row) }
{
    match row.edit.take() {
        Some(edit) => row.with_change(change_of(files, edit)),
        None => row.with_change(None),
    }
}

fn descriptors_of(processes: &ProcTable, pid: u32) -> &Descriptors
    requires from_1 { 0 < pid }
    requires there { pid ≤ length processes.now.parts }
    ensures value { result.now ≡ descriptors_in (part_at processes.now.parts pid) }
    ensures few { length result.now ≤ 16 }
{
    processes.descriptors(pid).unwrap()
}

fn plan_row(
    alloc: Global,
    tables: &KernelTables,
    pid: u32,
    descriptors: &Descriptors,
    request: Request,
) -> Result<CallRow, AllocError>
    requires numbered { AreNumbered tables.now.files.now }
    requires short { AllByRecursion (λ (f : NamedFile). length f.bytes ≤ longest_file) tables.now.files.now.living }
    requires whole { IsWhole request }
    ensures row { IfOk result (λ row. IsRow row (row_from (sight_of tables.now) pid descriptors.now request)) }
    ensures carries { IfOk result (λ row. IfSome row.edit CarriesBytes) }
{
    match request {
        Request::Exit { status } => exit(alloc, descriptors, status),
        Request::Write { fd, n, bytes } => write(alloc, tables, descriptors, fd, n, bytes),
        Request::Read { fd, at, n, fits } => {
            read(alloc, tables, descriptors, fd, Place { at, n, fits })
        }
        Request::Open { n, mode, name } => open(alloc, tables.files, descriptors, n, mode, name),
        Request::Close { fd } => close(alloc, descriptors, fd),
        Request::Pipe { at, fits } => pipe(alloc, tables.pipes, descriptors, at, fits),
        Request::Fork => fork(alloc, tables.processes, descriptors),
        Request::Wait { at, fits } => wait(alloc, tables.processes, pid, at, fits),
        Request::GetPid => Ok(CallRow::number(alloc, pid)),
        Request::Seek { fd, offset } => seek(alloc, tables.files, descriptors, fd, offset),
        Request::Sync => Ok(CallRow::number(alloc, 0)),
        Request::Unlink { n, name } => unlink(alloc, tables.files, n, name),
        Request::Rename { n, m, names } => rename(alloc, tables.files, n, m, names),
        Request::Exec { n, name } => exec(alloc, tables.files, n, name),
        Request::Unknown => Ok(CallRow::failure(alloc, Errno::NoSuchCall)),
    }
}

/// What a request of process `pid` comes to; nothing changes. It wants at most 32 files that live, of at most 16,384 bytes each.
/// Where a machine asks this request, the bytes of the reply may be written at their place in it. Refused for want of memory alone.
pub fn plan_call(
    alloc: Global,
    tables: &KernelTables,
    pid: u32,
    request: Request,
) -> Result<CallPlan, AllocError>
    requires may { MayPlanCall (sight_of tables.now) pid }
    requires whole { IsWhole request }
    ensures { IfOk result (λ plan. PlansCall (sight_of tables.now) pid request plan) }
{
    let descriptors = descriptors_of(tables.processes, pid);
    let row = plan_row(alloc, tables, pid, descriptors, request)?;
    Ok(planned(tables.files, row))
}
