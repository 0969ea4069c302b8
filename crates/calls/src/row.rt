//! What a call comes to by the table of calls.
ghost use Rattle.std.specs.Prelude.{◌≡◌, ◌++◌, ◌∷◌, [], Some, IfOk};
ghost use Rattle.kernel_model.specs.Rows.{only, number, failure, looking_at};
ghost use Rattle.calls.specs.Errors.{code_of};
ghost use Rattle.calls.specs.Plans.{IsRow, effect_of, effect_with};

use crate::errno::Errno;
use crate::plan::CallPlan;
use crate::verdict::number;
use disk_model::Change;
use kernel_model::{Carrier, Descriptor, FileEdit, Output, PipeStep, Slot, TapeRead, Verdict};
use std::alloc::{AllocError, Global};

/// What a call comes to by the table. The definition `CallEffect` has the same fields, on purpose. They are: what the caller is told;
/// the carriers that the call reads and writes beside the caller's own; its edits. `edit` names a file by its number. `child` is a
/// process that is made, `collects` a child that is collected.
pub(crate) struct CallRow {
    pub verdict: Verdict,
    pub reads: Vec<Carrier>,
    pub writes: Vec<Carrier>,
    pub edit: Option<FileEdit>,
    pub output: Option<Output>,
    pub tape: Option<TapeRead>,
    pub pipes: Vec<PipeStep>,
    pub slots: Vec<Slot>,
    pub child: Option<u32>,
    pub collects: Option<u32>,
}

impl Drop for CallRow {
    fn drop(self) {
        let CallRow {
            verdict: _verdict,
            reads: _reads,
            writes: _writes,
            edit: _edit,
            output: _output,
            tape: _,
            pipes: _pipes,
            slots: _slots,
            child: _,
            collects: _,
        } = self;
    }
}

impl CallRow {
    /// The caller is told this, and nothing else comes of it.
    pub fn only(alloc: Global, verdict: Verdict) -> CallRow
        ensures { IsRow result (only verdict) }
    {
        CallRow {
            verdict,
            reads: Vec::new(alloc),
            writes: Vec::new(alloc),
            edit: None,
            output: None,
            tape: None,
            pipes: Vec::new(alloc),
            slots: Vec::new(alloc),
            child: None,
            collects: None,
        }
    }

    /// A reply of a number, without bytes.
    pub fn number(alloc: Global, a0: u32) -> CallRow
        ensures { IsRow result (only (number a0)) }
    {
        CallRow::only(alloc, number(a0))
    }

    /// A reply of an error, which changes nothing.
    pub fn failure(alloc: Global, errno: Errno) -> CallRow
        ensures { IsRow result (failure (code_of errno)) }
    {
        CallRow::number(alloc, errno.reply())
    }

    /// It reads this carrier too.
    pub fn reading(mut self, carrier: Carrier) -> Result<CallRow, AllocError>
        ensures { IfOk result
            (λ row. IsRow row (record (effect_of self) { reads = self.reads.items ++ carrier ∷ [] })) }
    {
        let pushed = self.reads.push(carrier);
        Ok(pushed.and(Ok(self))?)
    }

    /// It looks whether the file for which a descriptor stands, if it stands for one, still lives: it reads that file first.
    pub fn looking_at(mut self, descriptor: Option<Descriptor>) -> Result<CallRow, AllocError>
        ensures { IfOk result (λ row. IsRow row (looking_at descriptor (effect_of self))) }
    {
        let Some(Descriptor::File { file, .. }) = descriptor else {
            return Ok(self);
        };
        let inserted = self.reads.insert(0, Carrier::File(file));
        Ok(inserted.and(Ok(self))?)
    }

    /// It writes this carrier too.
    pub fn writing(mut self, carrier: Carrier) -> Result<CallRow, AllocError>
        ensures { IfOk result
            (λ row. IsRow row (record (effect_of self) { writes = self.writes.items ++ carrier ∷ [] })) }
    {
        let pushed = self.writes.push(carrier);
        Ok(pushed.and(Ok(self))?)
    }

    /// It reads and writes this carrier too.
    pub fn updating(self, carrier: Carrier) -> Result<CallRow, AllocError>
        ensures { IfOk result (λ row. IsRow row (record (effect_of self) {
          reads = self.reads.items ++ carrier ∷ [];
          writes = self.writes.items ++ carrier ∷ [];
        })) }
    {
        self.reading(carrier)?.writing(carrier)
    }

    /// It reads and writes these carriers too.
    pub fn updating_all(mut self, carriers: &[Carrier]) -> Result<CallRow, AllocError>
        ensures { IfOk result (λ row. IsRow row (record (effect_of self) {
          reads = self.reads.items ++ carriers.now;
          writes = self.writes.items ++ carriers.now;
        })) }
    {
        let read = self.reads.extend_from_slice(carriers);
        let written = self.writes.extend_from_slice(carriers);
        read.and(written).and(Ok(self))
    }

    /// This edit of a file comes of it.
    pub fn editing(mut self, edit: FileEdit) -> CallRow
        ensures { IsRow result (record (effect_of self) { edit = Some edit }) }
    {
        self.edit = Some(edit);
        self
    }

    /// This step of the pipes comes of it too.
    pub fn stepping(mut self, step: PipeStep) -> Result<CallRow, AllocError>
        ensures { IfOk result
            (λ row. IsRow row (record (effect_of self) { pipes = self.pipes.items ++ step ∷ [] })) }
    {
        let pushed = self.pipes.push(step);
        Ok(pushed.and(Ok(self))?)
    }

    /// The descriptor of this number comes to stand for this too.
    pub fn setting(mut self, fd: usize, holds: Option<Descriptor>) -> Result<CallRow, AllocError>
        ensures { IfOk result (λ row. IsRow row (record (effect_of self) {
          slots = self.slots.items ++ record { fd = fd; holds = holds } ∷ [];
        })) }
    {
        let pushed = self.slots.push(Slot { fd, holds });
        Ok(pushed.and(Ok(self))?)
    }

    /// The plan that says the same, with this change of the files in place of the edit. Takes no memory.
    pub fn with_change(self, change: Option<Change>) -> CallPlan
        ensures row { effect_with result self.edit ≡ effect_of self }
        ensures change { result.change ≡ change }
    {
        let CallRow {
            verdict,
            reads,
            writes,
            edit: _edit,
            output,
            tape,
            pipes,
            slots,
            child,
            collects,
        } = self;
        CallPlan {
            verdict,
            reads,
            writes,
            change,
            output,
            tape,
            pipes,
            slots,
            child,
            collects,
        }
    }
}
