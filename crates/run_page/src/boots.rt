//! What follows a boot, noted event by event.
use crate::changes::change_of;
use crate::cones::{last_cone, needs_of};
use crate::crash::{copy_of, outcomes};
use crate::data::{BootData, EndData, ProcessData, RefusedData};
use crate::deeds::deed_of;
use crate::event_data::EventData;
use crate::file_data::ChangeData;
use crate::outputs::OutputNotes;
use crate::places::{Registers, Seen, place_of};
use crate::versions::FileVersions;
use crate::writes::WriteNotes;
use faults::Fault;
use files::FileList;
use kernel::{Core, Event};
use run_events::EventRecord;
use scripts::{AnswerText, EventText, process_of};
use std::alloc::{AllocError, Global};
use std::collections::BTreeMap;

/// What followed a boot so far.
pub struct BootRecorder {
    alloc: Global,
    processes: Vec<ProcessData>,
    versions: FileVersions,
    changes: Vec<ChangeData>,
    outputs: OutputNotes,
    writes: WriteNotes,
    refused: Vec<RefusedData>,
    events: Vec<EventData>,
    /// What a crash leaves right after the boot, and after the last event.
    first_crash: Vec<Option<u64>>,
    crash: Vec<Option<u64>>,
}

impl Drop for BootRecorder {
    fn drop(self) {
        let BootRecorder {
            alloc: _,
            processes: _processes,
            versions: _versions,
            changes: _changes,
            outputs: _outputs,
            writes: _writes,
            refused: _refused,
            events: _events,
            first_crash: _first_crash,
            crash: _crash,
        } = self;
    }
}

impl BootRecorder {
    /// Right after a boot.
    pub fn new(alloc: Global, seen: Seen<'_>) -> Result<BootRecorder, Fault> {
        let core = seen.core;
        let versions = FileVersions::new(alloc, core.boot_files())?;
        let crash = outcomes(alloc, core, &versions)?;
        let mut recorder = BootRecorder {
            alloc,
            processes: Vec::new(alloc),
            versions,
            changes: Vec::new(alloc),
            outputs: OutputNotes::new(alloc),
            writes: WriteNotes::new(alloc),
            refused: Vec::new(alloc),
            events: Vec::new(alloc),
            first_crash: copy_of(alloc, crash.as_slice())?,
            crash,
        };
        for pid in 1..=core.tables().processes.len() as u32 {
            recorder.note_process(seen, pid, 0)?;
        }
        Ok(recorder)
    }

    /// Notes a process that is new, and its parent, 0 at the boot.
    fn note_process(&mut self, seen: Seen<'_>, pid: u32, parent: u32) -> Result<(), AllocError> {
        Ok(
            self.processes.push(ProcessData {
                p: pid,
                e: seen.core.history().len() as u64,
                parent,
                at: place_of(self.alloc, seen, pid, &Registers::zero())?,
            })?,
        )
    }

    /// Notes the change that an event made, if it made one.
    fn note_change(&mut self, core: &Core, done: &EventRecord<'_>) -> Result<(), AllocError> {
        let Some(change) = done.change else {
            return Ok(());
        };
        self.changes
            .push(change_of(self.alloc, core, done, change)?)?;
        self.versions.push(self.alloc, core.tables().files.list())
    }

    /// Notes what the disk does, and what a crash would leave since.
    fn note_disk(&mut self, core: &Core, event: Event) -> Result<(), Fault> {
        if process_of(event).is_some() {
            return Ok(());
        }
        self.writes.note(core, event)?;
        self.crash = outcomes(self.alloc, core, &self.versions)?;
        Ok(())
    }

    /// What an event did that the core accepted last, with its cone. The registers of its process held this before.
    fn event_of(
        &self,
        seen: Seen<'_>,
        done: &EventRecord<'_>,
        registers: &Registers,
        cone: BTreeMap<u32, u64>,
    ) -> Result<EventData, AllocError> {
        let (alloc, core) = (self.alloc, seen.core);
        let p = done.process();
        let (line, text) = (EventText(done.event), AnswerText(done.answer));
        Ok(EventData {
            n: core.history().len() as u64,
            line: format!(in alloc; "{line}")?,
            answer: format!(in alloc; "{text}")?,
            p,
            deed: deed_of(alloc, core, done)?,
            at: place_of(alloc, seen, p, registers)?,
            changes: core.changes(),
            committed: core.committed(),
            cone,
            crash: copy_of(alloc, self.crash.as_slice())?,
        })
    }

    /// Notes an event that the core accepted last. The registers of its process held this before.
    pub fn push_event(
        &mut self,
        seen: Seen<'_>,
        done: &EventRecord<'_>,
        registers: &Registers,
    ) -> Result<(), Fault> {
        let core = seen.core;
        if let Some(child) = done.child {
            self.note_process(seen, child, done.process())?;
        }
        self.note_change(core, done)?;
        self.note_disk(core, done.event)?;
        let cone = last_cone(self.alloc, core, done.event)?;
        let needs = needs_of(&cone, self.changes.as_slice());
        self.outputs.note(self.alloc, core, done.output, needs)?;
        let event = self.event_of(seen, done, registers, cone)?;
        Ok(self.events.push(event)?)
    }

    /// Notes a line that was refused.
    pub fn push_refused(&mut self, line: String, answer: String) -> Result<(), AllocError> {
        let after = self.events.len() as u64;
        Ok(
            self.refused.push(RefusedData {
                after,
                line,
                answer,
            })?,
        )
    }

    /// The end by a crash of this line, as far as it is known before the next boot.
    pub fn end_of(&self, core: &Core, line: String) -> EndData {
        EndData {
            line,
            changes: core.changes().saturating_sub(core.committed()),
            outputs: self.outputs.held_back(),
            found: None,
        }
    }

    /// After how many changes, those committed among them, the files are that the next boot found.
    pub fn found(&self, files: &FileList, committed: u64) -> Result<Option<u64>, AllocError> {
        self.versions.find(self.alloc, files, committed)
    }

    /// What followed the boot, up to this end.
    pub fn finish(self, ends: Option<EndData>) -> BootData {
        let BootRecorder {
            alloc: _,
            processes,
            versions,
            changes,
            outputs,
            writes,
            refused,
            events,
            first_crash,
            crash: _crash,
        } = self;
        let (states, versions) = versions.into_parts();
        BootData {
            processes,
            states,
            versions,
            changes,
            outputs: outputs.into_outputs(),
            writes: writes.into_writes(),
            refused,
            events,
            crash: first_crash,
            ends,
        }
    }
}
