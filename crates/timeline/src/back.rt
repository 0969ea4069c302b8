//! `Timeline::back`, `reverse` and `step_back`: move a program back, to a breakpoint or a watch, or by one instruction.
use crate::changes::{back_by, last_change};
use crate::fault::SessionFault;
use crate::stop::Stop;
use crate::timeline::Timeline;
use debugger::Watch;

/// How many instructions are gone back at most between two looks at gdb's interrupts.
const SLICE: u64 = 1 << 16;

/// The instructions between two kept states, a span. Where watches are set, one span is run again at a time.
const SPAN: u64 = 1024;

/// How many spans are run again between two looks at gdb's interrupts.
const SPANS: u32 = 64;

impl Timeline {
    /// Goes back by one instruction. Where that instruction meets a watch, the machine stays after the instruction. It gives that
    /// watch then.
    pub fn step_back(&mut self) -> Result<Stop, SessionFault> {
        let Some(before) = self.count().checked_sub(1) else {
            return Ok(Stop::Begin);
        };
        self.debugger.rewind(before)?;
        match self.next_met() {
            Some(watch) => {
                let _ = self.debugger.step()?;
                Ok(Stop::Watch(watch))
            }
            None => Ok(Stop::Done),
        }
    }

    /// Runs again up to a count, and finds the last watch that is met on this way, with the count after the instruction that meets
    /// it.
    fn last_met(&mut self, end: u64) -> Result<Option<(u64, Watch)>, SessionFault> {
        let mut last = None;
        for _ in self.count()..end {
            let met = self.next_met();
            let _ = self.debugger.step()?;
            last = met.map(|watch| (self.count(), watch)).or(last);
        }
        Ok(last)
    }

    /// Goes back to the next kept state below, or to where a watch or a breakpoint stops the machine. None where nothing did, and
    /// the way goes on from there.
    fn back_span(&mut self) -> Result<Option<Stop>, SessionFault> {
        let end = self.count();
        let low = end.saturating_sub(1) / SPAN * SPAN;
        let number = self.debugger.back_to(low)?;
        let from = self.count();
        match self.last_met(end)? {
            Some((count, watch)) => {
                self.debugger.rewind(count)?;
                Ok(Some(Stop::Watch(watch)))
            }
            None => {
                self.debugger.rewind(from)?;
                Ok(number.map(|number| Stop::Break(number)))
            }
        }
    }

    /// As `back`, with watches.
    fn back_watched(&mut self) -> Result<Option<Stop>, SessionFault> {
        for _ in 0..SPANS {
            if self.count() == 0 {
                return Ok(Some(Stop::Begin));
            }
            if let Some(stop) = self.back_span()? {
                return Ok(Some(stop));
            }
        }
        Ok(None)
    }

    /// As `back`, without watches.
    fn back_unwatched(&mut self) -> Result<Option<Stop>, SessionFault> {
        let least = self.least_of_slice();
        match self.debugger.back_to(least)? {
            Some(number) => Ok(Some(Stop::Break(number))),
            None => Ok((least == 0).then_some(Stop::Begin)),
        }
    }

    /// The least count of a slice of the way back: 0 where no breakpoint is set.
    fn least_of_slice(&self) -> u64 {
        if self.debugger.has_no_break() {
            0
        } else {
            self.count().saturating_sub(SLICE)
        }
    }

    /// Goes back by a slice. It ends at the greatest count below at which a breakpoint stands, or right after an instruction that
    /// meets a watch, else at the first state. None where the way back goes on from where the slice ended.
    pub fn back(&mut self) -> Result<Option<Stop>, SessionFault> {
        if self.watches() {
            self.back_watched()
        } else {
            self.back_unwatched()
        }
    }

    /// The count right after the last instruction that changed what is followed, below the present count; 0 where none did. The
    /// machine stays.
    fn after_last_change(&mut self) -> Result<u64, SessionFault> {
        let now = self.count();
        if self.followed.is_empty() {
            return Ok(0);
        }
        back_by(&mut self.debugger, 1)?;
        let found = last_change(self.alloc, &mut self.debugger, &self.followed)?;
        self.forward(now)?;
        Ok(found.map_or(0, |count| count.saturating_add(1)))
    }

    /// Goes on to a count that was reached before, past breakpoints.
    pub fn forward(&mut self, count: u64) -> Result<(), SessionFault> {
        let rest = count.saturating_sub(self.count());
        let _ = self.debugger.run(rest)?;
        Ok(())
    }

    /// Goes back to the greatest count below at which a breakpoint stands, or right after an instruction that changed what is
    /// followed; else to the first state.
    pub fn reverse(&mut self) -> Result<Stop, SessionFault> {
        let after = self.after_last_change()?;
        match self.debugger.back_to(after)? {
            Some(number) => Ok(Stop::Break(number)),
            None if after > 0 => Ok(Stop::Change),
            None => Ok(Stop::Begin),
        }
    }
}
