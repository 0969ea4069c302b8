//! `Timeline::ahead`: moves a program on, up to a breakpoint, a watch, or a call that has no reply.
use crate::changes::run_to_change;
use crate::fault::SessionFault;
use crate::stop::{End, Stop};
use crate::timeline::Timeline;
use debugger::{MOST_INSTRUCTIONS, Stopped, Watch};
use kernel_model::Refused;
use recorder::Recorded;

/// How many instructions a part of the way on has at most while locations are followed.
const FOLLOWED: u32 = 1 << 16;

/// How a program goes on.
#[derive(Clone, Copy)]
pub struct Way {
    /// The most instructions.
    pub most: u64,
    /// Whether breakpoints and watches stop it.
    pub stops: bool,
    /// The most loans that the kernel runs to find a reply.
    pub loans: u32,
}

/// What a part of the way on came to.
#[derive(Clone, Copy)]
pub enum After {
    /// The program stops.
    Stop(Stop),
    /// Instructions were done.
    Part,
    /// The kernel was asked, and has replies.
    Asked,
    /// The call at which the machine stands got its reply, the last one of the debugger's trace. The machine takes it next.
    Replied,
    /// The kernel has no reply yet for this process.
    NoReply { process: u32 },
}

/// The program goes no further.
fn ended(end: End) -> Result<After, SessionFault> {
    Ok(After::Stop(Stop::End(end)))
}

impl Timeline {
    /// The watch that the next instruction, or the next reply, meets; where there are several, the one that was set first.
    pub(crate) fn next_met(&self) -> Option<Watch> {
        let access = self.debugger.next_access()?;
        self.watches
            .iter()
            .find(|watch| watch.is_met(&access))
            .copied()
    }

    /// Has the kernel run on until it has more replies, for at most so many loans.
    fn ask(&mut self, loans: u32) -> Result<After, SessionFault> {
        let Some(live) = &mut self.live else {
            return ended(End::Trace);
        };
        let process = live.process();
        match live.more(loans) {
            Ok(Recorded::Replies(replies)) => {
                for reply in replies {
                    self.replies.push_back(reply)?;
                }
                Ok(After::Asked)
            }
            Ok(Recorded::Going) => Ok(After::NoReply { process }),
            Ok(Recorded::Ended(status)) => ended(End::Exit { process, status }),
            Ok(Recorded::Waits) => ended(End::Waits { process }),
            Err(Refused::OutOfMemory) => Err(SessionFault::OutOfMemory),
            Err(why) => ended(End::Refused { process, why }),
        }
    }

    /// Hands the next reply to the call at which the machine stands, or asks the kernel for it.
    fn answer(&mut self, loans: u32) -> Result<After, SessionFault> {
        let count = self.count();
        if self.answered == Some(count) {
            return ended(End::FaultyReply);
        }
        match self.replies.pop_front() {
            Some(reply) => {
                self.debugger.extend(reply)?;
                self.answered = Some(count);
                Ok(After::Replied)
            }
            None => self.ask(loans),
        }
    }

    /// Runs on.
    fn run(&mut self, way: Way) -> Result<After, SessionFault> {
        let stopped = if !way.stops {
            Some(self.debugger.run(way.most)?)
        } else if self.followed.is_empty() {
            Some(self.debugger.run_to_break(way.most)?)
        } else {
            let most = way.most.min(u64::from(FOLLOWED)) as u32;
            run_to_change(self.alloc, &mut self.debugger, &self.followed, most)?
        };
        self.top = self.top.max(self.count());
        let Some(stopped) = stopped else {
            return Ok(After::Stop(Stop::Change));
        };
        match stopped {
            Stopped::Break(number) => Ok(After::Stop(Stop::Break(number))),
            Stopped::Trap(cause) => Ok(After::Stop(Stop::Trap(cause))),
            Stopped::EndOfTrace => self.answer(way.loans),
            Stopped::Limit => Ok(After::Part),
        }
    }

    /// Goes on by a part: instructions up to a call that has no reply, or the reply to a call. Where a watch is to stop the
    /// program, a part is one instruction.
    pub fn ahead(&mut self, way: Way) -> Result<After, SessionFault> {
        if self.count() == MOST_INSTRUCTIONS {
            return ended(End::Budget);
        }
        if !way.stops || !self.watches() {
            return self.run(way);
        }
        match self.next_met() {
            Some(watch) => Ok(After::Stop(Stop::Watch(watch))),
            None => self.run(Way { most: 1, ..way }),
        }
    }
}
