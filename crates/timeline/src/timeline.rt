//! `Timeline`: a program's run, forwards and back.
use crate::fault::SessionFault;
use crate::live::LiveKernel;
use crate::location::Location;
use debugger::{Debugger, Image, Machine, Reply, Watch};
use recorder::Recorder;
use std::alloc::{AllocError, Global};
use std::collections::VecDeque;

/// Where the replies of a program's calls come from.
#[derive(Drop)]
pub enum Origin {
    /// From a trace, in order.
    Trace(Vec<Reply>),
    /// From a kernel, where the program is the process of this number.
    Kernel(Recorder, u32),
}

/// A program's run, forwards and back. The debugger gets each reply only at the call that takes it, so that each call is seen.
#[derive(Drop)]
pub struct Timeline {
    pub(crate) alloc: Global,
    /// The program at one of its states, with its breakpoints. Its own calls go back; `ahead` goes on.
    pub debugger: Debugger,
    /// The kernel that answers, if one does.
    pub live: Option<LiveKernel>,
    pub(crate) watches: Vec<Watch>,
    /// What is followed: a run stops after an instruction that changes it.
    pub(crate) followed: Vec<Location>,
    /// The number of each location that is followed.
    pub(crate) numbers: Vec<usize>,
    /// Replies that no call got yet.
    pub(crate) replies: VecDeque<Reply>,
    /// The count at the call that got a reply last.
    pub(crate) answered: Option<u64>,
    /// The greatest count that was reached.
    pub(crate) top: u64,
}

/// The replies of a list, in order.
fn queue_of(alloc: Global, replies: Vec<Reply>) -> Result<VecDeque<Reply>, AllocError> {
    let mut queue = VecDeque::new(alloc);
    for reply in replies {
        queue.push_back(reply)?;
    }
    Ok(queue)
}

impl Timeline {
    /// A program at its first state.
    pub fn new(alloc: Global, image: Image, origin: Origin) -> Result<Timeline, SessionFault> {
        let (replies, live) = match origin {
            Origin::Trace(replies) => (queue_of(alloc, replies)?, None),
            Origin::Kernel(recorder, process) => {
                (
                    VecDeque::new(alloc),
                    Some(LiveKernel::new(recorder, process)),
                )
            }
        };
        Ok(Timeline {
            alloc,
            debugger: Debugger::new(alloc, image, Vec::new(alloc))?,
            live,
            watches: Vec::new(alloc),
            followed: Vec::new(alloc),
            numbers: Vec::new(alloc),
            replies,
            answered: None,
            top: 0,
        })
    }

    /// The machine as it stands.
    pub fn machine(&self) -> &Machine {
        self.debugger.state()
    }

    /// How many instructions the machine did.
    pub fn count(&self) -> u64 {
        self.debugger.state().count()
    }

    /// The greatest count that was reached.
    pub fn top(&self) -> u64 {
        self.top
    }
}
