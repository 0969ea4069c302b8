//! What a process was told: its replies, and last how it ended.
ghost use Rattle.std.specs.Prelude.{◌≡◌, ◌≤◌, ◌++◌, ◌∷◌, ◌&&◌, [], None, OnOk, IfOk, is_some, not, nat_le};
ghost use Rattle.kernel_model.specs.Entries.{Got, End};
ghost use Rattle.kernel_model.specs.Shown.{replies_in, end_in};
ghost use Rattle.held_output.specs.Withheld.{released, whats, holds_back, all_held, nothing, IsSame};

use crate::replies::copy_of;
use crate::withheld::Withheld;
use commit_deps::Mark;
use machine_model::Reply;
use std::alloc::{AllocError, Global};
use std::marker::Model;

/// How a process ended, and the mark of the event that ended it.
#[derive(Clone, Copy)]
pub(crate) struct Ending {
    pub status: u32,
    pub mark: Mark,
}

/// What a process was told, each item with the mark of its event: the replies to its calls, and last, once it has ended, its
/// status. Contracts see the items as one list.
pub struct Trace {
    replies: Withheld<Reply>,
    ending: Option<Ending>,
}

impl Drop for Trace {
    fn drop(self) {
        let Trace {
            replies: _replies,
            ending: _ending,
        } = self;
    }
}

impl Model for Trace {
    ghost use Rattle.kernel_model.specs.Entries.{Item};
    ghost use Rattle.held_output.specs.Withheld.{Withheld as Items};

    ghost Value = { Items Item };

    ghost use Rattle.held_output.specs.Traces.{told_items};

    ghost view = { λ t. told_items t.replies t.ending };
}

impl Trace {
    /// Nothing, where no change is committed. Takes no memory.
    pub fn new(alloc: Global) -> Trace
        ensures { result ≡ nothing }
    {
        Trace {
            replies: Withheld::new(alloc),
            ending: None,
        }
    }

    /// The replies that are handed out, oldest first. Takes no memory.
    pub fn replies(&self) -> &[Reply]
        ensures { result.now ≡ replies_in (released self.now) }
    {
        self.replies.released()
    }

    /// All replies, handed out or held back, oldest first. Takes no memory.
    pub fn all_replies(&self) -> &[Reply]
        ensures { result.now ≡ replies_in (whats self.now.items) }
    {
        self.replies.items()
    }

    /// The status with which the process ended. None until it has ended, all replies are handed out, and its end rests on committed
    /// changes alone.
    pub fn ended(&self) -> Option<u32>
        ensures { result ≡ end_in (released self.now) }
    {
        let Some(ending) = &self.ending else {
            return None;
        };
        if is_handed_out(&self.replies, ending.mark) {
            Some(ending.status)
        } else {
            None
        }
    }

    /// Whether the process has ended, handed out or not.
    pub fn has_end(&self) -> bool
        ensures { result ≡ is_some (end_in (whats self.now.items)) }
    {
        self.ending.is_some()
    }

    /// Makes room for one item more. Where memory runs out nothing changes.
    pub fn reserve(&mut self) -> Result<(), AllocError>
        ensures room { OnOk result (1 ≤ self.new.room) }
        ensures same { IsSame self.old self.new }
    {
        self.replies.reserve(1)
    }

    /// The process is told a reply by an event of this mark. Takes no memory.
    pub fn reply(&mut self, reply: Reply, mark: Mark)
        requires running { end_in (whats self.old.items) ≡ None }
        requires room { 1 ≤ self.old.room }
        ensures items { self.new.items ≡ self.old.items ++ all_held mark (Got reply ∷ []) }
        ensures committed { self.new.committed ≡ self.old.committed }
    {
        self.replies.push(reply, mark);
    }

    /// The process ends by an event of this mark. Takes no memory.
    pub fn end(&mut self, status: u32, mark: Mark)
        requires running { end_in (whats self.old.items) ≡ None }
        ensures items { self.new.items ≡ self.old.items ++ all_held mark (End status ∷ []) }
        ensures committed { self.new.committed ≡ self.old.committed }
    {
        self.ending = Some(Ending { status, mark });
    }

    /// Says how many changes are committed now: what rests on these alone is handed out. Takes no memory.
    pub fn advance(&mut self, committed: u64)
        ensures items { self.new.items ≡ self.old.items }
        ensures committed { self.new.committed ≡ committed }
    {
        self.replies.advance(committed);
    }

    /// The same trace, in memory of its own. Refused for want of memory alone.
    pub fn try_clone(&self, alloc: Global) -> Result<Trace, AllocError>
        ensures items { IfOk result (λ copy. copy.items ≡ self.now.items) }
        ensures committed { IfOk result (λ copy. copy.committed ≡ self.now.committed) }
    {
        Ok(Trace {
            replies: copy_of(alloc, &self.replies)?,
            ending: self.ending,
        })
    }

    /// The trace of a process that a fork of this one makes, before it is told anything: the same items, and room for one more.
    pub fn forked(&self, alloc: Global) -> Result<Trace, AllocError>
        requires running { end_in (whats self.now.items) ≡ None }
        ensures items { IfOk result (λ trace. trace.items ≡ self.now.items) }
        ensures committed { IfOk result (λ trace. trace.committed ≡ self.now.committed) }
        ensures room { IfOk result (λ trace. 1 ≤ trace.room) }
    {
        let mut replies = copy_of(alloc, &self.replies)?;
        replies.reserve(1)?;
        Ok(Trace {
            replies,
            ending: None,
        })
    }
}

/// All replies are handed out, and the mark rests on committed changes alone.
fn is_handed_out(replies: &Withheld<Reply>, mark: Mark) -> bool
    ensures { result ≡ (not (holds_back replies.now) && nat_le mark replies.now.committed) }
{
    !replies.holds_back() && mark.below(replies.committed())
}
