//! What a process is told of its call, or of its trap.
ghost use Rattle.std.specs.Prelude.{ℕ, ◌≡◌, ◌<◌, ◌^◌, Option};
ghost use Rattle.machine_model.specs.Replies.{replied};
ghost use Rattle.machine_model.specs.States.{State};
ghost use Rattle.kernel_model.specs.Answers.{outcome_of};
ghost use Rattle.kernel_model.specs.Entries.{Item};
ghost use Rattle.held_output.specs.Withheld.{Withheld};
ghost use Rattle.kernel_model.specs.declared.request.Verdict.TheVariants.{Replies as Told};
ghost use Rattle.kernel_step.specs.Entering.{item_of, in_image_by, MayBeTold, IsTold, IsChild, MakesTask, unboxed};
ghost use Rattle.kernel_step.specs.Ready.{TaskMayBeTold, ChildMayBeTold};

use crate::replicated::ReplicatedMachine;
use crate::task::Task;
use crate::whereabouts::Whereabouts;
use calls::Verdict;
use commit_deps::Mark;
use kernel_model::Outcome;
use machine::SharedMachine;
use machine_model::Reply;

/// A machine goes on after the reply to its call. If the reply has an image, it goes on as `next`, which was entered from its
/// state.
fn go_on(machine: &mut ReplicatedMachine, reply: &Reply, next: Option<SharedMachine>)
    requires told { MayBeTold machine.old (Told reply.now) }
    requires budget { machine.old.count < 2 ^ 40 }
    requires next { next ≡ in_image_by machine.old (Told reply.now) }
    ensures { machine.new ≡ replied machine.old reply.now }
{
    match next {
        Some(next) => machine.put(next),
        None => machine.reply(reply),
    }
}

/// A process whose machine is here gets the reply to its call, by an event of this mark. It goes on with `next`, if the reply has
/// an image. Takes no memory.
fn take_reply(task: &mut Task, reply: Reply, next: Option<SharedMachine>, mark: Mark)
    requires { TaskMayBeTold (Told reply) next task.old }
    ensures { (served : ℕ) → IsTold (Told reply) mark served task.old task.new }
{
    let Whereabouts::Here(machine) = &mut task.whereabouts else {
        unreachable!()
    };
    go_on(machine, &reply, next);
    task.trace.reply(reply, mark);
}

/// A process whose machine is here is told what its call came to, by an event of this mark. `served` is how many Enters did not
/// have to wait before. It goes on with `next`, if its reply has an image. Takes no memory.
pub fn tell(
    task: &mut Task,
    verdict: Verdict,
    next: Option<SharedMachine>,
    served: u64,
    mark: Mark,
) -> Outcome
    requires { TaskMayBeTold verdict next task.old }
    ensures outcome { result ≡ outcome_of (item_of verdict) }
    ensures task { IsTold verdict mark served task.old task.new }
{
    match verdict {
        Verdict::Waits => {
            task.waited = Some(served);
            Outcome::Waits
        }
        Verdict::Replies(reply) => {
            take_reply(task, reply, next, mark);
            Outcome::Entered
        }
        Verdict::Ends(status) => {
            task.trace.end(status, mark);
            Outcome::Ended
        }
    }
}

/// A process that was made, if one was, is told 0 by an event of this mark. Takes no memory.
pub fn tell_child(child: Option<Box<Task>>, mark: Mark) -> Option<Box<Task>>
    requires { ChildMayBeTold (unboxed child) }
    ensures { (number : Option ℕ) (s : State) (parent : Withheld Item) → IsChild number s parent (unboxed child) → MakesTask number mark s parent (unboxed result) }
{
    let mut child = child?;
    child.trace.reply(Reply::number(0), mark);
    Some(child)
}
