//! Machines lent out, as a scheduler dispatches them.
ghost use Rattle.std.specs.Prelude.{◌≡◌, ◌+◌, ◌*◌, ◌^◌, ◌<◌, ◌≤◌, None, false, length, take, drop, position, option_map, IfOk, IfErr, IfSome, OnSome, OnOk, OnErr};
ghost use Rattle.kernel_model.specs.Loans.{Lends};
ghost use Rattle.kernel_model.specs.World.{Boot};
ghost use Rattle.kernel_step.specs.Represents.{Represents, kernel_in};
ghost use Rattle.kernel_model.specs.declared.answer.Refused.TheVariants.{OutOfMemory};
ghost use Rattle.kernel_step.specs.Lending.{full_for_loan_of, is_fit, next_fit, IsFitAt, IsLent, IsNextLoanOf};
ghost use Rattle.kernel_step.specs.Loaned.{loan_out, lent_out, LendsTo, LendsAgain};
ghost use Rattle.kernel_step.specs.Tasks.{machine_of, out_of, count_out};
ghost use Rattle.kernel_step.specs.Tests.{IsPlaceOf};

use crate::loan::Loan;
use crate::running::Running;
use crate::task::{LIMIT, Task};
use crate::tasks::place_of;
use crate::whereabouts::Whereabouts;
use kernel_model::Refused;
use std::alloc::Global;
use std::mem;
use std::sync::Arc;

/// Whether a process may be lent for a quantum, by the words of `Core::lend`, where so many Enters were served.
fn is_lendable(task: &Task, served: u64, quantum: u32) -> bool
    ensures { result ≡ is_fit quantum served task.now }
{
    if task.trace.has_end() || task.is_out() {
        return false;
    }
    let count = task.machine().count();
    count < LIMIT && count + u64::from(quantum) < LIMIT && !task.is_asleep(served)
}

fn first_lendable(tasks: &[Task], served: u64, quantum: u32) -> Option<usize>
    ensures { result ≡ position (is_fit quantum served) tasks.now }
{
    tasks
        .iter()
        .position(|task| is_lendable(task, served, quantum))
}

fn tasks_after(tasks: &[Task], count: usize) -> &[Task]
    ensures { result.now ≡ drop count tasks.now }
{
    &tasks[count.min(tasks.len())..]
}

fn tasks_before(tasks: &[Task], count: usize) -> &[Task]
    ensures { result.now ≡ take count tasks.now }
{
    &tasks[..count.min(tasks.len())]
}

/// The place of the next process after the first so many that may be lent, by rising place and round again.
fn next_lendable(tasks: &[Task], from: usize, served: u64, quantum: u32) -> Option<usize>
    ensures { result ≡ next_fit quantum served from tasks.now }
{
    match first_lendable(tasks_after(tasks, from), served, quantum) {
        Some(further) => Some(from + further),
        None => first_lendable(tasks_before(tasks, from), served, quantum),
    }
}

/// Lends a process: its machine leaves, and the state from which it runs stays, which the loan shares. Where memory runs out nothing
/// has changed.
fn lend_task(alloc: Global, task: &mut Task, quantum: u32) -> Result<Loan, Refused>
    requires here { out_of task.old ≡ None }
    requires room { (machine_of task.old).count + quantum < 2 ^ 40 }
    requires few { task.old.loans ≤ 2 ^ 40 }
    ensures loan { IfOk result (λ loan. IsNextLoanOf quantum task.old loan) }
    ensures task { OnOk result (IsLent quantum task.old task.new) }
    ensures cause { IfErr result (λ why. why ≡ OutOfMemory) }
    ensures same { OnErr result (task.new ≡ task.old) }
{
    let number = task.loans + 1;
    let Whereabouts::Here(machine) = &mut task.whereabouts else {
        unreachable!()
    };
    let began = machine.share(alloc, task.loans == 0)?;
    let out = Whereabouts::Out {
        began: Arc::try_clone(&began)?,
        quantum,
    };
    let Whereabouts::Here(machine) = mem::replace(&mut task.whereabouts, out) else {
        unreachable!()
    };
    task.loans = number;
    Ok(Loan {
        pid: task.pid,
        number,
        quantum,
        began,
        machine: machine.into_machine(),
    })
}

impl Running {
    /// Whether the history has no room for the two events of one more loan, with two kept for each that is out.
    fn is_full_for_loan(&self) -> bool
        requires kept { self.now.out ≡ count_out self.now.tasks.items }
        requires room { length self.now.history.items + 2 * count_out self.now.tasks.items ≤ 2 ^ 40 }
        ensures { result ≡ full_for_loan_of (length self.now.history.items) self.now.tasks.items }
    {
        self.history.len() as u64 + 2 * self.out > LIMIT - 2
    }

    pub(crate) fn next_lendable(&self, quantum: u32) -> Option<usize>
        ensures { result ≡ next_fit quantum self.now.system.served self.now.last_lent self.now.tasks.items }
    {
        let from = self.last_lent as usize;
        next_lendable(&self.tasks, from, self.system.served, quantum)
    }

    /// Lends the process at this place. Where memory runs out nothing has changed.
    fn lend_at(&mut self, place: usize, quantum: u32) -> Result<Loan, Refused>
        requires kept { (b : Boot) × Represents b self.old }
        requires room { full_for_loan_of (length self.old.history.items) self.old.tasks.items ≡ false }
        requires fit { IsFitAt quantum self.old.system.served self.old.tasks.items place }
        ensures stands { (b : Boot) → Represents b self.old → Represents b self.new }
        ensures pid { IfOk result (λ loan. (b : Boot) → Represents b self.old → loan.pid ≡ place + 1) }
        ensures lends { IfOk result (λ loan. (b : Boot) → Represents b self.old → LendsTo (kernel_in b self.old) quantum (kernel_in b self.new) (loan_out loan)) }
        ensures cause { IfErr result (λ why. why ≡ OutOfMemory) }
        ensures same { OnErr result ((b : Boot) → kernel_in b self.new ≡ kernel_in b self.old) }
    {
        let loan = lend_task(self.system.alloc, &mut self.tasks[place], quantum)?;
        self.last_lent = loan.pid;
        self.out += 1;
        Ok(loan)
    }

    /// As `Core::lend`. The clauses speak of every boot of which these are the parts.
    pub fn lend(&mut self, quantum: u32) -> Result<Option<Loan>, Refused>
        requires { (b : Boot) × Represents b self.old }
        ensures stands { (b : Boot) → Represents b self.old → Represents b self.new }
        ensures lends { (b : Boot) → Represents b self.old → Lends (kernel_in b self.old) quantum (kernel_in b self.new) (lent_out result) }
    {
        if self.is_full_for_loan() {
            return Err(Refused::Budget);
        }
        let Some(place) = self.next_lendable(quantum) else {
            return Ok(None);
        };
        Ok(Some(self.lend_at(place, quantum)?))
    }

    /// As `Core::lend_again`. The clauses speak of every boot of which these are the parts.
    pub fn lend_again(&mut self, pid: u32, quantum: u32) -> Option<Loan>
        requires { (b : Boot) × Represents b self.old }
        ensures stands { (b : Boot) → Represents b self.old → Represents b self.new }
        ensures lends { (b : Boot) → Represents b self.old → LendsAgain (kernel_in b self.old) pid quantum (kernel_in b self.new) (option_map loan_out result) }
    {
        let place = self.lendable_place(pid, quantum)?;
        match self.lend_at(place, quantum) {
            Ok(loan) => Some(loan),
            Err(_) => None,
        }
    }

    /// The place of a process that may be lent for a quantum, where the history has room for its two events.
    fn lendable_place(&self, pid: u32, quantum: u32) -> Option<usize>
        requires kept { self.now.out ≡ count_out self.now.tasks.items }
        requires room { length self.now.history.items + 2 * count_out self.now.tasks.items ≤ 2 ^ 40 }
        ensures place { IfSome result (λ place. IsPlaceOf self.now.tasks.items pid place) }
        ensures room { OnSome result (full_for_loan_of (length self.now.history.items) self.now.tasks.items ≡ false) }
        ensures fit { IfSome result (λ place. IsFitAt quantum self.now.system.served self.now.tasks.items place) }
    {
        if self.is_full_for_loan() {
            return None;
        }
        let place = place_of(&self.tasks, pid)?;
        if is_lendable(&self.tasks[place], self.system.served, quantum) {
            Some(place)
        } else {
            None
        }
    }
}
