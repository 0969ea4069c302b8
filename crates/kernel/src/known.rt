//! What is known of a loan, and stays known while the core goes on.
ghost use Rattle.std.specs.Prelude.{◌≡◌, ℕ, List, length, Option, Result, IfOk, IfSome};
ghost use Rattle.kernel_model.specs.Answers.{Kernel, Applies, now};
ghost use Rattle.kernel_model.specs.Loans.{LoanOut, Lends};
ghost use Rattle.kernel_model.specs.declared.answer.Answer.{Answer};
ghost use Rattle.kernel_model.specs.declared.answer.Refused.{Refused};
ghost use Rattle.kernel_model.specs.declared.event.Event.{Event};
ghost use Rattle.kernel_step.specs.Known.{IsKnownLoan};
ghost use Rattle.kernel_step.specs.Loaned.{Settles, LendsAgain};
ghost use Rattle.kernel_step.specs.declared.loan.Done.{Done};
ghost use Rattle.kernel_step.specs.declared.loan.Rejected.{Rejected};
ghost use Rattle.kernel.specs.Known.{StaysKnown};

use crate::cores::Core;
use kernel_laws::lent_processes_stay;

impl Core {
    /// A law of every core, by the invariant of its type: it keeps of each process how it stands with its loans. It does nothing.
    pub fn has_lendings(&self)
        ensures { length self.now.lendings ≡ length (now self.now).sync.processes }
    {
        let _running = &self.running;
    }
}

/// A law: what is known of a loan stays known, whatever a core does, and of a loan that it gives it is known from which state it
/// began. That of a core that keeps how each process stands, by `has_lendings`.
pub fn known_loans_stay()
    ensures given { (old new : Kernel) (quantum : ℕ) (result : Result (Option LoanOut) Refused) → length old.lendings ≡ length (now old).sync.processes
        → Lends old quantum new result → IfOk result (λ given. IfSome given (λ l. IsKnownLoan new l.process l.number l.began)) }
    ensures given_again { (old new : Kernel) (pid quantum : ℕ) (given : Option LoanOut) → length old.lendings ≡ length (now old).sync.processes
        → LendsAgain old pid quantum new given → IfSome given (λ l. IsKnownLoan new l.process l.number l.began) }
    ensures lends { (old new : Kernel) (quantum : ℕ) (result : Result (Option LoanOut) Refused) → Lends old quantum new result → StaysKnown old new }
    ensures lends_again { (old new : Kernel) (pid quantum : ℕ) (given : Option LoanOut) → LendsAgain old pid quantum new given → StaysKnown old new }
    ensures applies { (old new : Kernel) (e : Event) (result : Result Answer Refused) → Applies old e new result → StaysKnown old new }
    ensures settles { (old new : Kernel) (done : Done) (result : Result Answer Rejected) → Settles old done new result → StaysKnown old new }
{
    lent_processes_stay();
}
