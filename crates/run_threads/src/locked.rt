//! A lock that is taken for one question at a time.
ghost use Rattle.run_threads.specs.Asked.{AtSome};

use std::sync::{Mutex, Wait};

/// A question to what stands under a lock, which it may change. It also has an account in hand, in which it notes what it asked.
pub(crate) trait Question<T, A> {
    type Answer;

    // Relates what stands under the lock and the account before the question, both after it, and the answer.
    ghost comes: { Self → T → A → T → A → Self.Answer → Type 0 };

    /// Asks, with the lock taken.
    fn ask<R: Wait>(self, rt: &R, under: &mut T, account: &mut A) -> Self::Answer
        ensures { comes self under.old account.old under.new account.new result };
}

/// Something under a lock, for whoever is to ask questions and do nothing else to it.
#[derive(Drop)]
pub(crate) struct Locked<'a, T> {
    mutex: &'a Mutex<T>,
}

impl<'a, T> Locked<'a, T> {
    pub(crate) fn new(mutex: &'a Mutex<T>) -> Locked<'a, T> {
        Locked { mutex }
    }

    /// Waits for the lock, asks the question, and lets the lock go. Since this is so for any type, nothing else is done to what
    /// stands there, nor to the account.
    pub(crate) fn ask<R: Wait, A, Q: Question<T, A>>(
        &self,
        rt: &R,
        account: &mut A,
        question: Q,
    ) -> Q::Answer
        ensures { AtSome (λ before after. Q.comes question before account.old after account.new result) }
    {
        let mut guard = self.mutex.lock(rt);
        question.ask(rt, &mut *guard, account)
    }
}
