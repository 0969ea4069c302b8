//! How the seats of a pool are made: all memory first, and then a part of the share for each.
ghost use Rattle.std.specs.Prelude.{◌≡◌, ◌+◌, ◌<◌, [], ◌∷◌, ◌++◌, length, vec_len, IfOk, OnOk, OnErr};
ghost use Rattle.std.specs.List.{AllByRecursion};
ghost use Rattle.bursts.specs.Holdings.{new_part};
ghost use Rattle.pool.specs.Seating.{IsUnused, AreOthers, seat_with};
ghost use Rattle.pool.specs.Seats.{AtEach, AreNew};

use crate::loans::{Other, Own};
use crate::pools::Pool;
use crate::results::ResultQueue;
use crate::seats::Seat;
use bursts::{Naming, Share};
use notes::Notes;
use std::alloc::{AllocError, Global};

/// An empty deque for each worker. The last is the first worker's, the one before it the next worker's, and so on.
fn deques_for<N: Naming>(alloc: Global, workers: u32) -> Result<Vec<Own<N>>, AllocError>
    ensures len { IfOk result (λ deques. vec_len deques ≡ workers) }
    ensures unused { IfOk result (λ deques. AllByRecursion IsUnused deques.items) }
{
    let mut deques = Vec::new(alloc);
    for _ in 0..workers {
        deques.push(Own::new(alloc)?)?;
    }
    Ok(deques)
}

/// The deques of the others as this deque's worker has them: from the next worker on, and round again.
fn others_of<N: Naming>(
    alloc: Global,
    deques: &[Own<N>],
    place: usize,
) -> Result<Vec<Other<N>>, AllocError>
    requires { place < length deques.now }
    ensures { IfOk result (λ others. AreOthers deques.now place others.items) }
{
    let mut others = Vec::new(alloc);
    for step in 0..place {
        others.push(deques[place - 1 - step].other()?)?;
    }
    for step in 0..deques.len() - 1 - place {
        others.push(deques[deques.len() - 1 - step].other()?)?;
    }
    Ok(others)
}

/// The deques of the others, for the worker of each of these deques.
fn all_others<N: Naming>(alloc: Global, deques: &[Own<N>]) -> Result<Vec<Vec<Other<N>>>, AllocError>
    ensures len { IfOk result (λ all. vec_len all ≡ length deques.now) }
    ensures others { IfOk result (λ all. AtEach (λ place others. AreOthers deques.now place others.items) all.items) }
{
    let mut all = Vec::new(alloc);
    for place in 0..deques.len() {
        all.push(others_of(alloc, deques, place)?)?;
    }
    Ok(all)
}

impl<'b, N: Naming> Pool<'b, N> {
    /// Makes a seat for each worker, with one part of the share each. The share has more parts than there are workers. Where there
    /// is no memory for the seats it has all its parts again.
    pub fn seats<'p>(
        &'p self,
        alloc: Global,
        share: &mut Share<N>,
    ) -> Result<Vec<Seat<'p, 'b, N>>, AllocError>
        requires { self.now.workers < share.old.parts }
        ensures len { IfOk result (λ seats. vec_len seats ≡ self.now.workers) }
        ensures fresh { IfOk result (λ seats. AreNew self.now.workers seats.items) }
        ensures parts { OnOk result (share.new.parts + self.now.workers ≡ share.old.parts) }
        ensures totals { OnOk result ((share.new.totals ≡ share.old.totals) × (share.new.lent ≡ share.old.lent)) }
        ensures refused { OnErr result (share.new ≡ share.old) }
    {
        let mut deques = deques_for(alloc, self.workers)?;
        let mut all = all_others(alloc, &deques)?;
        let mut seats = Vec::with_capacity(alloc, self.workers as usize)?;
        for _ in 0..self.workers {
            let own = last_of(&mut deques);
            let others = last_of(&mut all);
            seats.push_reserved(seat_at(self, own, others, part_of(share)));
        }
        Ok(seats)
    }
}

/// The last of a list, which leaves it.
fn last_of<T>(list: &mut Vec<T>) -> T
    requires { 0 < vec_len list.old }
    ensures items { list.old.items ≡ list.new.items ++ result ∷ [] }
    ensures len { vec_len list.new + 1 ≡ vec_len list.old }
{
    list.pop().unwrap()
}

/// A part of a share that has more.
fn part_of<N: Naming>(share: &mut Share<N>) -> Share<N>
    requires { 1 < share.old.parts }
    ensures part { result ≡ new_part }
    ensures parts { share.new.parts + 1 ≡ share.old.parts }
    ensures totals { (share.new.totals ≡ share.old.totals) × (share.new.lent ≡ share.old.lent) }
{
    share.split().unwrap()
}

/// A seat at which nothing was done yet.
fn seat_at<'p, 'b, N: Naming>(
    pool: &'p Pool<'b, N>,
    own: Own<N>,
    others: Vec<Other<N>>,
    share: Share<N>,
) -> Seat<'p, 'b, N>
    ensures { result ≡ seat_with own others.items share }
{
    Seat {
        pool,
        own,
        others,
        spare: None,
        results: ResultQueue::new(&pool.results),
        share,
        told: Notes::new(),
    }
}
