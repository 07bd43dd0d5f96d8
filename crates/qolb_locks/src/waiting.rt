//! Waiting: a ticket polls, announces that its thread is about to sleep, and takes this announcement back.
ghost use Rattle.lock_core.specs.Views.{SameRequest};
ghost use Rattle.qolb_locks.specs.declared.ticket.State.{State};
ghost use Rattle.qolb_locks.specs.Calls.{IsMisuse, OnlyRounds, OnlySleep, StepsUpTo, Learns, Looks, AnnouncesSleep};
ghost use Rattle.qolb_locks.specs.Tickets.{Is, IsKnown};

use crate::answer::Answer;
use crate::lock::Lock;
use crate::ticket::{State, Ticket};
use lock_core::SleepResult;

/// Polls whether the turn of the request has come.
#[inline(always)]
pub fn poll(lock: &Lock, ticket: &mut Ticket) -> Answer
    requires { IsKnown lock.now ticket.old }
    ensures known { IsKnown lock.now ticket.new }
    ensures misuse { ¬ Is State.Waiting lock.now ticket.old →
        IsMisuse ticket.old ticket.new result }
    ensures does { Is State.Waiting lock.now ticket.old → Looks lock.now ticket.new result }
    ensures same { Is State.Waiting lock.now ticket.old → Learns ticket.old ticket.new SameRequest }
    ensures steps { Is State.Waiting lock.now ticket.old → StepsUpTo 1 ticket.old ticket.new }
    ensures kept { OnlyRounds ticket.old ticket.new result }
{
    if !ticket.has(State::Waiting, lock) {
        return Answer::Misuse;
    }
    let mut seat = ticket.claim.take();
    let rounds = lock_core::poll(&lock.table.shared, &mut seat, ticket.number);
    ticket.claim.put(seat);
    ticket.settle(rounds)
}

/// Counts the waiter as a sleeper of its cell, unless the waiter's turn has come. The ticket then has the word at which
/// the waiter may sleep.
///
/// The waiter is not counted if the cell changed at that moment, for which the answer is `Waiting`, or if the cell can
/// count no more sleepers, for which it is `Full`.
#[inline(always)]
pub fn announce_sleep(lock: &Lock, ticket: &mut Ticket) -> Answer
    requires { IsKnown lock.now ticket.old }
    ensures known { IsKnown lock.now ticket.new }
    ensures misuse { ¬ Is State.Waiting lock.now ticket.old →
        IsMisuse ticket.old ticket.new result }
    ensures does { Is State.Waiting lock.now ticket.old →
        AnnouncesSleep lock.now ticket.new result }
    ensures same { Is State.Waiting lock.now ticket.old → Learns ticket.old ticket.new SameRequest }
    ensures steps { Is State.Waiting lock.now ticket.old → StepsUpTo 2 ticket.old ticket.new }
    ensures kept { OnlySleep ticket.old ticket.new result }
{
    if !ticket.has(State::Waiting, lock) {
        return Answer::Misuse;
    }
    let mut seat = ticket.claim.take();
    let announced = lock_core::announce_sleep(&lock.table.shared, &mut seat, ticket.number);
    ticket.claim.put(seat);
    match announced {
        SleepResult::AtTurn => {
            ticket.state = State::AtTurn as u32;
            Answer::Granted
        }
        SleepResult::Asleep { rounds, cell } => {
            ticket.rounds = rounds;
            ticket.word = cell;
            ticket.state = State::Asleep as u32;
            Answer::Asleep
        }
        SleepResult::Full { rounds } => {
            ticket.rounds = rounds;
            Answer::Full
        }
        SleepResult::Changed { rounds } => {
            ticket.rounds = rounds;
            Answer::Waiting
        }
    }
}

/// Stops counting the waiter as a sleeper.
#[inline(always)]
pub fn retract_sleep(lock: &Lock, ticket: &mut Ticket) -> Answer
    requires { IsKnown lock.now ticket.old }
    ensures known { IsKnown lock.now ticket.new }
    ensures misuse { ¬ Is State.Asleep lock.now ticket.old → IsMisuse ticket.old ticket.new result }
    ensures does { Is State.Asleep lock.now ticket.old → Looks lock.now ticket.new result }
    ensures same { Is State.Asleep lock.now ticket.old → Learns ticket.old ticket.new SameRequest }
    ensures steps { Is State.Asleep lock.now ticket.old → StepsUpTo 1 ticket.old ticket.new }
    ensures kept { OnlyRounds ticket.old ticket.new result }
{
    if !ticket.has(State::Asleep, lock) {
        return Answer::Misuse;
    }
    let mut seat = ticket.claim.take();
    let rounds = lock_core::retract_sleep(&lock.table.shared, &mut seat, ticket.number);
    ticket.claim.put(seat);
    ticket.settle(rounds)
}
