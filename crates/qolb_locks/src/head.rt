//! The calls for the queue head of a barging lock, which is the waiter whose turn in the queue has come. The queue head
//! takes the lock word, requests that the holder leave the word to it, or announces that it sleeps on the word.
ghost use Rattle.lock_core.specs.Views.{SameRequest};
ghost use Rattle.qolb_locks.specs.declared.answer.Answer.{Answer};
ghost use Rattle.qolb_locks.specs.declared.ticket.State.{State};
ghost use Rattle.qolb_locks.specs.Calls.{IsMisuse, OnlyState, OnlyLockWord, StepsUpTo, Learns, IsHead, TakesAsHead, RequestsHandoff, SleepsAsHead};
ghost use Rattle.qolb_locks.specs.Tickets.{IsKnown};

use crate::answer::Answer;
use crate::lock::Lock;
use crate::ticket::{State, Ticket};
use lock_core::layout::{HELD, SHUT};
use lock_core::{HeadSleepResult, TakeResult};

/// Takes the lock word for the queue head, if the word is free. The queue head is then inside, and must release its
/// turn of the queue.
///
/// The answer is `Closed` if the queue head is inside and the lock is shut. It is `Waiting` if the lock word is held or
/// changed at that moment; the ticket then has the word that the call found.
#[inline(always)]
pub fn take_lock_word(lock: &Lock, ticket: &mut Ticket) -> Answer
    requires { IsKnown lock.now ticket.old }
    ensures known { IsKnown lock.now ticket.new }
    ensures misuse { ¬ IsHead lock.now ticket.old → IsMisuse ticket.old ticket.new result }
    ensures kept { OnlyLockWord ticket.old ticket.new }
    ensures does { IsHead lock.now ticket.old → TakesAsHead lock.now ticket.new result }
    ensures same { IsHead lock.now ticket.old → Learns ticket.old ticket.new SameRequest }
    ensures steps { IsHead lock.now ticket.old → StepsUpTo 2 ticket.old ticket.new }
{
    if !ticket.is_head(lock) {
        return Answer::Misuse;
    }
    let mut seat = ticket.claim.take();
    let taken = lock_core::take_lock_word(&lock.table.shared, &mut seat, ticket.number);
    ticket.claim.put(seat);
    match taken {
        TakeResult::Open => {
            ticket.lock_word = HELD;
            ticket.state = State::HeadInside as u32;
            Answer::Granted
        }
        TakeResult::Shut => {
            ticket.lock_word = HELD + SHUT;
            ticket.state = State::HeadInsideShut as u32;
            Answer::Closed
        }
        TakeResult::Held { lock_word } | TakeResult::Changed { lock_word } => {
            ticket.lock_word = lock_word;
            Answer::Waiting
        }
    }
}

/// Requests that the thread inside leave the lock word to the queue head alone.
///
/// The answer is `Busy` if the lock word changed at that moment.
pub fn request_handoff(lock: &Lock, ticket: &mut Ticket) -> Answer
    requires { IsKnown lock.now ticket.old }
    ensures known { IsKnown lock.now ticket.new }
    ensures misuse { ¬ IsHead lock.now ticket.old → IsMisuse ticket.old ticket.new result }
    ensures does { IsHead lock.now ticket.old →
        RequestsHandoff lock.now ticket.new result }
    ensures steps { IsHead lock.now ticket.old → StepsUpTo 2 ticket.old ticket.new }
    ensures kept { OnlyState ticket.old ticket.new }
{
    if !ticket.is_head(lock) {
        return Answer::Misuse;
    }
    let mut seat = ticket.claim.take();
    let requested = lock_core::request_handoff(&lock.table.shared, &mut seat);
    ticket.claim.put(seat);
    if requested {
        Answer::Done
    } else {
        Answer::Busy
    }
}

/// Notes in the lock word that the queue head sleeps there, if the word is held. The ticket then has the word at which
/// its thread may sleep.
///
/// The answer is `Waiting` if the lock word is not held, or changed at that moment.
pub fn announce_head_sleep(lock: &Lock, ticket: &mut Ticket) -> Answer
    requires { IsKnown lock.now ticket.old }
    ensures known { IsKnown lock.now ticket.new }
    ensures misuse { ¬ IsHead lock.now ticket.old → IsMisuse ticket.old ticket.new result }
    ensures kept { OnlyLockWord ticket.old ticket.new }
    ensures does { IsHead lock.now ticket.old → SleepsAsHead lock.now ticket.old ticket.new result }
    ensures steps { IsHead lock.now ticket.old → StepsUpTo 2 ticket.old ticket.new }
{
    if !ticket.is_head(lock) {
        return Answer::Misuse;
    }
    let mut seat = ticket.claim.take();
    let announced = lock_core::announce_head_sleep(&lock.table.shared, &mut seat);
    ticket.claim.put(seat);
    match announced {
        HeadSleepResult::Asleep { lock_word } => {
            ticket.lock_word = lock_word;
            Answer::Asleep
        }
        HeadSleepResult::NotHeld | HeadSleepResult::Changed => Answer::Waiting,
    }
}
