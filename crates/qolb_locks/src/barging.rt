//! Barging: a thread takes the lock word without drawing a number in the queue, and thereby overtakes the waiting
//! threads.
//!
//! The crate `lock_core` calls a thread that barges a *newcomer*.
ghost use Rattle.qolb_locks.specs.declared.answer.Answer.{Answer};
ghost use Rattle.qolb_locks.specs.declared.ticket.State.{State};
ghost use Rattle.qolb_locks.specs.Calls.{IsMisuse, OnlyEntry, StepsUpTo, StepsFirst, Barges};
ghost use Rattle.qolb_locks.specs.Tickets.{Has, Is, IsFree, IsNew, IsKnown, IsBarging};

use crate::answer::Answer;
use crate::drawing::take_new_seat;
use crate::lock::Lock;
use crate::ticket::{State, Ticket};
use lock_core::BargeResult;
use lock_core::layout::BARGED;

/// Barges with a ticket that has a seat of this lock.
#[inline(always)]
fn barge_again(lock: &Lock, ticket: &mut Ticket) -> Answer
    requires barging { IsBarging lock.now }
    requires free { Has State.Free lock.now ticket.old }
    ensures known { IsKnown lock.now ticket.new }
    ensures kept { OnlyEntry ticket.old ticket.new }
    ensures does { Barges lock.now ticket.old.lock_word ticket.new result }
    ensures steps { StepsUpTo 1 ticket.old ticket.new }
{
    let guess = ticket.lock_word;
    let mut seat = ticket.claim.take();
    let went = lock_core::barge_if(&lock.table.shared, &mut seat, guess);
    ticket.claim.put(seat);
    match went {
        BargeResult::Inside => {
            ticket.lock_word = guess.wrapping_add(BARGED);
            ticket.state = State::Inside as u32;
            Answer::Granted
        }
        BargeResult::Outside { lock_word } => {
            ticket.lock_word = lock_word;
            Answer::Busy
        }
    }
}

/// Barges with a ticket that has no seat of this lock yet.
///
/// The function is not inlined, so that the common call saves no registers for it.
#[inline(never)]
fn barge_first(lock: &Lock, ticket: &mut Ticket) -> Answer
    requires barging { IsBarging lock.now }
    requires free { IsFree ticket.old }
    ensures known { IsKnown lock.now ticket.new }
    ensures kept { OnlyEntry ticket.old ticket.new }
    ensures does { Barges lock.now ticket.old.lock_word ticket.new result }
    ensures steps { StepsFirst 2 ticket.new }
{
    take_new_seat(lock, ticket);
    barge_again(lock, ticket)
}

/// Takes the lock word without waiting, if the word has the value that the ticket guesses, is free for barging threads,
/// and says that the lock is open.
///
/// Otherwise the answer is `Busy`, and the ticket then contains the value that the call found in the word.
#[inline(always)]
pub fn barge(lock: &Lock, ticket: &mut Ticket) -> Answer
    requires { IsKnown lock.now ticket.old }
    ensures known { IsKnown lock.now ticket.new }
    ensures strict { ¬ IsBarging lock.now → IsMisuse ticket.old ticket.new result }
    ensures misuse { ¬ IsFree ticket.old → IsMisuse ticket.old ticket.new result }
    ensures kept { OnlyEntry ticket.old ticket.new }
    ensures does { IsBarging lock.now → IsFree ticket.old →
        Barges lock.now ticket.old.lock_word ticket.new result }
    ensures steps { IsBarging lock.now → Is State.Free lock.now ticket.old
        → StepsUpTo 1 ticket.old ticket.new }
    ensures first { IsBarging lock.now → IsNew lock.now ticket.old → StepsFirst 2 ticket.new }
{
    if lock.barging_limit < 2 || ticket.state != State::Free as u32 {
        return Answer::Misuse;
    }
    if ticket.label != lock.label {
        return barge_first(lock, ticket);
    }
    barge_again(lock, ticket)
}
