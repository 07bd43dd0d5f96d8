//! Releases: a ticket whose turn has come passes the turn to the next number, and a ticket that holds the lock word
//! gives the word back.
ghost use Rattle.std.specs.Prelude.{◌≡◌, ◌+◌, ◌%◌, ◌^◌, true, false};
ghost use Rattle.lock_core.specs.Layout.{max_passed};
ghost use Rattle.lock_core.specs.Views.{HasEnded, HasTurnOf, IsIdle, SameTurn};
ghost use Rattle.qolb_locks.specs.declared.answer.Answer.{Answer};
ghost use Rattle.qolb_locks.specs.declared.ticket.State.{State};
ghost use Rattle.qolb_locks.specs.Calls.{IsMisuse, OnlyGrant, OnlyExit, StepsUpTo, Learns, GrantsNext, Releases, Leaves};
ghost use Rattle.qolb_locks.specs.Tickets.{IsWithin, IsKnown, Knows, Says};

use crate::answer::Answer;
use crate::lock::Lock;
use crate::ticket::{State, Ticket};
use lock_core::layout::SHUT;
use lock_core::{LeaveResult, ReleaseResult};

/// Releases a turn of the queue. Returns `false` if the release is unfinished.
#[inline(always)]
fn release_turn(lock: &Lock, ticket: &mut Ticket) -> bool
    requires { Knows lock.now ticket.old (HasTurnOf ticket.old.number) }
    ensures label { (ticket.new.label ≡ ticket.old.label) × (ticket.new.state ≡ ticket.old.state) }
    ensures granted { result ≡ true → GrantsNext lock.now ticket.new }
    ensures ended { result ≡ true → Learns ticket.old ticket.new HasEnded }
    ensures turn { Learns ticket.old ticket.new SameTurn }
    ensures free { result ≡ true → Knows lock.now ticket.new IsIdle }
    ensures inside { result ≡ true →
        Knows lock.now ticket.old (Says State.HeadInside ticket.old.number ticket.old.rounds) →
        Knows lock.now ticket.new (Says State.Inside ticket.new.number ticket.new.rounds) }
    ensures inside_shut { result ≡ true →
        Knows lock.now ticket.old (Says State.HeadInsideShut ticket.old.number ticket.old.rounds) →
        Knows lock.now ticket.new (Says State.InsideShut ticket.new.number ticket.new.rounds) }
    ensures ends { result ≡ false → Knows lock.now ticket.new (HasTurnOf ticket.new.number) }
    ensures passed { result ≡ false →
        ticket.new.number ≡ (ticket.old.number + max_passed) % 2 ^ 64 }
    ensures head { result ≡ false →
        Knows lock.now ticket.old (Says State.HeadInside ticket.old.number ticket.old.rounds) →
        Knows lock.now ticket.new (Says State.HeadInside ticket.new.number ticket.new.rounds) }
    ensures head_shut { result ≡ false →
        Knows lock.now ticket.old (Says State.HeadInsideShut ticket.old.number ticket.old.rounds) →
        Knows lock.now ticket.new (Says State.HeadInsideShut ticket.new.number ticket.new.rounds) }
    ensures steps { StepsUpTo 128 ticket.old ticket.new }
    ensures kept { result ≡ true → OnlyGrant ticket.old ticket.new Answer.Done }
    ensures kept_unfinished { result ≡ false → OnlyGrant ticket.old ticket.new Answer.Unfinished }
{
    let mut seat = ticket.claim.take();
    let released = lock_core::release(&lock.table.shared, &mut seat, &mut ticket.number);
    ticket.claim.put(seat);
    match released {
        ReleaseResult::Granted { sleepers } => {
            ticket.sleepers = sleepers;
            true
        }
        ReleaseResult::Unfinished => false,
    }
}

/// Ends a turn of the queue: passes withdrawn requests, and grants the next ticket. A queue head that is inside stays
/// inside.
///
/// The answer is `Unfinished` if the call has passed `MAX_PASSED` requests. The caller must then call again.
#[inline(always)]
pub fn release(lock: &Lock, ticket: &mut Ticket) -> Answer
    requires { IsKnown lock.now ticket.old }
    ensures known { IsKnown lock.now ticket.new }
    ensures misuse { ¬ IsWithin 3 8 lock.now ticket.old → IsMisuse ticket.old ticket.new result }
    ensures does { IsWithin 3 8 lock.now ticket.old →
        Releases lock.now ticket.old ticket.new result }
    ensures steps { IsWithin 3 8 lock.now ticket.old → StepsUpTo 128 ticket.old ticket.new }
    ensures kept { OnlyGrant ticket.old ticket.new result }
{
    if ticket.has_turn_outside(lock) {
        if !release_turn(lock, ticket) {
            ticket.state = State::Ending as u32;
            return Answer::Unfinished;
        }
        ticket.state = State::Free as u32;
        return Answer::Done;
    }
    release_inside(lock, ticket)
}

/// Ends the turn of the queue for a queue head that is inside.
#[inline(always)]
fn release_inside(lock: &Lock, ticket: &mut Ticket) -> Answer
    requires { IsKnown lock.now ticket.old }
    ensures known { IsKnown lock.now ticket.new }
    ensures misuse { ¬ IsWithin 7 8 lock.now ticket.old → IsMisuse ticket.old ticket.new result }
    ensures does { IsWithin 7 8 lock.now ticket.old →
        Releases lock.now ticket.old ticket.new result }
    ensures steps { IsWithin 7 8 lock.now ticket.old → StepsUpTo 128 ticket.old ticket.new }
    ensures kept { OnlyGrant ticket.old ticket.new result }
{
    if ticket.has(State::HeadInside, lock) {
        if !release_turn(lock, ticket) {
            return Answer::Unfinished;
        }
        ticket.state = State::Inside as u32;
        return Answer::Done;
    }
    if ticket.has(State::HeadInsideShut, lock) {
        if !release_turn(lock, ticket) {
            return Answer::Unfinished;
        }
        ticket.state = State::InsideShut as u32;
        return Answer::Done;
    }
    Answer::Misuse
}

/// Gives the lock word back, if the word has the value that the ticket guesses. The call leaves the word to the queue
/// head alone if the queue head has requested that, or if as many threads were inside as the barging limit allows.
///
/// The answer is `Busy` if the word has another value. The ticket then has that value, and the caller must call again.
#[inline(always)]
pub fn leave_lock_word(lock: &Lock, ticket: &mut Ticket) -> Answer
    requires { IsKnown lock.now ticket.old }
    ensures known { IsKnown lock.now ticket.new }
    ensures misuse { ¬ IsWithin 9 10 lock.now ticket.old → IsMisuse ticket.old ticket.new result }
    ensures kept { OnlyExit ticket.old ticket.new result }
    ensures does { IsWithin 9 10 lock.now ticket.old →
        Leaves lock.now ticket.old ticket.new result }
    ensures steps { IsWithin 9 10 lock.now ticket.old → StepsUpTo 1 ticket.old ticket.new }
{
    if !ticket.is_inside(lock) {
        return Answer::Misuse;
    }
    let guess = ticket.lock_word;
    let mut seat = ticket.claim.take();
    let left = lock_core::leave_lock_word_if(
        &lock.table.shared,
        &mut seat,
        lock.barging_limit,
        guess,
    );
    ticket.claim.put(seat);
    match left {
        LeaveResult::Outside { head_asleep } => {
            ticket.head_sleeps = head_asleep;
            ticket.lock_word = guess / SHUT * SHUT;
            ticket.state = State::Free as u32;
            Answer::Done
        }
        LeaveResult::Changed { lock_word } => {
            ticket.lock_word = lock_word;
            Answer::Busy
        }
    }
}
