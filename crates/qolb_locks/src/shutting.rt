//! Shutting and reopening: a ticket shuts the lock, checks whether the lock is open, and reopens it.
ghost use Rattle.std.specs.Prelude.{◌≡◌, ◌≢◌, ◌+◌, ◌-◌, ◌%◌, ◌^◌, true, false};
ghost use Rattle.lock_core.specs.Views.{HasTurnOf, ServedOpen, ServedShut};
ghost use Rattle.qolb_locks.specs.declared.ticket.State.{State};
ghost use Rattle.qolb_locks.specs.Calls.{IsMisuse, OnlyState, OnlyLockWord, StepsUpTo, IsAtStrictTurn, ChecksOpen, SameTicket, IsServed, Shuts, IsToldShut, Reopens, Shows};
ghost use Rattle.lock_core.specs.Layout.{tail_at};
ghost use Rattle.lock_core.specs.Looks.{Found};
ghost use Rattle.qolb_locks.specs.Tickets.{IsKnown, Knows, Says};

use crate::answer::Answer;
use crate::lock::Lock;
use crate::ticket::{State, Ticket};
use lock_core::layout::SHUT;

/// Checks whether a strict lock is open, for a ticket whose turn has come. The caller is served only if the lock is
/// open. If the lock is shut, the caller must pass the turn on by `release`.
#[inline(always)]
pub fn check_open(lock: &Lock, ticket: &mut Ticket) -> Answer
    requires { IsKnown lock.now ticket.old }
    ensures known { IsKnown lock.now ticket.new }
    ensures misuse { ¬ IsAtStrictTurn lock.now ticket.old → IsMisuse ticket.old ticket.new result }
    ensures does { IsAtStrictTurn lock.now ticket.old → ChecksOpen lock.now ticket.new result }
    ensures steps { IsAtStrictTurn lock.now ticket.old → StepsUpTo 1 ticket.old ticket.new }
    ensures kept { OnlyState ticket.old ticket.new }
{
    if lock.barging_limit > 1 || !ticket.is_at_turn(lock) {
        return Answer::Misuse;
    }
    let mut seat = ticket.claim.take();
    let open = lock_core::check_open(&lock.table.shared, &mut seat, ticket.number);
    ticket.claim.put(seat);
    ticket.tell(open)
}

/// Shuts the lock for a ticket that is served.
#[inline(always)]
fn shut_served(lock: &Lock, ticket: &mut Ticket)
    requires { Knows lock.now ticket.old ServedOpen }
    ensures same { SameTicket ticket.old ticket.new }
    ensures kept { OnlyLockWord ticket.old ticket.new }
    ensures served { Knows lock.now ticket.old (Says State.Served ticket.old.number
        ticket.old.rounds) →
        Knows lock.now ticket.new (Says State.ServedShut ticket.new.number ticket.new.rounds) }
    ensures head { Knows lock.now ticket.old (Says State.HeadInside ticket.old.number
        ticket.old.rounds) →
        Knows lock.now ticket.new (Says State.HeadInsideShut ticket.new.number ticket.new.rounds) }
    ensures inside { Knows lock.now ticket.old (Says State.Inside ticket.old.number
        ticket.old.rounds) →
        Knows lock.now ticket.new (Says State.InsideShut ticket.new.number ticket.new.rounds) }
    ensures lock_word { ticket.new.lock_word ≡ (ticket.old.lock_word + 16) % 2 ^ 64 }
    ensures steps { StepsUpTo 1 ticket.old ticket.new }
{
    let mut seat = ticket.claim.take();
    lock_core::shut(&lock.table.shared, &mut seat);
    ticket.lock_word = ticket.lock_word.wrapping_add(SHUT);
    ticket.claim.put(seat);
}

/// Shuts the lock for a ticket that is served. From then on each caller is told at its turn that the lock is shut, and
/// no thread barges.
pub fn shut(lock: &Lock, ticket: &mut Ticket) -> Answer
    requires { IsKnown lock.now ticket.old }
    ensures known { IsKnown lock.now ticket.new }
    ensures misuse { ¬ IsServed lock.now ticket.old → IsMisuse ticket.old ticket.new result }
    ensures kept { OnlyLockWord ticket.old ticket.new }
    ensures does { IsServed lock.now ticket.old → Shuts lock.now ticket.old ticket.new result }
    ensures steps { IsServed lock.now ticket.old → StepsUpTo 1 ticket.old ticket.new }
{
    if ticket.has(State::Served, lock) {
        shut_served(lock, ticket);
        ticket.state = State::ServedShut as u32;
        return Answer::Done;
    }
    if ticket.has(State::HeadInside, lock) {
        shut_served(lock, ticket);
        ticket.state = State::HeadInsideShut as u32;
        return Answer::Done;
    }
    if ticket.has(State::Inside, lock) {
        shut_served(lock, ticket);
        ticket.state = State::InsideShut as u32;
        return Answer::Done;
    }
    Answer::Misuse
}

/// Reopens the lock for a ticket with a turn of the queue whose caller was told that the lock is shut, if no caller
/// drew a ticket after it. Returns whether the lock is reopened.
#[inline(always)]
fn reopen_shut(lock: &Lock, ticket: &mut Ticket) -> bool
    requires turn { Knows lock.now ticket.old (λ v. HasTurnOf ticket.old.number v × ServedShut v) }
    ensures same { SameTicket ticket.old ticket.new }
    ensures kept { OnlyLockWord ticket.old ticket.new }
    ensures lock_word { result ≡ true →
        ticket.new.lock_word ≡ (ticket.old.lock_word + (2 ^ 64 - 16)) % 2 ^ 64 }
    ensures lock_word_kept { result ≡ false → ticket.new.lock_word ≡ ticket.old.lock_word }
    ensures steps { StepsUpTo 2 ticket.old ticket.new }
    ensures served { result ≡ true →
        Knows lock.now ticket.old (Says State.ServedShut ticket.old.number ticket.old.rounds) →
        Knows lock.now ticket.new (Says State.Served ticket.new.number ticket.new.rounds) }
    ensures head { result ≡ true →
        Knows lock.now ticket.old (Says State.HeadInsideShut ticket.old.number ticket.old.rounds) →
        Knows lock.now ticket.new (Says State.HeadInside ticket.new.number ticket.new.rounds) }
    ensures busy { result ≡ false → Shows ticket.new (Found tail_at
        (λ n. n ≢ (ticket.old.number + 1) % 2 ^ 64)) }
    ensures still_served { result ≡ false →
        Knows lock.now ticket.old (Says State.ServedShut ticket.old.number ticket.old.rounds) →
        Knows lock.now ticket.new (Says State.ServedShut ticket.new.number ticket.new.rounds) }
    ensures still_head { result ≡ false →
        Knows lock.now ticket.old (Says State.HeadInsideShut ticket.old.number ticket.old.rounds) →
        Knows lock.now ticket.new (Says State.HeadInsideShut ticket.new.number ticket.new.rounds) }
{
    let mut seat = ticket.claim.take();
    let open = lock_core::reopen(&lock.table.shared, &mut seat, ticket.number);
    ticket.claim.put(seat);
    if open {
        ticket.lock_word = ticket.lock_word.wrapping_sub(SHUT);
    }
    open
}

/// Reopens the lock, if no caller drew a ticket after the given one. The caller of the given ticket must have been told
/// at its turn that the lock is shut.
///
/// The caller is then served. If another caller drew a ticket, the answer is `Busy`, and the lock stays shut.
pub fn reopen(lock: &Lock, ticket: &mut Ticket) -> Answer
    requires { IsKnown lock.now ticket.old }
    ensures known { IsKnown lock.now ticket.new }
    ensures misuse { ¬ IsToldShut lock.now ticket.old → IsMisuse ticket.old ticket.new result }
    ensures kept { OnlyLockWord ticket.old ticket.new }
    ensures does { IsToldShut lock.now ticket.old → Reopens lock.now ticket.old ticket.new result }
    ensures steps { IsToldShut lock.now ticket.old → StepsUpTo 2 ticket.old ticket.new }
{
    if ticket.has(State::ServedShut, lock) {
        if !reopen_shut(lock, ticket) {
            return Answer::Busy;
        }
        ticket.state = State::Served as u32;
        return Answer::Granted;
    }
    if ticket.has(State::HeadInsideShut, lock) {
        if !reopen_shut(lock, ticket) {
            return Answer::Busy;
        }
        ticket.state = State::HeadInside as u32;
        return Answer::Granted;
    }
    Answer::Misuse
}
