//! Requests: a ticket draws a number, and the lock serves the tickets in the order of these numbers.
ghost use Rattle.std.specs.Prelude.{◌≡◌};
ghost use Rattle.qolb_locks.specs.declared.ticket.State.{State};
ghost use Rattle.qolb_locks.specs.Calls.{IsMisuse, OnlyRequest, OnlySeat, StepsUpTo, StepsFirst, Learns, IfDrawn, IsBehind, Looks, DrawsAndChecks, Tries, DrawsNear};
ghost use Rattle.qolb_locks.specs.Tickets.{Is, Has, IsFree, IsKnown, IsNew, IsStrict};

use crate::answer::Answer;
use crate::lock::Lock;
use crate::ticket::{State, Ticket};
use lock_core::DrawNearResult;

/// Gives a ticket without a request a new seat of this lock.
#[inline(always)]
pub(crate) fn take_new_seat(lock: &Lock, ticket: &mut Ticket)
    requires { IsFree ticket.old }
    ensures free { Has State.Free lock.now ticket.new }
    ensures steps { StepsFirst 1 ticket.new }
    ensures kept { OnlySeat ticket.old ticket.new }
{
    ticket.claim.put(lock_core::new_seat(&lock.table.shared));
    ticket.label = lock.label;
}

/// Requests the lock with a ticket that has a seat of this lock, and polls once.
#[inline(always)]
fn draw_again(lock: &Lock, ticket: &mut Ticket) -> Answer
    requires { Has State.Free lock.now ticket.old }
    ensures known { IsKnown lock.now ticket.new }
    ensures does { Looks lock.now ticket.new result }
    ensures after { Learns ticket.old ticket.new IsBehind }
    ensures steps { StepsUpTo 2 ticket.old ticket.new }
    ensures kept { OnlyRequest ticket.old ticket.new result }
{
    let mut seat = ticket.claim.take();
    ticket.number = lock_core::draw(&lock.table.shared, &mut seat);
    let rounds = lock_core::poll(&lock.table.shared, &mut seat, ticket.number);
    ticket.claim.put(seat);
    ticket.settle(rounds)
}

/// Requests the lock with a ticket that has no seat of this lock yet, and polls once.
///
/// The function is not inlined, so that the common call saves no registers for it.
#[inline(never)]
fn draw_first(lock: &Lock, ticket: &mut Ticket) -> Answer
    requires { IsFree ticket.old }
    ensures known { IsKnown lock.now ticket.new }
    ensures does { Looks lock.now ticket.new result }
    ensures steps { StepsFirst 3 ticket.new }
    ensures kept { OnlyRequest ticket.old ticket.new result }
{
    take_new_seat(lock, ticket);
    draw_again(lock, ticket)
}

/// Requests the lock, and polls once.
///
/// The request is behind the ticket's last turn at this lock.
#[inline(always)]
pub fn draw(lock: &Lock, ticket: &mut Ticket) -> Answer
    requires { IsKnown lock.now ticket.old }
    ensures known { IsKnown lock.now ticket.new }
    ensures misuse { ¬ IsFree ticket.old → IsMisuse ticket.old ticket.new result }
    ensures does { IsFree ticket.old → Looks lock.now ticket.new result }
    ensures after { Is State.Free lock.now ticket.old → Learns ticket.old ticket.new IsBehind }
    ensures steps { Is State.Free lock.now ticket.old → StepsUpTo 2 ticket.old ticket.new }
    ensures first { IsNew lock.now ticket.old → StepsFirst 3 ticket.new }
    ensures kept { OnlyRequest ticket.old ticket.new result }
{
    if ticket.state != State::Free as u32 {
        return Answer::Misuse;
    }
    if ticket.label != lock.label {
        return draw_first(lock, ticket);
    }
    draw_again(lock, ticket)
}

/// Requests a strict lock with a ticket that has a seat of this lock. If the ticket's turn has come at once, checks
/// whether the lock is open.
#[inline(always)]
fn draw_and_check_again(lock: &Lock, ticket: &mut Ticket) -> Answer
    requires strict { IsStrict lock.now }
    requires free { Has State.Free lock.now ticket.old }
    ensures known { IsKnown lock.now ticket.new }
    ensures does { DrawsAndChecks lock.now ticket.new result }
    ensures after { Learns ticket.old ticket.new IsBehind }
    ensures steps { StepsUpTo 3 ticket.old ticket.new }
    ensures kept { OnlyRequest ticket.old ticket.new result }
{
    let mut seat = ticket.claim.take();
    ticket.number = lock_core::draw(&lock.table.shared, &mut seat);
    let to_go = lock_core::poll(&lock.table.shared, &mut seat, ticket.number);
    if to_go > 0 {
        ticket.claim.put(seat);
        return ticket.settle(to_go);
    }
    let open = lock_core::check_open(&lock.table.shared, &mut seat, ticket.number);
    ticket.claim.put(seat);
    ticket.tell(open)
}

/// Requests a strict lock with a ticket that has no seat of this lock yet. If the ticket's turn has come at once,
/// checks whether the lock is open.
///
/// The function is not inlined, so that the common call saves no registers for it.
#[inline(never)]
fn draw_and_check_first(lock: &Lock, ticket: &mut Ticket) -> Answer
    requires strict { IsStrict lock.now }
    requires free { IsFree ticket.old }
    ensures known { IsKnown lock.now ticket.new }
    ensures does { DrawsAndChecks lock.now ticket.new result }
    ensures steps { StepsFirst 4 ticket.new }
    ensures kept { OnlyRequest ticket.old ticket.new result }
{
    take_new_seat(lock, ticket);
    draw_and_check_again(lock, ticket)
}

/// Requests a strict lock and polls once. If the ticket's turn has come, checks whether the lock is open. This call
/// combines `draw` and `check_open`.
///
/// The answer is `Closed` if the lock is shut. The caller must then pass the turn on with `release`.
#[inline(always)]
pub fn draw_and_check(lock: &Lock, ticket: &mut Ticket) -> Answer
    requires { IsKnown lock.now ticket.old }
    ensures known { IsKnown lock.now ticket.new }
    ensures barging { ¬ IsStrict lock.now → IsMisuse ticket.old ticket.new result }
    ensures misuse { ¬ IsFree ticket.old → IsMisuse ticket.old ticket.new result }
    ensures does { IsStrict lock.now → IsFree ticket.old →
        DrawsAndChecks lock.now ticket.new result }
    ensures after { IsStrict lock.now → Is State.Free lock.now ticket.old →
        Learns ticket.old ticket.new IsBehind }
    ensures steps { IsStrict lock.now → Is State.Free lock.now ticket.old →
        StepsUpTo 3 ticket.old ticket.new }
    ensures first { IsStrict lock.now → IsNew lock.now ticket.old → StepsFirst 4 ticket.new }
    ensures kept { OnlyRequest ticket.old ticket.new result }
{
    if lock.barging_limit > 1 || ticket.state != State::Free as u32 {
        return Answer::Misuse;
    }
    if ticket.label != lock.label {
        return draw_and_check_first(lock, ticket);
    }
    draw_and_check_again(lock, ticket)
}

/// Requests the lock if no caller has it and none waits, with a ticket that has a seat of this lock.
#[inline(always)]
fn try_draw_again(lock: &Lock, ticket: &mut Ticket) -> Answer
    requires { Has State.Free lock.now ticket.old }
    ensures known { IsKnown lock.now ticket.new }
    ensures does { Tries lock.now ticket.new result }
    ensures after { IfDrawn result (Learns ticket.old ticket.new IsBehind) }
    ensures steps { StepsUpTo 3 ticket.old ticket.new }
    ensures kept { OnlyRequest ticket.old ticket.new result }
{
    let mut seat = ticket.claim.take();
    let drawn = lock_core::try_draw(&lock.table.shared, &mut seat);
    ticket.claim.put(seat);
    let Some(number) = drawn else {
        return Answer::Busy;
    };
    ticket.number = number;
    ticket.state = State::AtTurn as u32;
    Answer::Granted
}

/// Requests the lock if no caller has it and none waits, with a ticket that has no seat of this lock yet.
///
/// The function is not inlined, so that the common call saves no registers for it.
#[inline(never)]
fn try_draw_first(lock: &Lock, ticket: &mut Ticket) -> Answer
    requires { IsFree ticket.old }
    ensures known { IsKnown lock.now ticket.new }
    ensures does { Tries lock.now ticket.new result }
    ensures steps { StepsFirst 4 ticket.new }
    ensures kept { OnlyRequest ticket.old ticket.new result }
{
    take_new_seat(lock, ticket);
    try_draw_again(lock, ticket)
}

/// Requests the lock if no caller has it and none waits. The request is behind the ticket's last turn at this lock.
///
/// If the call does not request the lock, it leaves nothing behind.
#[inline(always)]
pub fn try_draw(lock: &Lock, ticket: &mut Ticket) -> Answer
    requires { IsKnown lock.now ticket.old }
    ensures known { IsKnown lock.now ticket.new }
    ensures misuse { ¬ IsFree ticket.old → IsMisuse ticket.old ticket.new result }
    ensures does { IsFree ticket.old → Tries lock.now ticket.new result }
    ensures after { Is State.Free lock.now ticket.old →
        IfDrawn result (Learns ticket.old ticket.new IsBehind) }
    ensures steps { Is State.Free lock.now ticket.old → StepsUpTo 3 ticket.old ticket.new }
    ensures first { IsNew lock.now ticket.old → StepsFirst 4 ticket.new }
    ensures kept { OnlyRequest ticket.old ticket.new result }
{
    if ticket.state != State::Free as u32 {
        return Answer::Misuse;
    }
    if ticket.label != lock.label {
        return try_draw_first(lock, ticket);
    }
    try_draw_again(lock, ticket)
}

/// Requests the lock with a ticket that has a seat of this lock, if the request could be withdrawn.
#[inline(always)]
fn draw_near_again(lock: &Lock, ticket: &mut Ticket) -> Answer
    requires { Has State.Free lock.now ticket.old }
    ensures known { IsKnown lock.now ticket.new }
    ensures does { DrawsNear lock.now ticket.new result }
    ensures after { IfDrawn result (Learns ticket.old ticket.new IsBehind) }
    ensures steps { StepsUpTo 3 ticket.old ticket.new }
    ensures kept { OnlyRequest ticket.old ticket.new result }
{
    let mut seat = ticket.claim.take();
    let drawn = lock_core::draw_near(&lock.table.shared, &mut seat);
    ticket.claim.put(seat);
    match drawn {
        DrawNearResult::AtTurn { ticket: number } => {
            ticket.number = number;
            ticket.state = State::AtTurn as u32;
            Answer::Granted
        }
        DrawNearResult::Queued {
            ticket: number,
            rounds,
        } => {
            ticket.number = number;
            ticket.rounds = rounds;
            ticket.state = State::Waiting as u32;
            Answer::Waiting
        }
        DrawNearResult::Far { rounds } => {
            ticket.rounds = rounds;
            Answer::Far
        }
        DrawNearResult::Changed => Answer::Busy,
    }
}

/// Requests the lock with a ticket that has no seat of this lock yet, if the request could be withdrawn.
///
/// The function is not inlined, so that the common call saves no registers for it.
#[inline(never)]
fn draw_near_first(lock: &Lock, ticket: &mut Ticket) -> Answer
    requires { IsFree ticket.old }
    ensures known { IsKnown lock.now ticket.new }
    ensures does { DrawsNear lock.now ticket.new result }
    ensures steps { StepsFirst 4 ticket.new }
    ensures kept { OnlyRequest ticket.old ticket.new result }
{
    take_new_seat(lock, ticket);
    draw_near_again(lock, ticket)
}

/// Requests the lock if the request could be withdrawn. The request is behind the ticket's last turn at this lock.
///
/// If the call does not request the lock, it leaves nothing behind. Its answer is `Far` if too many requests are before
/// the new one, and `Busy` if another caller drew a ticket at that moment.
#[inline(always)]
pub fn draw_near(lock: &Lock, ticket: &mut Ticket) -> Answer
    requires { IsKnown lock.now ticket.old }
    ensures known { IsKnown lock.now ticket.new }
    ensures misuse { ¬ IsFree ticket.old → IsMisuse ticket.old ticket.new result }
    ensures does { IsFree ticket.old → DrawsNear lock.now ticket.new result }
    ensures after { Is State.Free lock.now ticket.old →
        IfDrawn result (Learns ticket.old ticket.new IsBehind) }
    ensures steps { Is State.Free lock.now ticket.old → StepsUpTo 3 ticket.old ticket.new }
    ensures first { IsNew lock.now ticket.old → StepsFirst 4 ticket.new }
    ensures kept { OnlyRequest ticket.old ticket.new result }
{
    if ticket.state != State::Free as u32 {
        return Answer::Misuse;
    }
    if ticket.label != lock.label {
        return draw_near_first(lock, ticket);
    }
    draw_near_again(lock, ticket)
}
