//! Theorems about two tickets of the same lock.
//!
//! Each function of this file is a theorem about a situation that would be an error, such as two tickets that are
//! served at the same time. The theorem states that two tickets can be in this situation only if more requests were
//! open at the lock than the proofs allow. No program calls these functions, but a proof about callers may use them.
ghost use Rattle.std.specs.Prelude.{◌≡◌, ◌<◌, ◌≤◌};
ghost use Rattle.lock_core.specs.Meets.{IsWaiting, IsWaitingOpen, IsWaitingShut, IsStillAsleep, GrantedToNobodyAsleepAt, HadPlaceOf};
ghost use Rattle.lock_core.specs.Views.{Timely, NeverInTime, HasTurn, KnowsShut, LeftQuietly, ServedOpen, SleepsAtLockWord};
ghost use Rattle.qolb_locks.specs.declared.ticket.State.{State};
ghost use Rattle.qolb_locks.specs.Meets.{Both, IsInService};
ghost use Rattle.qolb_locks.specs.Tickets.{IsKnown, IsWithin};

use crate::lock::Lock;
use crate::ticket::Ticket;
use lock_core::TicketSeat;

/// No two tickets are served at the same time, according to their states.
pub fn never_two(lock: &Lock, ticket: &mut Ticket, other: &mut Ticket) -> TicketSeat
    requires known { IsKnown lock.now ticket.old × IsKnown lock.now other.old }
    requires one { IsInService lock.now ticket.old }
    requires two { IsInService lock.now other.old }
    ensures { NeverInTime result }
{
    let mut seat = ticket.claim.take();
    lock_core::never_two(&lock.table.shared, &mut seat, other.claim.take());
    seat
}

/// No two tickets have a turn of the queue at the same time, according to their states. A barging lock therefore has at
/// most one queue head.
pub fn never_two_at_turn(lock: &Lock, ticket: &mut Ticket, other: &mut Ticket) -> TicketSeat
    requires known { IsKnown lock.now ticket.old × IsKnown lock.now other.old }
    requires one { IsWithin 3 8 lock.now ticket.old }
    requires two { IsWithin 3 8 lock.now other.old }
    ensures { NeverInTime result }
{
    let mut seat = ticket.claim.take();
    lock_core::never_two_heads(&lock.table.shared, &mut seat, other.claim.take());
    seat
}

/// No ticket has a turn of the queue while a ticket with a smaller number waits.
pub fn first_come(lock: &Lock, ticket: &mut Ticket, other: &mut Ticket) -> TicketSeat
    requires { Both lock.now ticket.old other.old (λ v w. (Timely v → IsWaiting v) × (Timely w →
        HasTurn w) × (v.ticket < w.ticket)) }
    ensures { NeverInTime result }
{
    let mut seat = ticket.claim.take();
    lock_core::first_come(&lock.table.shared, &mut seat, other.claim.take());
    seat
}

/// If a release says that nobody sleeps, no caller had announced its sleep for the ticket that the release granted.
pub fn no_lost_wake(lock: &Lock, ticket: &mut Ticket, other: &mut Ticket) -> TicketSeat
    requires { Both lock.now ticket.old other.old (λ v w. (Timely v →
        GrantedToNobodyAsleepAt w.ticket v) × (Timely w → IsStillAsleep w)) }
    ensures { NeverInTime result }
{
    let mut seat = ticket.claim.take();
    lock_core::no_lost_wake(&lock.table.shared, &mut seat, other.claim.take());
    seat
}

/// If a leave says that no queue head sleeps, no queue head had noted its sleep while the leaving caller was inside.
pub fn no_lost_wake_at_lock_word(lock: &Lock, ticket: &mut Ticket, other: &mut Ticket) -> TicketSeat
    requires { Both lock.now ticket.old other.old (λ v w. (Timely v → LeftQuietly v) × (Timely w →
        SleepsAtLockWord w) × (Timely w → w.slept_in_take ≡ v.last_take)) }
    ensures { NeverInTime result }
{
    let mut seat = ticket.claim.take();
    lock_core::no_lost_wake_at_lock_word(&lock.table.shared, &mut seat, other.claim.take());
    seat
}

/// After the lock was shut, no ticket is served and told that the lock is open until the lock is reopened.
pub fn none_served_after_shut(lock: &Lock, ticket: &mut Ticket, other: &mut Ticket) -> TicketSeat
    requires { Both lock.now ticket.old other.old (λ v w. (Timely v → KnowsShut v) × (Timely w →
        ServedOpen w) × (Timely w → w.epoch ≤ v.epoch)) }
    ensures { NeverInTime result }
{
    let mut seat = ticket.claim.take();
    lock_core::none_served_after_shut(&lock.table.shared, &mut seat, other.claim.take());
    seat
}

/// Once the lock was shut and reopened, no ticket waits with a number that was drawn while the lock was open before.
pub fn none_left_at_reopening(lock: &Lock, ticket: &mut Ticket, other: &mut Ticket) -> TicketSeat
    requires { Both lock.now ticket.old other.old (λ v w. (Timely w → IsWaitingOpen w) × (Timely w
        → w.drawn_in_epoch < v.epoch)) }
    ensures { NeverInTime result }
{
    let mut seat = ticket.claim.take();
    lock_core::none_left_at_reopening(&lock.table.shared, &mut seat, other.claim.take());
    seat
}

/// While one ticket is served with the lock open, no other ticket waits with a number that was drawn in that epoch
/// while the lock was shut.
pub fn drawn_while_open(lock: &Lock, ticket: &mut Ticket, other: &mut Ticket) -> TicketSeat
    requires { Both lock.now ticket.old other.old (λ v w. (Timely v → ServedOpen v) × (Timely w →
        IsWaitingShut w) × (Timely w → w.drawn_in_epoch ≡ v.epoch)) }
    ensures { NeverInTime result }
{
    let mut seat = ticket.claim.take();
    lock_core::drawn_while_open(&lock.table.shared, &mut seat, other.claim.take());
    seat
}

/// No two acquisitions by newcomers have the same place between two queue heads.
pub fn places_differ(lock: &Lock, ticket: &mut Ticket, other: &mut Ticket) -> TicketSeat
    requires { Both lock.now ticket.old other.old (λ v w. (Timely v → HadPlaceOf v v)
        × (Timely w → HadPlaceOf v w)) }
    ensures { NeverInTime result }
{
    let mut seat = ticket.claim.take();
    lock_core::places_differ(&lock.table.shared, &mut seat, other.claim.take());
    seat
}
