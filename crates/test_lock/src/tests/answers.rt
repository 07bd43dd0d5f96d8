//! Tests each possible answer of the calls on the queue, and of the calls that shut the lock. One thread makes all
//! calls, for a few callers.
ghost use Rattle.std.specs.Prelude.{◌≤◌, IfOk};
ghost use Rattle.lock_core.specs.Layout.{IsLockTable};

use lock_core::{
    DrawNearResult, LockKind, ReleaseResult, SharedTable, SleepResult, TicketSeat, TicketTable,
    announce_sleep, check_open, draw, draw_near, learn, new_seat, open, poll, release, reopen,
    retract_sleep, shut, tell, try_draw, withdraw,
};
use std::alloc::Global;
use std::test::Fail;

/// Returns a new strict lock.
fn strict(alloc: Global) -> Result<TicketTable, Fail>
    ensures table { IfOk result (λ table. IsLockTable table.shared.table_id) }
    ensures strict { IfOk result (λ table. table.shared.key ≤ 1) }
{
    Ok(open(alloc, LockKind::Strict).ok().ok_or("opened")?)
}

/// A caller holds the lock. Another waits, announces its sleep, and is granted the lock. Returns the rounds and the
/// word of the announcement, the answer of the release, and the rounds to go after it.
fn granted_asleep(lock: &SharedTable) -> Option<(u64, u64, ReleaseResult, u64)>
    requires { IsLockTable lock.now.table_id }
{
    let mut holder = new_seat(lock);
    let mut waiter = new_seat(lock);
    let mut turn = try_draw(lock, &mut holder)?;
    let ticket = draw(lock, &mut waiter);
    if poll(lock, &mut waiter, ticket) == 0 {
        return None;
    }
    let SleepResult::Asleep { rounds, cell } = announce_sleep(lock, &mut waiter, ticket) else {
        return None;
    };
    let released = release(lock, &mut holder, &mut turn);
    let to_go = retract_sleep(lock, &mut waiter, ticket);
    Some((rounds, cell, released, to_go))
}

#[test]
fn a_sleeper_is_told_of(rt: HostRuntime) -> Result<(), Fail> {
    let table = strict(rt.alloc())?;
    // There is one sleeper, and no round is granted in the cell of ticket 1.
    let wanted = (1, 1 << 16, ReleaseResult::Granted { sleepers: 1 }, 0);
    assert_eq!(rt; granted_asleep(&table.shared), Some(wanted));
    Ok(())
}

/// A caller withdraws its request, and the release passes it. Returns the withdrawn ticket with its rounds to go, the
/// answer of the release, the ticket that the release passed last, and the next ticket.
fn passed(lock: &SharedTable) -> Option<(u64, u64, ReleaseResult, u64, DrawNearResult)>
    requires { IsLockTable lock.now.table_id }
{
    let mut holder = new_seat(lock);
    let mut waiter = new_seat(lock);
    let mut turn = try_draw(lock, &mut holder)?;
    let DrawNearResult::Queued { ticket, rounds } = draw_near(lock, &mut waiter) else {
        return None;
    };
    if !withdraw(lock, &mut waiter, ticket, rounds) {
        return None;
    }
    let released = release(lock, &mut holder, &mut turn);
    let ReleaseResult::Granted { .. } = released else {
        return None;
    };
    Some((ticket, rounds, released, turn, draw_near(lock, &mut holder)))
}

#[test]
fn a_withdrawn_request_is_passed(rt: HostRuntime) -> Result<(), Fail> {
    let table = strict(rt.alloc())?;
    let released = ReleaseResult::Granted { sleepers: 0 };
    let next = DrawNearResult::AtTurn { ticket: 2 };
    assert_eq!(rt; passed(&table.shared), Some((1, 1, released, 1, next)));
    Ok(())
}

/// A request is granted before it is withdrawn. Returns whether it was withdrawn.
fn withdrawn_too_late(lock: &SharedTable) -> Option<bool>
    requires { IsLockTable lock.now.table_id }
{
    let mut holder = new_seat(lock);
    let mut waiter = new_seat(lock);
    let mut turn = try_draw(lock, &mut holder)?;
    let DrawNearResult::Queued { ticket, rounds } = draw_near(lock, &mut waiter) else {
        return None;
    };
    release(lock, &mut holder, &mut turn);
    Some(withdraw(lock, &mut waiter, ticket, rounds))
}

#[test]
fn a_granted_request_is_not_withdrawn(rt: HostRuntime) -> Result<(), Fail> {
    let table = strict(rt.alloc())?;
    assert_eq!(rt; withdrawn_too_late(&table.shared), Some(false));
    Ok(())
}

/// Draws the ticket of a caller that never takes its turn.
fn draw_one(lock: &SharedTable) -> u64
    requires { IsLockTable lock.now.table_id }
{
    let mut seat: TicketSeat = new_seat(lock);
    draw(lock, &mut seat)
}

/// A caller holds the lock, and 60 requests wait. Returns the answers to a caller that draws a ticket only near its
/// turn, to one that draws only if it need not wait, and to one that draws in any case.
fn drawn_far(lock: &SharedTable) -> Option<(DrawNearResult, Option<u64>, u64)>
    requires { IsLockTable lock.now.table_id }
{
    let mut holder = new_seat(lock);
    try_draw(lock, &mut holder)?;
    for _ in 0..60 {
        draw_one(lock);
    }
    let mut late = new_seat(lock);
    let near = draw_near(lock, &mut late);
    let mut other = new_seat(lock);
    let tried = try_draw(lock, &mut other);
    Some((near, tried, draw_one(lock)))
}

/// No ticket is drawn beyond the window, or if it would wait.
#[test]
fn far_and_busy_draw_no_ticket(rt: HostRuntime) -> Result<(), Fail> {
    let table = strict(rt.alloc())?;
    // Ticket 61 is in round 15 of its cell, in which none is granted.
    let far = DrawNearResult::Far { rounds: 16 };
    assert_eq!(rt; drawn_far(&table.shared), Some((far, None, 61)));
    Ok(())
}

/// A caller finds the lock open and shuts it, and two callers behind it find it shut. Returns whether each of these two
/// reopened the lock.
fn reopened(lock: &SharedTable) -> Option<(bool, bool)>
    requires table { IsLockTable lock.now.table_id }
    requires strict { lock.now.key ≤ 1 }
{
    let mut first = new_seat(lock);
    let mut second = new_seat(lock);
    let mut third = new_seat(lock);
    let mut one = try_draw(lock, &mut first)?;
    if !check_open(lock, &mut first, one) {
        return None;
    }
    shut(lock, &mut first);
    let mut two = draw(lock, &mut second);
    let three = draw(lock, &mut third);
    release(lock, &mut first, &mut one);
    if poll(lock, &mut second, two) != 0 || check_open(lock, &mut second, two) {
        return None;
    }
    let by_second = reopen(lock, &mut second, two);
    if by_second {
        return None;
    }
    release(lock, &mut second, &mut two);
    if poll(lock, &mut third, three) != 0 || check_open(lock, &mut third, three) {
        return None;
    }
    let by_third = reopen(lock, &mut third, three);
    Some((by_second, by_third))
}

/// After a shut each caller is told that the lock is shut, until a caller with nobody behind it reopens the lock.
#[test]
fn a_shut_lock_is_reopened(rt: HostRuntime) -> Result<(), Fail> {
    let table = strict(rt.alloc())?;
    assert_eq!(rt; reopened(&table.shared), Some((false, true)));
    Ok(())
}

/// A caller tells another caller what it knows, and that caller then draws a ticket.
fn drawn_after_it_learnt(lock: &SharedTable) -> Option<u64>
    requires { IsLockTable lock.now.table_id }
{
    let mut one = new_seat(lock);
    let mut other = new_seat(lock);
    let told = tell(lock, &mut one);
    learn(lock, &mut other, told);
    try_draw(lock, &mut other)
}

#[test]
fn callers_tell_one_another(rt: HostRuntime) -> Result<(), Fail> {
    let table = strict(rt.alloc())?;
    assert_eq!(rt; drawn_after_it_learnt(&table.shared), Some(0));
    Ok(())
}
