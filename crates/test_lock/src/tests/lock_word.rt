//! Tests each possible answer of the calls on the lock word. One thread makes all calls, for a few callers.
ghost use Rattle.std.specs.Prelude.{◌≤◌, IfOk};
ghost use Rattle.lock_core.specs.Layout.{IsLockTable};

use lock_core::{
    BargeResult, HeadSleepResult, LeaveResult, LockKind, ReleaseResult, SharedTable, TakeResult,
    TicketTable, announce_head_sleep, barge, barge_if, draw, leave_lock_word, leave_lock_word_if,
    new_seat, open, poll, release, request_handoff, take_lock_word,
};
use std::alloc::Global;
use std::test::Fail;

/// Returns a new lock with a barging limit of three.
fn in_threes(alloc: Global) -> Result<TicketTable, Fail>
    ensures table { IfOk result (λ table. IsLockTable table.shared.table_id) }
    ensures barging { IfOk result (λ table. 3 ≤ table.shared.key) }
{
    Ok(open(alloc, LockKind::Barging(3)).ok().ok_or("opened")?)
}

/// What the queue head and a newcomer, which is a thread that barged, get as answers.
#[derive(Clone, Copy, Debug, PartialEq)]
struct Told {
    held: TakeResult,
    requested: bool,
    asleep: HeadSleepResult,
    left: LeaveResult,
    awake: HeadSleepResult,
    /// Whether another thread barged after these answers.
    other_in: bool,
    released: ReleaseResult,
}

/// A newcomer is inside; the queue head waits and sleeps, and is inside after the newcomer.
fn woken(lock: &SharedTable) -> Option<Told>
    requires table { IsLockTable lock.now.table_id }
    requires barging { 3 ≤ lock.now.key }
{
    let mut newcomer = new_seat(lock);
    let mut head = new_seat(lock);
    if !barge(lock, &mut newcomer) {
        return None;
    }
    let mut ticket = draw(lock, &mut head);
    if poll(lock, &mut head, ticket) != 0 {
        return None;
    }
    let held = take_lock_word(lock, &mut head, ticket);
    let TakeResult::Held { .. } = held else {
        return None;
    };
    let requested = request_handoff(lock, &mut head);
    let asleep = announce_head_sleep(lock, &mut head);
    let left = leave_lock_word(lock, &mut newcomer, 3);
    let awake = announce_head_sleep(lock, &mut head);
    let mut other = new_seat(lock);
    let other_in = barge(lock, &mut other);
    let TakeResult::Open = take_lock_word(lock, &mut head, ticket) else {
        return None;
    };
    Some(Told {
        held,
        requested,
        asleep,
        left,
        awake,
        other_in,
        released: release(lock, &mut head, &mut ticket),
    })
}

#[test]
fn a_queue_head_is_told_of(rt: HostRuntime) -> Result<(), Fail> {
    let table = in_threes(rt.alloc())?;
    let wanted = Told {
        // Held (4), one newcomer (32).
        held: TakeResult::Held { lock_word: 36 },
        requested: true,
        // Handoff requested (1), the head asleep (2).
        asleep: HeadSleepResult::Asleep { lock_word: 39 },
        left: LeaveResult::Outside { head_asleep: true },
        awake: HeadSleepResult::NotHeld,
        // The lock word is reserved.
        other_in: false,
        released: ReleaseResult::Granted { sleepers: 0 },
    };
    assert_eq!(rt; woken(&table.shared), Some(wanted));
    Ok(())
}

/// A thread barges and leaves by steps that expect a certain lock word. Returns the answers to words that it does not
/// find, and to the right one.
fn left_as_expected(
    lock: &SharedTable,
) -> Option<(BargeResult, BargeResult, LeaveResult, LeaveResult)>
    requires table { IsLockTable lock.now.table_id }
    requires barging { 3 ≤ lock.now.key }
{
    let mut caller = new_seat(lock);
    // The word is 0: free. 32 is free after one newcomer, 4 is held.
    let stale_in = barge_if(lock, &mut caller, 32);
    let BargeResult::Outside { .. } = stale_in else {
        return None;
    };
    let no_entry = barge_if(lock, &mut caller, 4);
    let BargeResult::Outside { .. } = no_entry else {
        return None;
    };
    let BargeResult::Inside = barge_if(lock, &mut caller, 0) else {
        return None;
    };
    // Held, one newcomer.
    let stale = leave_lock_word_if(lock, &mut caller, 3, 68);
    let LeaveResult::Changed { .. } = stale else {
        return None;
    };
    let left = leave_lock_word_if(lock, &mut caller, 3, 36);
    Some((stale_in, no_entry, stale, left))
}

#[test]
fn a_thread_barges_by_the_word_that_it_expects(rt: HostRuntime) -> Result<(), Fail> {
    let table = in_threes(rt.alloc())?;
    let free = BargeResult::Outside { lock_word: 0 };
    let stale = LeaveResult::Changed { lock_word: 36 };
    let left = LeaveResult::Outside { head_asleep: false };
    assert_eq!(rt;
        left_as_expected(&table.shared),
        Some((free, free, stale, left))
    );
    Ok(())
}

/// A thread barges three times, and leaves each time. Returns whether it was inside each time.
fn barge_three_times(lock: &SharedTable) -> [bool; 3]
    requires table { IsLockTable lock.now.table_id }
    requires barging { 3 ≤ lock.now.key }
{
    let mut was_in = [false; 3];
    for at in 0..3usize {
        let mut caller = new_seat(lock);
        was_in[at] = barge(lock, &mut caller);
        if was_in[at] {
            leave_lock_word(lock, &mut caller, 3);
        }
    }
    was_in
}

/// After two newcomers, with a barging limit of three, the lock word is reserved.
#[test]
fn barging_ends_at_its_limit(rt: HostRuntime) -> Result<(), Fail> {
    let table = in_threes(rt.alloc())?;
    assert_eq!(rt; barge_three_times(&table.shared), [true, true, false]);
    Ok(())
}
