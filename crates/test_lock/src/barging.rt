//! Threads that share a barging lock, for tests.
ghost use Rattle.std.specs.Prelude.{◌≡◌, ◌≤◌, true, false};
ghost use Rattle.lock_core.specs.Views.{view_of, InTime, IsSeatOf, IsIdle, IsAtTurn, IsHeadInside, IsInside};

use crate::dice::Dice;
use crate::field::Field;
use lock_core::{
    HeadSleepResult, LeaveResult, TakeResult, TicketSeat, announce_head_sleep, barge,
    leave_lock_word, new_seat, request_handoff, take_lock_word,
};
use std::hint::spin_loop;
use std::sync::Wait;

/// How often a queue head looks at the lock word before it sleeps.
const LOOKS: u64 = 16;

/// Tries for the lock word for a while. Returns `true` once the queue head is inside.
fn look_a_while(field: &Field, seat: &mut TicketSeat, ticket: u64) -> bool
    requires barging { 2 ≤ field.now.table.shared.key }
    requires seat { IsSeatOf field.now.table.shared.table_id field.now.table.shared.key seat.old }
    requires at_turn { InTime seat.old (IsAtTurn ticket) }
    ensures seat { IsSeatOf field.now.table.shared.table_id field.now.table.shared.key seat.new }
    ensures inside { result ≡ true → InTime seat.new (IsHeadInside ticket) }
    ensures at_turn { result ≡ false → InTime seat.new (IsAtTurn ticket) }
{
    for _ in 0..LOOKS {
        match take_lock_word(&field.table.shared, seat, ticket) {
            TakeResult::Open => return true,
            TakeResult::Shut => return true,
            TakeResult::Held { .. } => spin_loop(),
            TakeResult::Changed { .. } => spin_loop(),
        }
    }
    false
}

/// Sleeps at the lock word until a thread that left it wakes this one.
fn sleep_as_head<R: Wait>(rt: &R, field: &Field, seat: &mut TicketSeat, ticket: u64)
    requires seat { IsSeatOf field.now.table.shared.table_id field.now.table.shared.key seat.old }
    requires at_turn { InTime seat.old (IsAtTurn ticket) }
    ensures seat { IsSeatOf field.now.table.shared.table_id field.now.table.shared.key seat.new }
    ensures at_turn { InTime seat.new (IsAtTurn ticket) }
{
    let seen = field.wakes();
    request_handoff(&field.table.shared, seat);
    match announce_head_sleep(&field.table.shared, seat) {
        HeadSleepResult::Asleep { .. } => field.sleep(rt, seen),
        HeadSleepResult::NotHeld => {}
        HeadSleepResult::Changed => {}
    }
}

/// Takes the lock word for the queue head, awake and asleep.
fn take_as_head<R: Wait>(rt: &R, field: &Field, seat: &mut TicketSeat, ticket: u64)
    requires barging { 2 ≤ field.now.table.shared.key }
    requires seat { IsSeatOf field.now.table.shared.table_id field.now.table.shared.key seat.old }
    requires at_turn { InTime seat.old (IsAtTurn ticket) }
    ensures seat { IsSeatOf field.now.table.shared.table_id field.now.table.shared.key seat.new }
    ensures inside { InTime seat.new (IsHeadInside ticket) }
{
    for _ in rt.forever() {
        if look_a_while(field, seat, ticket) {
            return;
        }
        sleep_as_head(rt, field, seat, ticket);
    }
    unreachable!()
}

/// Leaves the lock word, and wakes a queue head that sleeps there.
fn go_out<R: Wait>(rt: &R, field: &Field, seat: &mut TicketSeat, barging_limit: u64)
    requires barging_limit { barging_limit ≤ field.now.table.shared.key }
    requires seat { IsSeatOf field.now.table.shared.table_id field.now.table.shared.key seat.old }
    requires inside { InTime seat.old IsInside }
    ensures seat { IsSeatOf field.now.table.shared.table_id field.now.table.shared.key seat.new }
    ensures idle { InTime seat.new IsIdle }
{
    for _ in rt.forever() {
        match leave_lock_word(&field.table.shared, seat, barging_limit) {
            LeaveResult::Outside { head_asleep } => {
                if head_asleep {
                    field.wake();
                }
                return;
            }
            LeaveResult::Changed { .. } => {}
        }
    }
    unreachable!()
}

/// Makes one request: barges if possible, and otherwise waits in the queue. Returns 1 if the request was served.
fn turn_or_none<R: Wait>(
    rt: &R,
    field: &Field,
    seat: &mut TicketSeat,
    dice: &mut Dice,
    barging_limit: u64,
    bound: u64,
) -> u64
    requires barging { 2 ≤ field.now.table.shared.key }
    requires barging_limit { barging_limit ≤ field.now.table.shared.key }
    requires seat { IsSeatOf field.now.table.shared.table_id field.now.table.shared.key seat.old }
    requires idle { InTime seat.old IsIdle }
    ensures seat { IsSeatOf field.now.table.shared.table_id field.now.table.shared.key seat.new }
    ensures idle { InTime seat.new IsIdle }
    ensures count { result ≤ 1 }
{
    if barge(&field.table.shared, seat) {
        field.counts.newcomer(barging_limit.saturating_sub(1));
        go_out(rt, field, seat, barging_limit);
        return 1;
    }
    let Some((ticket, before)) = field.draw_somehow(rt, seat, dice) else {
        return 0;
    };
    take_as_head(rt, field, seat, ticket);
    field.counts.queue_turn(ticket, before, bound);
    field.release_all(rt, seat, ticket);
    go_out(rt, field, seat, barging_limit);
    1
}

/// Makes the requests of one thread, each of which `bound` threads may overtake. Returns how often it was served.
pub(crate) fn turns<R: Wait>(
    rt: &R,
    field: &Field,
    place: u64,
    requests: u64,
    barging_limit: u64,
    bound: u64,
) -> u64
    requires barging { 2 ≤ field.now.table.shared.key }
    requires barging_limit { barging_limit ≤ field.now.table.shared.key }
{
    let mut dice = Dice::new(place.wrapping_add(1));
    let mut seat = new_seat(&field.table.shared);
    let mut turns: u64 = 0;
    for _ in 0..requests {
        let turn = turn_or_none(rt, field, &mut seat, &mut dice, barging_limit, bound);
        turns = turns.wrapping_add(turn);
    }
    turns
}
