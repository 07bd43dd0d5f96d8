//! Threads that share a strict lock, for tests.
ghost use Rattle.std.specs.Prelude.{◌≡◌, ◌≤◌};
ghost use Rattle.lock_core.specs.Views.{InTime, IsSeatOf, IsIdle};

use crate::dice::Dice;
use crate::field::Field;
use lock_core::{TicketSeat, check_open, new_seat};
use std::sync::Wait;

/// Makes one request. Returns 1 if it was served.
fn turn_or_none<R: Wait>(rt: &R, field: &Field, seat: &mut TicketSeat, dice: &mut Dice) -> u64
    requires strict { field.now.table.shared.key ≤ 1 }
    requires seat { IsSeatOf field.now.table.shared.table_id field.now.table.shared.key seat.old }
    requires idle { InTime seat.old IsIdle }
    ensures seat { IsSeatOf field.now.table.shared.table_id field.now.table.shared.key seat.new }
    ensures idle { InTime seat.new IsIdle }
    ensures count { result ≤ 1 }
{
    let Some((ticket, before)) = field.draw_somehow(rt, seat, dice) else {
        return 0;
    };
    let is_open = check_open(&field.table.shared, seat, ticket);
    if is_open {
        field.counts.queue_turn(ticket, before, 0);
    }
    field.release_all(rt, seat, ticket);
    if is_open { 1 } else { 0 }
}

/// Makes the requests of one thread. Returns how often it was served.
pub(crate) fn turns<R: Wait>(rt: &R, field: &Field, place: u64, requests: u64) -> u64
    requires { field.now.table.shared.key ≤ 1 }
{
    let mut dice = Dice::new(place.wrapping_add(1));
    let mut seat = new_seat(&field.table.shared);
    let mut turns: u64 = 0;
    for _ in 0..requests {
        turns = turns.wrapping_add(turn_or_none(rt, field, &mut seat, &mut dice));
    }
    turns
}
