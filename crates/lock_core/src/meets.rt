//! Theorems about two callers of a lock.
//!
//! The contract of an ordinary call can refer to only one caller's seat. Therefore a theorem about two callers is a
//! function that takes both of their seats, and ensures that the two callers cannot be in the stated situation. No
//! program calls these functions, but the proof of a caller may use them.
ghost use Rattle.std.specs.Prelude.{◌≡◌, ◌<◌, ◌≤◌, []};
ghost use Rattle.lock_core.specs.Layout.{HasLockWords, IsLockTable};
ghost use Rattle.lock_core.specs.Views.{view_of, InTime, NeverInTime, LoadGrows, KeepsValue, IsSeatOf, IsIdle, IsOutside, HasTurn, HasTurnAwake, IsNotServed, KnowsShut, LeftQuietly, ServedOpen, SleepsAtLockWord};
ghost use Rattle.lock_core.specs.Meets.{Served, IsWaiting, IsWaitingOpen, IsWaitingShut, IsStillAsleep, GrantedToNobodyAsleepAt, HadPlaceOf, HasHeard, HasLearnedEnded, told_of};

use crate::invariant::{SharedTable, SharedValue, TicketSeat, ValueSeat};
use crate::plays::{Learn, LearnEnded, Meet, Tell, TellOrder};

/// Exclusion: no two callers are served at the same time. In a strict lock, the caller at its turn is served. In a
/// barging lock, the caller inside is served.
pub fn never_two(table: &SharedTable, seat: &mut TicketSeat, other: TicketSeat)
    requires table { IsLockTable table.now.table_id }
    requires seat { IsSeatOf table.now.table_id table.now.key seat.old }
    requires other { IsSeatOf table.now.table_id table.now.key other }
    requires one { InTime seat.old Served }
    requires two { InTime other Served }
    ensures never { NeverInTime seat.new }
{
    table.join_seat::<Meet>(seat, other);
    table.load::<Meet>(seat, 0);
}

/// No two callers have the turn of the queue at the same time. A barging lock therefore has at most one queue head.
pub fn never_two_heads(table: &SharedTable, seat: &mut TicketSeat, other: TicketSeat)
    requires table { IsLockTable table.now.table_id }
    requires seat { IsSeatOf table.now.table_id table.now.key seat.old }
    requires other { IsSeatOf table.now.table_id table.now.key other }
    requires one { InTime seat.old HasTurn }
    requires two { InTime other HasTurn }
    ensures never { NeverInTime seat.new }
{
    table.join_seat::<Meet>(seat, other);
    table.load::<Meet>(seat, 0);
}

/// Order: while a caller waits with a ticket, no caller with a greater ticket has the turn of the queue.
pub fn first_come(table: &SharedTable, seat: &mut TicketSeat, other: TicketSeat)
    requires table { IsLockTable table.now.table_id }
    requires seat { IsSeatOf table.now.table_id table.now.key seat.old }
    requires other { IsSeatOf table.now.table_id table.now.key other }
    requires waits { InTime seat.old IsWaiting }
    requires at_turn { InTime other HasTurn }
    requires before { (view_of seat.old).ticket < (view_of other).ticket }
    ensures never { NeverInTime seat.new }
{
    table.join_seat::<Meet>(seat, other);
    table.load::<Meet>(seat, 0);
}

/// No lost wake-up: if one caller has announced its sleep for a ticket, no other caller granted that ticket and was
/// told that nobody sleeps for it.
pub fn no_lost_wake(table: &SharedTable, seat: &mut TicketSeat, other: TicketSeat)
    requires table { IsLockTable table.now.table_id }
    requires seat { IsSeatOf table.now.table_id table.now.key seat.old }
    requires other { IsSeatOf table.now.table_id table.now.key other }
    requires granted { InTime seat.old (GrantedToNobodyAsleepAt (view_of other).ticket) }
    requires asleep { InTime other IsStillAsleep }
    ensures never { NeverInTime seat.new }
{
    table.join_seat::<Meet>(seat, other);
    table.load::<Meet>(seat, 0);
}

/// No lost wake-up at the lock word: if a queue head had announced its sleep while a caller was inside, that caller, as
/// it left the lock word, was not told that no queue head sleeps.
pub fn no_lost_wake_at_lock_word(table: &SharedTable, seat: &mut TicketSeat, other: TicketSeat)
    requires table { IsLockTable table.now.table_id }
    requires seat { IsSeatOf table.now.table_id table.now.key seat.old }
    requires other { IsSeatOf table.now.table_id table.now.key other }
    requires left { InTime seat.old LeftQuietly }
    requires sleeps { InTime other SleepsAtLockWord }
    requires take { InTime other (λ w. w.slept_in_take ≡ (view_of seat.old).last_take) }
    ensures never { NeverInTime seat.new }
{
    table.join_seat::<Meet>(seat, other);
    table.load::<Meet>(seat, 0);
}

/// From the time when the lock is shut until it is reopened, no caller is served and told that the lock is open.
pub fn none_served_after_shut(table: &SharedTable, seat: &mut TicketSeat, other: TicketSeat)
    requires table { IsLockTable table.now.table_id }
    requires seat { IsSeatOf table.now.table_id table.now.key seat.old }
    requires other { IsSeatOf table.now.table_id table.now.key other }
    requires knows { InTime seat.old KnowsShut }
    requires served { InTime other ServedOpen }
    requires epoch { InTime other (λ w. w.epoch ≤ (view_of seat.old).epoch) }
    ensures never { NeverInTime seat.new }
{
    table.join_seat::<Meet>(seat, other);
    table.load::<Meet>(seat, 0);
}

/// Once the lock is reopened, nobody waits with a ticket that was drawn before the lock was shut.
pub fn none_left_at_reopening(table: &SharedTable, seat: &mut TicketSeat, other: TicketSeat)
    requires table { IsLockTable table.now.table_id }
    requires seat { IsSeatOf table.now.table_id table.now.key seat.old }
    requires other { IsSeatOf table.now.table_id table.now.key other }
    requires waits { InTime other IsWaitingOpen }
    requires reopened { InTime other (λ w. w.drawn_in_epoch < (view_of seat.old).epoch) }
    ensures never { NeverInTime seat.new }
{
    table.join_seat::<Meet>(seat, other);
    table.load::<Meet>(seat, 0);
}

/// While a caller is served and told that the lock is open, no caller waits with a ticket that was drawn in this epoch
/// while the lock was shut.
pub fn drawn_while_open(table: &SharedTable, seat: &mut TicketSeat, other: TicketSeat)
    requires table { IsLockTable table.now.table_id }
    requires seat { IsSeatOf table.now.table_id table.now.key seat.old }
    requires other { IsSeatOf table.now.table_id table.now.key other }
    requires served { InTime seat.old ServedOpen }
    requires waits { InTime other IsWaitingShut }
    requires same { InTime other (λ w. w.drawn_in_epoch ≡ (view_of seat.old).epoch) }
    ensures never { NeverInTime seat.new }
{
    table.join_seat::<Meet>(seat, other);
    table.load::<Meet>(seat, 0);
}

/// No two acquisitions by newcomers have the same place between two queue heads. Therefore at most `max_newcomers` of
/// them come between two queue heads.
pub fn places_differ(table: &SharedTable, seat: &mut TicketSeat, other: TicketSeat)
    requires table { IsLockTable table.now.table_id }
    requires seat { IsSeatOf table.now.table_id table.now.key seat.old }
    requires other { IsSeatOf table.now.table_id table.now.key other }
    requires one { InTime seat.old (HadPlaceOf (view_of seat.old)) }
    requires two { InTime other (HadPlaceOf (view_of seat.old)) }
    ensures never { NeverInTime seat.new }
{
    table.join_seat::<Meet>(seat, other);
    table.load::<Meet>(seat, 0);
}

/// Returns a seat for a new caller. The new caller knows what the first caller knows about ended requests, acquisitions
/// and closing.
pub fn tell(table: &SharedTable, seat: &mut TicketSeat) -> TicketSeat
    requires table { IsLockTable table.now.table_id }
    requires seat { IsSeatOf table.now.table_id table.now.key seat.old }
    ensures seat { IsSeatOf table.now.table_id table.now.key seat.new }
    ensures other { IsSeatOf table.now.table_id table.now.key result }
    ensures same { view_of seat.new ≡ view_of seat.old }
    ensures told { view_of result ≡ told_of (view_of seat.old) }
{
    table.split_seat::<Tell>(seat)
}

/// Before its request, a caller learns what another caller knows. The request is then behind the other caller's last
/// turn.
pub fn learn(table: &SharedTable, seat: &mut TicketSeat, other: TicketSeat)
    requires table { IsLockTable table.now.table_id }
    requires seat { IsSeatOf table.now.table_id table.now.key seat.old }
    requires other { IsSeatOf table.now.table_id table.now.key other }
    requires outside { InTime seat.old IsOutside }
    requires tells { InTime other IsOutside }
    ensures seat { IsSeatOf table.now.table_id table.now.key seat.new }
    ensures idle { IsIdle (view_of seat.new) }
    ensures own { HasHeard (view_of seat.old) (view_of seat.new) }
    ensures others { HasHeard (view_of other) (view_of seat.new) }
{
    table.join_seat::<Learn>(seat, other);
}

/// Order: the request of a caller at its turn is behind each request that another caller knows to have ended. One load.
///
/// Turns therefore end in the order of tickets. A caller at its turn may call this function.
pub fn learn_order<T>(table: &SharedValue<T>, seat: &mut ValueSeat<T>, other: ValueSeat<T>)
    requires table { HasLockWords table.now.table_id }
    requires seat { IsSeatOf table.now.table_id table.now.key seat.old }
    requires other { IsSeatOf table.now.table_id table.now.key other }
    requires at_turn { InTime seat.old HasTurnAwake }
    requires idle { InTime other IsIdle }
    requires home { InTime other IsNotServed }
    requires empty { other.me.1 ≡ [] }
    ensures seat { IsSeatOf table.now.table_id table.now.key seat.new }
    ensures load { LoadGrows seat.old seat.new }
    ensures value { KeepsValue seat.old seat.new }
    ensures own { HasLearnedEnded (view_of seat.old) (view_of other) (view_of seat.new) }
    ensures order { InTime seat.new (λ w. (view_of other).ended ≤ w.ticket) }
{
    table.join_seat::<LearnEnded>(seat, other);
    table.load::<TellOrder>(seat, 0);
}
