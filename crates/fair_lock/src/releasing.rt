//! Releasing the lock: a thread grants the next ticket, or gives up the lock word. These calls report sleepers to the
//! releasing thread, which must wake the sleepers.
ghost use Rattle.std.specs.Prelude.{◌≡◌, ◌<◌, ◌≤◌, false, IfSome, IfNone};
ghost use Rattle.lock_core.specs.Views.{view_of, InTime, InTimeFrom, LoadGrows, IsSeatOf, IsIdle, IsInside, IsOutside, IsNotServed, HasEnded, HasTurnOf, SameKnown, SameOvertaking, SameTurn};
ghost use Rattle.lock_core.specs.Looks.{LeavesAsFound};

use crate::drawing::Turn;
use crate::lock::FairLock;
use crate::wake::{HEAD, TICKETS, WakeWords, WordSeat};
use lock_core::{LeaveResult, ReleaseResult, ValueSeat, leave_lock_word, release};
use std::sync::{Wait, WaitMethods};

/// The duty to wake the sleepers that a call was told of.
///
/// This is a linear token: the type is not `Drop`, and its fields are private to this file. A thread that has it can
/// therefore only wake the sleepers.
pub(crate) struct ToWake {
    place: usize,
    asleep: bool,
    /// Whether the thread must also wake the waiter of the ticket behind, one turn early.
    ahead: bool,
    ghost within: { place < 33 },
}

impl WakeWords {
    ghost use Rattle.fair_lock.specs.Wakes.{AddsOne};

    /// Wakes the threads that sleep at the place of `told`, if `told` says that any do. It changes the word there
    /// first.
    #[inline]
    pub(crate) fn wake(&self, told: ToWake) -> Option<WordSeat>
        ensures woken { IfSome result (AddsOne told.place) }
        ensures nobody { IfNone result (told.asleep ≡ false) }
    {
        let ToWake {
            place,
            asleep,
            ahead,
        } = told;
        let woken = if asleep {
            Some(self.wake_all(place))
        } else {
            None
        };
        if ahead {
            self.wake_all((place + 1) % TICKETS);
        }
        woken
    }
}

impl<T> FairLock<T> {
    ghost use Rattle.fair_lock.specs.Wakes.{IsToldOf, IsToldOfHead};

    /// Ends a turn of the queue: passes withdrawn requests, and grants the first request that is not withdrawn. A queue
    /// head that is inside stays inside.
    pub(crate) fn release<R: Wait>(&self, rt: &R, seat: &mut ValueSeat<T>, turn: Turn) -> ToWake
        requires seat { IsSeatOf self.now.table.shared.table_id self.now.table.shared.key seat.old }
        requires has { InTime seat.old (HasTurnOf turn.ticket) }
        ensures seat { IsSeatOf self.now.table.shared.table_id self.now.table.shared.key seat.new }
        ensures load { LoadGrows seat.old seat.new }
        ensures turn { SameTurn (view_of seat.old) (view_of seat.new) }
        ensures idle { InTime seat.new IsIdle }
        ensures ended { InTimeFrom seat.old seat.new HasEnded }
        ensures later { InTimeFrom seat.old seat.new (λ v w. v.ticket ≤ w.ticket) }
        ensures overtaking { InTimeFrom seat.old seat.new SameOvertaking }
        ensures strict { self.now.barging_limit ≤ 1 → InTime seat.new IsNotServed }
        ensures told { InTime seat.new (IsToldOf result) }
    {
        let mut last = turn.ticket;
        for _ in rt.forever() {
            if let ReleaseResult::Granted { sleepers } = release(
                &self.table.shared,
                seat,
                &mut last,
            ) {
                let place = (last.wrapping_add(1) % TICKETS as u64) as usize;
                return ToWake {
                    place,
                    asleep: sleepers != 0,
                    ahead: turn.slept,
                };
            }
        }
        unreachable!()
    }

    /// Leaves the lock word. The thread must wake the queue head if the queue head sleeps there.
    pub(crate) fn leave_lock_word<R: Wait>(&self, rt: &R, seat: &mut ValueSeat<T>) -> ToWake
        requires seat { IsSeatOf self.now.table.shared.table_id self.now.table.shared.key seat.old }
        requires inside { InTime seat.old IsInside }
        ensures seat { IsSeatOf self.now.table.shared.table_id self.now.table.shared.key seat.new }
        ensures outside { InTime seat.new IsOutside }
        ensures home { InTime seat.new IsNotServed }
        ensures known { SameKnown (view_of seat.old) (view_of seat.new) }
        ensures load { LoadGrows seat.old seat.new }
        ensures left { LeavesAsFound self.now.barging_limit seat.new }
        ensures told { InTime seat.new (IsToldOfHead result) }
    {
        for _ in rt.forever() {
            if let LeaveResult::Outside { head_asleep } = leave_lock_word(
                &self.table.shared,
                seat,
                self.barging_limit,
            ) {
                return ToWake {
                    place: HEAD,
                    asleep: head_asleep,
                    ahead: false,
                };
            }
        }
        unreachable!()
    }
}
