//! The guard of a critical section. The thread that has the guard may use the lock's value until it leaves the lock.
ghost use Rattle.std.specs.Prelude.{◌≡◌, ◌<◌, ◌≤◌, ◌∷◌, [], IsTrue};
ghost use Rattle.std.specs.Borrow.{sem, Lends};
ghost use Rattle.lock_core.specs.Views.{view_of, InTime, IsSeatOf, KnowsShut, SameKnown};
ghost use Rattle.lock_core.specs.Looks.{StepsLater, LeavesAsFound};
ghost use Rattle.fair_lock.specs.Closing.{HasLeft, ended_by};
ghost use Rattle.fair_lock.specs.Turns.{IsServed, CameInOrder, IsGuard, IsInOrder, IsOpen, LendsValue, SameValue, number_of, with_value};

use crate::drawing::Turn;
use crate::lock::FairLock;
use crate::outcomes::Left;
use lock_core::ValueSeat;
use std::sync::Wait;

/// The guard of a critical section. It lends the lock's value, and its thread must call `leave`, because the type is
/// not `Drop`.
pub struct Guard<'a, T> {
    pub(crate) lock: &'a FairLock<T>,
    pub(crate) seat: ValueSeat<T>,
    pub(crate) ticket: u64,
    pub(crate) slept: bool,
}

impl<T> FairLock<T> {
    /// Returns the guard of a thread that is served and came in its order.
    #[tactic(auto, unfolding(crate::specs::Turns::IsGuard))]
    pub(crate) fn guard(&self, seat: ValueSeat<T>, turn: Turn) -> Guard<'_, T>
        requires seat { IsSeatOf self.now.table.shared.table_id self.now.table.shared.key seat }
        requires served { InTime seat (IsServed self.now.barging_limit turn.ticket) }
        requires order { InTime seat (CameInOrder self.now.barging_limit turn.ticket) }
        ensures guard { IsGuard result }
        ensures order { IsInOrder result }
        ensures lock { result.lock.now ≡ self.now }
        ensures seat { result.seat ≡ seat }
    {
        Guard {
            lock: self,
            seat,
            ticket: turn.ticket,
            slept: turn.slept,
        }
    }
}

impl<T> Guard<'_, T> {
    /// Lends the value. The guard stays valid, no matter what the thread writes.
    pub fn value_mut(&mut self) -> &mut T
        requires guard { IsGuard self.old }
        ensures* writes_back { sem 𝓛 (LendsValue T.row self.entry result) }
        ensures value { self.old.seat.me.1 ≡ (0, result.now) ∷ [] }
        ensures kept { (w : T) → IsGuard (with_value self.old w) }
    {
        let lock = self.lock;
        self.seat.slot_mut(&lock.table.shared, 0)
    }

    /// Shuts the lock: no thread is served after this one, and each waiter learns that the lock is shut. One atomic
    /// step. Until this thread leaves, `try_enter` answers that the lock is busy.
    #[tactic(auto, unfolding(crate::specs::Turns::IsGuard))]
    pub fn shut(&mut self)
        requires guard { IsGuard self.old }
        requires open { IsOpen self.old }
        ensures guard { IsGuard self.new }
        ensures order { IsInOrder self.old → IsInOrder self.new }
        ensures value { SameValue self.old self.new }
        ensures step { StepsLater 1 self.old.seat self.new.seat }
        ensures knows { KnowsShut (view_of self.new.seat) }
    {
        lock_core::shut(&self.lock.table.shared, &mut self.seat);
    }

    /// Ends the critical section. The call grants the next ticket, or leaves the lock word of a barging lock, and wakes
    /// the threads that sleep until this happens. It does not block. A lock that was shut stays shut.
    #[tactic(auto, unfolding(crate::specs::Turns::IsGuard))]
    pub fn leave<R: Wait>(self, rt: &R) -> Left<T>
        requires guard { IsGuard self }
        ensures left { HasLeft self.entry.lock.now result }
        ensures over { self.entry.lock.now.barging_limit ≤ 1
            → number_of self.entry < ended_by result }
        ensures known { SameKnown (view_of self.entry.seat) (view_of result.seat) }
        ensures barging { 2 ≤ self.entry.lock.now.barging_limit
            → LeavesAsFound self.entry.lock.now.barging_limit result.seat }
    {
        let Guard {
            lock,
            mut seat,
            ticket,
            slept,
        } = self;
        if lock.barging_limit < 2 {
            lock.wakes
                .wake(lock.release(rt, &mut seat, Turn { ticket, slept }));
        } else {
            lock.wakes.wake(lock.leave_lock_word(rt, &mut seat));
        }
        Left { seat }
    }

    /// Shows in a proof that a strict lock serves its callers in the order of their requests: each request that `left`
    /// knows to have ended is before the guard's own. One load.
    ///
    /// Therefore, of two guards of one lock, the one with the smaller number left before the other was served.
    #[tactic(auto, unfolding(crate::specs::Turns::IsGuard))]
    pub fn learn_order(&mut self, left: Left<T>)
        requires guard { IsGuard self.old }
        requires strict { self.old.lock.now.barging_limit ≤ 1 }
        requires left { HasLeft self.old.lock.now left }
        ensures guard { IsGuard self.new }
        ensures number { number_of self.new ≡ number_of self.old }
        ensures order { ended_by left ≤ number_of self.new }
        ensures value { SameValue self.old self.new }
    {
        let Left { seat } = left;
        lock_core::learn_order(&self.lock.table.shared, &mut self.seat, seat);
    }
}
