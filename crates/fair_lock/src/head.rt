//! How the first waiter in the queue of a barging lock waits until it holds the lock word. (A barging lock lets newly
//! arriving threads overtake the queue.)
ghost use Rattle.std.specs.Prelude.{◌≡◌, ◌≤◌, true, false, IfOk, IfErr};
ghost use Rattle.fair_lock.specs.Closing.{IsOut};
ghost use Rattle.fair_lock.specs.Found.{NotedOrNotHeld};
ghost use Rattle.lock_core.specs.Views.{view_of, InTime, LoadGrows, IsSeatOf, IsAtTurn, IsOvertakenInBounds, SameInside, InTimeFrom, IsHeadInside, ServedOpen, KnowsShut, ServedShut};
ghost use Rattle.fair_lock.specs.Timeouts.{IsOverOf};

use crate::lock::FairLock;
use crate::span::{Over, Rest, Span};
use crate::watch::{Next, Watch};
use lock_core::{TakeResult, ValueSeat, read_lock_word, request_handoff, take_lock_word};
use std::rt::Clock;
use std::sync::{Wait, WaitMethods};

impl<T> FairLock<T> {
    /// Waits as the queue head until it is inside. Returns `false` if the lock is shut. Blocks.
    pub(crate) fn take_as_head<R: Wait>(&self, rt: &R, seat: &mut ValueSeat<T>, ticket: u64) -> bool
        requires barging { 2 ≤ self.now.barging_limit }
        requires seat { IsSeatOf self.now.table.shared.table_id self.now.table.shared.key seat.old }
        requires at_turn { InTime seat.old (IsAtTurn ticket) }
        requires out { InTime seat.old IsOut }
        ensures seat { IsSeatOf self.now.table.shared.table_id self.now.table.shared.key seat.new }
        ensures load { LoadGrows seat.old seat.new }
        ensures inside { InTime seat.new (IsHeadInside ticket) }
        ensures overtaken { InTime seat.new IsOvertakenInBounds }
        ensures open { result ≡ true → InTime seat.new ServedOpen }
        ensures shut { result ≡ false → InTime seat.new ServedShut }
        ensures knows { result ≡ false → InTime seat.new KnowsShut }
    {
        let table = &self.table.shared;
        let mut watch = Watch::new(self.barging_limit);
        for _ in rt.forever() {
            match watch.next(read_lock_word(table, seat)) {
                Next::Take => match take_lock_word(table, seat, ticket) {
                    TakeResult::Open => return true,
                    TakeResult::Shut => return false,
                    TakeResult::Held { lock_word: _ } | TakeResult::Changed { lock_word: _ } => {}
                },
                Next::Look => watch.pause(),
                Next::Request => {
                    request_handoff(table, seat);
                }
                Next::Sleep => self.sleep_as_head(rt, seat, ticket),
            }
        }
        unreachable!()
    }

    /// Waits as the queue head until it is inside, or until the span is over. Returns `false` if the lock is shut.
    /// Blocks.
    pub(crate) fn take_as_head_within<R: Wait + Clock>(
        &self,
        rt: &R,
        seat: &mut ValueSeat<T>,
        ticket: u64,
        span: &Span,
    ) -> Result<bool, Over>
        requires barging { 2 ≤ self.now.barging_limit }
        requires seat { IsSeatOf self.now.table.shared.table_id self.now.table.shared.key seat.old }
        requires at_turn { InTime seat.old (IsAtTurn ticket) }
        requires out { InTime seat.old IsOut }
        ensures seat { IsSeatOf self.now.table.shared.table_id self.now.table.shared.key seat.new }
        ensures load { LoadGrows seat.old seat.new }
        ensures inside { IfOk result (λ _. InTime seat.new (IsHeadInside ticket)) }
        ensures overtaken { IfOk result (λ _. InTime seat.new IsOvertakenInBounds) }
        ensures open { IfOk result (λ is_open. is_open ≡ true → InTime seat.new ServedOpen) }
        ensures shut { IfOk result (λ is_open. is_open ≡ false → InTime seat.new KnowsShut) }
        ensures at_turn { IfErr result (λ _. InTime seat.new (IsAtTurn ticket)) }
        ensures stays { IfErr result (λ _. InTimeFrom seat.old seat.new SameInside) }
        ensures over { IfErr result (IsOverOf span.now) }
    {
        let table = &self.table.shared;
        let mut watch = Watch::new(self.barging_limit);
        for _ in rt.forever() {
            match watch.next(read_lock_word(table, seat)) {
                Next::Take => match take_lock_word(table, seat, ticket) {
                    TakeResult::Open => return Ok(true),
                    TakeResult::Shut => return Ok(false),
                    TakeResult::Held { lock_word: _ } | TakeResult::Changed { lock_word: _ } => {}
                },
                Next::Look => watch.pause(),
                Next::Request => {
                    request_handoff(table, seat);
                }
                Next::Sleep => {
                    let rest = span.left(rt)?;
                    self.sleep_as_head_within(rt, seat, ticket, &rest);
                }
            }
        }
        unreachable!()
    }

    /// Requests a handoff, and sleeps until the lock word may be reserved. Blocks, but returns at once if the lock word
    /// changed at that moment.
    fn sleep_as_head<R: Wait>(&self, rt: &R, seat: &mut ValueSeat<T>, ticket: u64)
        requires seat { IsSeatOf self.now.table.shared.table_id self.now.table.shared.key seat.old }
        requires at_turn { InTime seat.old (IsAtTurn ticket) }
        ensures seat { IsSeatOf self.now.table.shared.table_id self.now.table.shared.key seat.new }
        ensures load { LoadGrows seat.old seat.new }
        ensures stays { SameInside (view_of seat.old) (view_of seat.new) }
        ensures at_turn { InTime seat.new (IsAtTurn ticket) }
        ensures looked { NotedOrNotHeld seat.new }
    {
        let table = &self.table.shared;
        if !request_handoff(table, seat) {
            return;
        }
        let Some(counted) = self.wakes.see_head().announce_head(table, seat) else {
            return;
        };
        self.wakes.park(rt, &counted);
        counted.woken();
    }

    /// Requests a handoff, and sleeps until the lock word may be reserved, for no longer than the rest of the span.
    /// Blocks, but returns at once if the lock word changed at that moment.
    fn sleep_as_head_within<R: Wait>(
        &self,
        rt: &R,
        seat: &mut ValueSeat<T>,
        ticket: u64,
        rest: &Rest,
    )
        requires seat { IsSeatOf self.now.table.shared.table_id self.now.table.shared.key seat.old }
        requires at_turn { InTime seat.old (IsAtTurn ticket) }
        ensures seat { IsSeatOf self.now.table.shared.table_id self.now.table.shared.key seat.new }
        ensures load { LoadGrows seat.old seat.new }
        ensures stays { SameInside (view_of seat.old) (view_of seat.new) }
        ensures at_turn { InTime seat.new (IsAtTurn ticket) }
        ensures looked { NotedOrNotHeld seat.new }
    {
        let table = &self.table.shared;
        if !request_handoff(table, seat) {
            return;
        }
        let Some(counted) = self.wakes.see_head().announce_head(table, seat) else {
            return;
        };
        self.wakes.park_timeout(rt, &counted, rest);
        counted.woken();
    }
}
