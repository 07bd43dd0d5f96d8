//! The words on which waiters sleep, and how a releasing thread wakes the waiters. The code in this file never decides
//! which thread gets the lock next.
//!
//! A waiter polls the cell of its ticket, and a grant changes the high half of the cell. The kernel, however, compares
//! only the low half of a word before it puts a thread to sleep. Therefore waiters sleep on separate *wake words*.
//! There are 32 wake words for tickets, one of which the ticket's number selects, and one more for the queue head.
//!
//! A waiter reads its wake word, announces its sleep with the proved call, and sleeps while the wake word has the value
//! that it read. If a release reports sleepers, the releasing thread increments the wake word of the granted ticket,
//! and then wakes all threads that sleep on that word. So no wake-up is lost between the announcement and the sleep.
//! With 32 wake words, 32 consecutive waiters sleep on different words. A thread that has slept also wakes the waiter
//! behind the ticket that it grants.
ghost use Rattle.std.specs.Prelude.{◌≡◌, ◌<◌, ◌≤◌, ◌%◌, IfSome, IfNone};
ghost use Rattle.lock_core.specs.Layout.{HasLockWords, cell_at, lock_word_at, handoff_of, to_go};
ghost use Rattle.lock_core.specs.Views.{view_of, InTime, InTimeFrom, LoadGrows, IsSeatOf, IsQueued, IsQueuedWithin, IsAsleep, IsAtTurn, IsOvertakenInBounds, SameInside, SleepsAtLockWord, SleepsInTake, Kept};
ghost use Rattle.lock_core.specs.Looks.{StepsLater, Found, Leaves, Changes, IsNotedAsleep};
ghost use Rattle.fair_lock.specs.Found.{FoundWaiting, FoundNoPlace, FoundNotHeld};
ghost use Rattle.fair_lock.specs.WakeSteps as steps;

use crate::span::Rest;
use atomic_table::{Play, Seat, Table, TableRule};
use lock_core::{
    HeadSleepResult, SharedValue, SleepResult, ValueSeat, announce_head_sleep, announce_sleep,
    retract_sleep,
};
use std::alloc::{AllocError, Global};
use std::sync::{Wait, WaitMethods};
use std::time::Duration;

/// The number of wake words for tickets. A ticket uses the word of its number modulo this.
pub(crate) const TICKETS: usize = 32;

/// The wake word of the queue head, which comes after those of the tickets.
pub(crate) const HEAD: usize = TICKETS;

/// What a step on a wake word showed: the word, what the step found there, and what it left there. The program makes no
/// value of this type.
pub(crate) struct Look {
    pub word: u64,
    pub found: u64,
    pub left: u64,
}

/// Shows in proofs what the last step on a wake word was. This value has no bytes.
pub(crate) type WordSeat = Seat<u64, Look>;

/// The invariant of the wake words, which requires nothing.
pub(crate) struct WakeInvariant;

impl TableRule<u64, Look, u64> for WakeInvariant {
    ghost holds = { λ _ _. Unit {0} };

    ghost first = { λ _. steps.nothing_shown };
}

/// A thread reads a wake word.
pub(crate) struct Read;

impl Play<u64, Look> for Read {
    ghost then = { steps.reads };
}

/// A thread adds a number to a wake word.
pub(crate) struct Add;

impl Play<u64, Look> for Add {
    ghost then = { steps.adds };
}

/// The wake words of a lock.
#[derive(Drop)]
pub(crate) struct WakeWords {
    table: Table<u64, Look, u64, WakeInvariant, Global>,
    ghost sized: { table.shared.table_id.words ≡ 40 },
}

/// What a waiter read at its wake word before it announced its sleep.
///
/// This is a linear token: the type is not `Drop`, and its fields are private to this file. Only
/// `WakeWords::see_ticket` and `see_head` make one, and only an announcement ends it.
pub(crate) struct Seen {
    place: usize,
    low: u32,
    step: WordSeat,
    ghost within: { place < 33 },
    ghost as_found: { (step.me.0.word ≡ place) × (low ≡ step.me.0.found % 4294967296) },
}

/// A waiter that announced its sleep after it had read its wake word, and that is counted where a release finds it.
///
/// This is a linear token, which only an announcement makes. A thread that has it may sleep, and has to look again
/// afterwards.
pub(crate) struct Counted {
    place: usize,
    low: u32,
    ghost within: { place < 33 },
}

/// What an announcement of a sleep found.
pub(crate) enum Announced {
    AtTurn,
    Counted(Counted),
    /// The waiter is not counted, because its cell changed at that moment or can count no more sleepers.
    Not,
}

impl WakeWords {
    ghost use Rattle.fair_lock.specs.Wakes.{Finds, AddsOne};

    /// Makes the wake words of a lock at which nobody sleeps. Allocates 320 bytes.
    pub(crate) fn new(alloc: Global) -> Result<WakeWords, AllocError> {
        let (table, _) = Table::of_words(alloc, &[0; 40], &0)?;
        Ok(WakeWords { table })
    }

    /// Reads the wake word of the ticket.
    pub(crate) fn see_ticket(&self, ticket: u64) -> Seen
        ensures { result.place ≡ ticket % 32 }
    {
        self.see((ticket % TICKETS as u64) as usize)
    }

    /// Reads the wake word of the queue head.
    pub(crate) fn see_head(&self) -> Seen
        ensures { result.place ≡ 32 }
    {
        self.see(HEAD)
    }

    fn see(&self, place: usize) -> Seen
        requires { place < 33 }
        ensures { result.place ≡ place }
    {
        let (found, step) = self.look(place);
        let low = (found % (1 << 32)) as u32;
        Seen { place, low, step }
    }

    fn look(&self, place: usize) -> (u64, WordSeat)
        requires { place < 33 }
        ensures table { result.1.table_id ≡ self.now.table.shared.table_id }
        ensures found { Finds place result.0 result.1 }
    {
        self.table.shared.load_new_seat::<Read>(place)
    }

    /// Sleeps while the wake word is what the waiter read before it announced its sleep. The call may return early.
    /// Blocks.
    pub(crate) fn park<R: Wait>(&self, rt: &R, counted: &Counted) {
        self.sleep_at(rt, counted.place, counted.low, counted);
    }

    /// Sleeps in the same way, but for no longer than the rest of the span.
    pub(crate) fn park_timeout<R: Wait>(&self, rt: &R, counted: &Counted, rest: &Rest) {
        self.sleep_at_within(rt, counted.place, counted.low, counted, rest.left(), rest);
    }

    /// Lets the kernel put the thread to sleep at the place, while the low half of the word there is `low`.
    fn sleep_at<R: Wait>(&self, rt: &R, place: usize, low: u32, counted: &Counted)
        requires place { place ≡ counted.now.place }
        requires low { low ≡ counted.now.low }
    {
        let _ = counted;
        self.table.shared.park(rt, place, low);
    }

    /// Does the same, but for no longer than `at_most`.
    fn sleep_at_within<R: Wait>(
        &self,
        rt: &R,
        place: usize,
        low: u32,
        counted: &Counted,
        at_most: Duration,
        rest: &Rest,
    )
        requires place { place ≡ counted.now.place }
        requires low { low ≡ counted.now.low }
        requires timeout { at_most ≡ rest.now.left }
    {
        let _ = counted;
        let _ = rest;
        self.table.shared.park_timeout(rt, place, low, at_most);
    }

    /// Wakes all threads that sleep at the place. It first changes the word there, so that no other thread goes to
    /// sleep there.
    #[cold]
    pub(crate) fn wake_all(&self, place: usize) -> WordSeat
        requires { place < 33 }
        ensures { AddsOne place result }
    {
        let step = self.change(place);
        self.wake_sleepers(place, &step);
        step
    }

    /// Adds one to the word of the place.
    fn change(&self, place: usize) -> WordSeat
        requires { place < 33 }
        ensures { AddsOne place result }
    {
        let (_, mut step) = self.look(place);
        self.table.shared.fetch_add::<Add>(&mut step, place, 1);
        step
    }

    /// Lets the kernel wake all threads that sleep at the place, whose word has changed.
    fn wake_sleepers(&self, place: usize, changed: &WordSeat)
        requires place { place < 33 }
        requires changed { AddsOne place changed.now }
    {
        let _ = changed;
        self.table.shared.wake_all(place);
    }
}

impl Seen {
    ghost use Rattle.fair_lock.specs.Wakes.{IfAnnouncedAtTurn, IfAnnounced, IfNotAnnounced, IfCounted, IsAtWordOf};

    /// Announces the sleep of a waiter that has read the wake word of its ticket.
    pub(crate) fn announce<T>(
        self,
        table: &SharedValue<T>,
        seat: &mut ValueSeat<T>,
        ticket: u64,
    ) -> Announced
        requires table { HasLockWords table.now.table_id }
        requires place { self.place ≡ ticket % 32 }
        requires seat { IsSeatOf table.now.table_id table.now.key seat.old }
        requires queued { InTime seat.old (IsQueued ticket) }
        ensures seat { IsSeatOf table.now.table_id table.now.key seat.new }
        ensures load { LoadGrows seat.old seat.new }
        ensures stays { SameInside (view_of seat.old) (view_of seat.new) }
        ensures at_turn { IfAnnouncedAtTurn result (InTime seat.new (IsAtTurn ticket)) }
        ensures overtaken { IfAnnouncedAtTurn result (InTime seat.new IsOvertakenInBounds) }
        ensures counted { IfAnnounced result (InTime seat.new (IsAsleep ticket)) }
        ensures word { IfCounted result (IsAtWordOf self) }
        ensures place { IfCounted result (λ counted. counted.place ≡ ticket % 32) }
        ensures queued { IfNotAnnounced result (InTime seat.new (IsQueued ticket)) }
        ensures not_yet { IfNotAnnounced result (FoundWaiting ticket seat.new) }
        ensures no_place { IfNotAnnounced result (FoundNoPlace ticket seat.new) }
    {
        let Seen {
            place,
            low,
            step: _,
        } = self;
        match announce_sleep(table, seat, ticket) {
            SleepResult::AtTurn => Announced::AtTurn,
            SleepResult::Asleep { rounds: _, cell: _ } => {
                Announced::Counted(Counted { place, low })
            }
            SleepResult::Full { rounds: _ } | SleepResult::Changed { rounds: _ } => Announced::Not,
        }
    }

    /// Announces the sleep of the queue head, which has requested a handoff and read its wake word. A step of this call
    /// notes the sleep that the call answers.
    pub(crate) fn announce_head<T>(
        self,
        table: &SharedValue<T>,
        seat: &mut ValueSeat<T>,
    ) -> Option<Counted>
        requires table { HasLockWords table.now.table_id }
        requires place { self.place ≡ 32 }
        requires seat { IsSeatOf table.now.table_id table.now.key seat.old }
        requires requested { Leaves lock_word_at (λ n. handoff_of n ≡ 1) seat.old }
        ensures seat { IsSeatOf table.now.table_id table.now.key seat.new }
        ensures load { LoadGrows seat.old seat.new }
        ensures kept { Kept (view_of seat.old) (view_of seat.new) }
        ensures asleep { IfSome result (λ _. SleepsAtLockWord (view_of seat.new)) }
        ensures in_take { IfSome result (λ _. InTimeFrom seat.old seat.new SleepsInTake) }
        ensures steps { IfSome result (λ _. StepsLater 2 seat.old seat.new) }
        ensures noted { IfSome result (λ _. Changes lock_word_at IsNotedAsleep seat.new) }
        ensures word { IfSome result (IsAtWordOf self) }
        ensures place { IfSome result (λ counted. counted.place ≡ 32) }
        ensures not_held { IfNone result (FoundNotHeld seat.new) }
    {
        let Seen {
            place,
            low,
            step: _,
        } = self;
        match announce_head_sleep(table, seat) {
            HeadSleepResult::Asleep { lock_word: _ } => Some(Counted { place, low }),
            HeadSleepResult::NotHeld | HeadSleepResult::Changed => None,
        }
    }
}

impl Counted {
    /// Takes back the count of a waiter. Returns the same as `poll`.
    pub(crate) fn retract<T>(
        self,
        table: &SharedValue<T>,
        seat: &mut ValueSeat<T>,
        ticket: u64,
    ) -> u64
        requires table { HasLockWords table.now.table_id }
        requires seat { IsSeatOf table.now.table_id table.now.key seat.old }
        requires asleep { InTime seat.old (IsAsleep ticket) }
        ensures seat { IsSeatOf table.now.table_id table.now.key seat.new }
        ensures load { LoadGrows seat.old seat.new }
        ensures stays { SameInside (view_of seat.old) (view_of seat.new) }
        ensures at_turn { result ≡ 0 → InTime seat.new (IsAtTurn ticket) }
        ensures overtaken { result ≡ 0 → InTime seat.new IsOvertakenInBounds }
        ensures queued { 0 < result → InTime seat.new (IsQueuedWithin result ticket) }
        ensures found { Found (cell_at ticket) (λ n. to_go n ticket ≡ result) seat.new }
    {
        let Counted { place: _, low: _ } = self;
        retract_sleep(table, seat, ticket)
    }

    /// Ends a sleep of the queue head, which then looks at the lock word again. The thread that leaves the lock word
    /// clears the note of the sleep there.
    pub(crate) fn woken(self) {
        let Counted { place: _, low: _ } = self;
    }
}
