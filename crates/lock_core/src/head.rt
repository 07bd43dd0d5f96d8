//! The calls of the queue head, which is the first waiter in the queue of a barging lock. The queue head reads the lock
//! word, takes the word, requests a handoff, or announces that it will sleep on the word.
//!
//! A thread that leaves the lock word reserves the word for the queue head if the queue head has requested a handoff,
//! or if the barging limit is reached.
ghost use Rattle.std.specs.Prelude.{◌≡◌, ◌≢◌, ◌+◌, ◌/◌, ◌%◌, ◌<◌, ◌≤◌, ◌⊎◌, true, false};
ghost use Rattle.lock_core.specs.Layout.{HasLockWords, lock_word_at, state_of, handoff_of, asleep_of};
ghost use Rattle.lock_core.specs.Views.{view_of, InTime, InTimeFrom, LoadGrows, IsSeatOf, IsAtTurn, IsOvertakenInBounds, IsHeadInside, TakesLockWord, SleepsAtLockWord, ServedOpen, ServedShut, KnowsShut, Kept, SameRequest, SameNewcomer, SameKnown, SameSleepAtLockWord, IsLaterEpoch, SleepsInTake, SameDoor, SameInside, OnlyLooks};
ghost use Rattle.lock_core.specs.Looks.{StepsLater, Found, Changes, IsSeenHeld, IsSeenFree, IsForHead, IsRequested, IsNotedAsleep, FoundChanged, Leaves, IsHeldAnew};
ghost use Rattle.lock_core.specs.Answers.{IfSeenHeld, IfSeenFree, IfSeenForHead, IfTakenOpen, IfTakenShut, IfTaken, IfNotTaken, IfHeld, IfTakeChanged, IfHeadAsleep, IfNotHeld, IfHeadChanged};

use crate::barging::is_no_entry;
use crate::invariant::{SharedValue, ValueSeat};
use crate::layout::{HANDOFF, HEAD_ASLEEP, HELD, LOCK_WORD, NEWCOMER, SHUT, is_shut, state};
use crate::plays::{AnnounceHeadSleep, ReadLockWord, RequestHandoff, TakeLockWord};

/// What the lock word says to the queue head.
#[derive(Clone, Copy, Debug, PartialEq, Eq)]
pub enum LockWordState {
    /// A thread holds the lock. `newcomers` threads have barged since a queue head last took the lock word, and
    /// `requested` says whether the queue head has requested a handoff.
    Held { newcomers: u64, requested: bool },
    /// The lock is free, and any thread may take it. `newcomers` is as above.
    Free { newcomers: u64 },
    /// The lock is free for the queue head alone: the lock word is reserved for it, or the lock is shut.
    ForHead,
}

/// What the queue head found when it tried to take the lock word.
#[derive(Clone, Copy, Debug, PartialEq, Eq)]
pub enum TakeResult {
    /// The queue head has taken the word of an open lock: it holds the lock.
    Open,
    /// The queue head has taken the word of a lock that is shut, and must leave the word.
    Shut,
    /// Another thread holds the lock. `lock_word` is the word that the step found.
    Held { lock_word: u64 },
    /// Another thread changed the lock word at that moment. `lock_word` is the new word.
    Changed { lock_word: u64 },
}

/// What `announce_head_sleep` did.
#[derive(Clone, Copy, Debug, PartialEq, Eq)]
pub enum HeadSleepResult {
    /// The queue head may sleep while the lower 32 bits of the lock word are those of `lock_word`. The thread that
    /// leaves the word is told of the sleep.
    Asleep { lock_word: u64 },
    /// The lock is free: the queue head may take the lock word.
    NotHeld,
    /// Another thread changed the lock word at that moment, so the queue head must look again.
    Changed,
}

/// Reads the lock word. One atomic step, which changes nothing.
#[inline(always)]
pub fn read_lock_word<T>(table: &SharedValue<T>, seat: &mut ValueSeat<T>) -> LockWordState
    requires table { HasLockWords table.now.table_id }
    requires seat { IsSeatOf table.now.table_id table.now.key seat.old }
    ensures seat { IsSeatOf table.now.table_id table.now.key seat.new }
    ensures same { OnlyLooks (view_of seat.old) (view_of seat.new) }
    ensures steps { StepsLater 1 seat.old seat.new }
    ensures held { IfSeenHeld result (λ newcomers requested.
        Found lock_word_at (IsSeenHeld newcomers requested) seat.new) }
    ensures free { IfSeenFree result (λ newcomers.
        Found lock_word_at (IsSeenFree newcomers) seat.new) }
    ensures for_head { IfSeenForHead result (Found lock_word_at IsForHead seat.new) }
{
    let lock_word = table.load::<ReadLockWord>(seat, LOCK_WORD);
    let newcomers = lock_word / NEWCOMER;
    let is_held = state(lock_word) == 1;
    if is_held {
        LockWordState::Held {
            newcomers,
            requested: lock_word % 2 == 1,
        }
    } else if is_no_entry(lock_word) {
        LockWordState::ForHead
    } else {
        LockWordState::Free { newcomers }
    }
}

/// Takes the lock word for the queue head, if it is free or reserved, and resets the count of newcomers. At most two
/// atomic steps. Once the queue head holds the word, it passes its turn of the queue on with `release`.
#[inline(always)]
pub fn take_lock_word<T>(table: &SharedValue<T>, seat: &mut ValueSeat<T>, ticket: u64) -> TakeResult
    requires table { HasLockWords table.now.table_id }
    requires barging { 2 ≤ table.now.key }
    requires seat { IsSeatOf table.now.table_id table.now.key seat.old }
    requires at_turn { InTime seat.old (IsAtTurn ticket) }
    ensures seat { IsSeatOf table.now.table_id table.now.key seat.new }
    ensures load { LoadGrows seat.old seat.new }
    ensures turn { SameNewcomer (view_of seat.old) (view_of seat.new) }
    ensures request { InTimeFrom seat.old seat.new SameRequest }
    ensures inside { IfTaken result (InTime seat.new (IsHeadInside ticket)) }
    ensures overtaken { IfTaken result (InTime seat.new IsOvertakenInBounds) }
    ensures order { IfTaken result (InTimeFrom seat.old seat.new TakesLockWord) }
    ensures epoch { IfTaken result (InTimeFrom seat.old seat.new IsLaterEpoch) }
    ensures steps { IfTaken result (StepsLater 2 seat.old seat.new) }
    ensures held_anew { IfTaken result (Changes lock_word_at IsHeldAnew seat.new) }
    ensures open { IfTakenOpen result (InTime seat.new ServedOpen) }
    ensures open_word { IfTakenOpen result (Leaves lock_word_at (λ n. n ≡ 4) seat.new) }
    ensures shut { IfTakenShut result (InTime seat.new ServedShut) }
    ensures shut_word { IfTakenShut result (Leaves lock_word_at (λ n. n ≡ 20) seat.new) }
    ensures knows { IfTakenShut result (InTime seat.new KnowsShut) }
    ensures at_turn { IfNotTaken result (λ _. InTime seat.new (IsAtTurn ticket)) }
    ensures sleep { IfNotTaken result (λ _. InTimeFrom seat.old seat.new SameSleepAtLockWord) }
    ensures stays { IfNotTaken result (λ _. InTimeFrom seat.old seat.new SameInside) }
    ensures found { IfNotTaken result (λ lock_word.
        Found lock_word_at (λ n. n ≡ lock_word) seat.new) }
    ensures held { IfHeld result (λ lock_word. StepsLater 1 seat.old seat.new
        × (state_of lock_word ≡ 1)) }
    ensures changed { IfTakeChanged result (StepsLater 2 seat.old seat.new
        × FoundChanged lock_word_at seat.new) }
{
    let lock_word = table.load::<ReadLockWord>(seat, LOCK_WORD);
    if state(lock_word) == 1 {
        return TakeResult::Held { lock_word };
    }
    let held = lock_word / SHUT % 2 * SHUT + HELD;
    let found = table.compare_exchange::<TakeLockWord>(seat, LOCK_WORD, lock_word, held);
    if found != lock_word {
        return TakeResult::Changed { lock_word: found };
    }
    if is_shut(lock_word) {
        TakeResult::Shut
    } else {
        TakeResult::Open
    }
}

/// Requests a handoff for the queue head, so that the thread that holds the lock word reserves the word when it leaves.
/// At most two atomic steps. `false` means that the lock word changed at that moment, so the queue head must look
/// again.
#[inline(always)]
pub fn request_handoff<T>(table: &SharedValue<T>, seat: &mut ValueSeat<T>) -> bool
    requires table { HasLockWords table.now.table_id }
    requires seat { IsSeatOf table.now.table_id table.now.key seat.old }
    ensures seat { IsSeatOf table.now.table_id table.now.key seat.new }
    ensures same { OnlyLooks (view_of seat.old) (view_of seat.new) }
    ensures steps { StepsLater 1 seat.old seat.new ⊎ StepsLater 2 seat.old seat.new }
    ensures requested { result ≡ true → Leaves lock_word_at (λ n. handoff_of n ≡ 1) seat.new }
    ensures rest { result ≡ true → Changes lock_word_at IsRequested seat.new }
    ensures once { result ≡ true → StepsLater 2 seat.old seat.new
        → Found lock_word_at (λ n. handoff_of n ≡ 0) seat.new }
    ensures changed { result ≡ false → FoundChanged lock_word_at seat.new }
{
    let lock_word = table.load::<ReadLockWord>(seat, LOCK_WORD);
    if lock_word % 2 == 1 {
        return true;
    }
    table.compare_exchange::<RequestHandoff>(seat, LOCK_WORD, lock_word, lock_word + HANDOFF)
        == lock_word
}

/// Notes in the lock word that the queue head sleeps on the word, if the word is held. At most two atomic steps. The
/// thread that leaves the word is then told of the sleep.
#[inline(always)]
pub fn announce_head_sleep<T>(table: &SharedValue<T>, seat: &mut ValueSeat<T>) -> HeadSleepResult
    requires table { HasLockWords table.now.table_id }
    requires seat { IsSeatOf table.now.table_id table.now.key seat.old }
    ensures seat { IsSeatOf table.now.table_id table.now.key seat.new }
    ensures load { LoadGrows seat.old seat.new }
    ensures kept { Kept (view_of seat.old) (view_of seat.new) }
    ensures known { SameKnown (view_of seat.old) (view_of seat.new) }
    ensures door { SameDoor (view_of seat.old) (view_of seat.new) }
    ensures asleep { IfHeadAsleep result (λ _. SleepsAtLockWord (view_of seat.new)) }
    ensures in_take { IfHeadAsleep result (λ _. InTimeFrom seat.old seat.new SleepsInTake) }
    ensures word { IfHeadAsleep result (λ lock_word. (asleep_of lock_word ≡ 1)
        × (state_of lock_word ≡ 1)
        × Leaves lock_word_at (λ n. n ≡ lock_word) seat.new) }
    ensures rest { IfHeadAsleep result (λ _. Changes lock_word_at IsNotedAsleep seat.new) }
    ensures steps { IfHeadAsleep result (λ _. StepsLater 2 seat.old seat.new) }
    ensures not_held { IfNotHeld result (StepsLater 1 seat.old seat.new
        × Found lock_word_at (λ n. state_of n ≢ 1) seat.new) }
    ensures changed { IfHeadChanged result (StepsLater 2 seat.old seat.new
        × FoundChanged lock_word_at seat.new) }
{
    let lock_word = table.load::<ReadLockWord>(seat, LOCK_WORD);
    if state(lock_word) != 1 {
        return HeadSleepResult::NotHeld;
    }
    let noted = lock_word / HELD * HELD + HEAD_ASLEEP + lock_word % 2;
    if table.compare_exchange::<AnnounceHeadSleep>(seat, LOCK_WORD, lock_word, noted) != lock_word {
        return HeadSleepResult::Changed;
    }
    HeadSleepResult::Asleep { lock_word: noted }
}
