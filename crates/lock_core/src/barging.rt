//! Barging: a thread takes the lock word without a ticket, and thereby overtakes the queue.
//!
//! A thread that barges is called a *newcomer*. The lock word counts the newcomers, and the barging limit bounds the
//! number of newcomers between two consecutive queue heads.
ghost use Rattle.std.specs.Prelude.{◌≡◌, ◌≢◌, ◌+◌, ◌/◌, ◌%◌, ◌<◌, ◌≤◌, ◌⊎◌, true, false};
ghost use Rattle.lock_core.specs.Layout.{HasLockWords, lock_word_at};
ghost use Rattle.lock_core.specs.Views.{InTime, InTimeFrom, LoadGrows, IsSeatOf, IsIdle, IsInside, IsNewcomer, BargesAfter, ServedOpen, SameInside};
ghost use Rattle.lock_core.specs.Looks.{StepsLater, LooksOnce, Found, Changes, IsHeldByNewcomer, IsNoEntry, FoundNotFree};
ghost use Rattle.lock_core.specs.Answers.{IfIn, IfNotIn};

use crate::invariant::{SharedValue, ValueSeat};
use crate::layout::{HELD, LOCK_WORD, NEWCOMER};
use crate::plays::{Barge, ReadLockWord};

/// What `barge_if` found and did.
#[derive(Clone, Copy, Debug, PartialEq, Eq)]
pub enum BargeResult {
    /// The thread holds the lock word, as a newcomer.
    Inside,
    /// The thread does not hold the lock word. Its step found this value in the lock word.
    Outside { lock_word: u64 },
}

/// Whether no thread may barge at this value of the lock word, because the word is held, reserved, or shut.
#[inline(always)]
pub(crate) fn is_no_entry(lock_word: u64) -> bool
    ensures no_entry { result ≡ true → IsNoEntry lock_word }
    ensures free { result ≡ false → lock_word / 4 % 8 ≡ 0 }
{
    lock_word / HELD % 8 != 0
}

/// Takes the lock word without a ticket if the word is `expected`, a value at which a thread may barge. Returns the
/// value that the step found. One atomic step.
#[inline(always)]
fn barge_from<T>(table: &SharedValue<T>, seat: &mut ValueSeat<T>, expected: u64) -> u64
    requires table { HasLockWords table.now.table_id }
    requires barging { 2 ≤ table.now.key }
    requires free { expected / 4 % 8 ≡ 0 }
    requires seat { IsSeatOf table.now.table_id table.now.key seat.old }
    requires idle { InTime seat.old IsIdle }
    ensures seat { IsSeatOf table.now.table_id table.now.key seat.new }
    ensures load { LoadGrows seat.old seat.new }
    ensures steps { LooksOnce seat.old seat.new }
    ensures found { Found lock_word_at (λ n. n ≡ result) seat.new }
    ensures inside { result ≡ expected → InTime seat.new IsInside }
    ensures open { result ≡ expected → InTime seat.new ServedOpen }
    ensures newcomer { result ≡ expected → InTime seat.new IsNewcomer }
    ensures order { result ≡ expected → InTimeFrom seat.old seat.new BargesAfter }
    ensures held { result ≡ expected → Changes lock_word_at IsHeldByNewcomer seat.new }
    ensures idle { result ≢ expected → InTime seat.new IsIdle }
    ensures stays { result ≢ expected → InTimeFrom seat.old seat.new SameInside }
{
    let held = expected.wrapping_add(HELD + NEWCOMER);
    table.compare_exchange::<Barge>(seat, LOCK_WORD, expected, held)
}

/// Takes the lock word without a ticket if the word is `expected`, free for barging threads, and open. One atomic step.
#[inline(always)]
pub fn barge_if<T>(table: &SharedValue<T>, seat: &mut ValueSeat<T>, expected: u64) -> BargeResult
    requires table { HasLockWords table.now.table_id }
    requires barging { 2 ≤ table.now.key }
    requires seat { IsSeatOf table.now.table_id table.now.key seat.old }
    requires idle { InTime seat.old IsIdle }
    ensures seat { IsSeatOf table.now.table_id table.now.key seat.new }
    ensures load { LoadGrows seat.old seat.new }
    ensures steps { LooksOnce seat.old seat.new }
    ensures inside { IfIn result (InTime seat.new IsInside) }
    ensures open { IfIn result (InTime seat.new ServedOpen) }
    ensures newcomer { IfIn result (InTime seat.new IsNewcomer) }
    ensures order { IfIn result (InTimeFrom seat.old seat.new BargesAfter) }
    ensures held { IfIn result (Changes lock_word_at IsHeldByNewcomer seat.new) }
    ensures as_found { IfIn result (Found lock_word_at (λ n. n ≡ expected) seat.new) }
    ensures idle { IfNotIn result (λ _. InTime seat.new IsIdle) }
    ensures stays { IfNotIn result (λ _. InTimeFrom seat.old seat.new SameInside) }
    ensures found { IfNotIn result (λ lock_word. Found lock_word_at (λ n. n ≡ lock_word) seat.new) }
    ensures no_entry { IfNotIn result (λ lock_word. IsNoEntry expected ⊎ (lock_word ≢ expected)) }
{
    if is_no_entry(expected) {
        let lock_word = table.load::<ReadLockWord>(seat, LOCK_WORD);
        return BargeResult::Outside { lock_word };
    }
    let lock_word = barge_from(table, seat, expected);
    if lock_word != expected {
        return BargeResult::Outside { lock_word };
    }
    BargeResult::Inside
}

/// Takes the lock word without a ticket if the word is free for barging threads and open. At most two atomic steps.
/// Returns whether the thread holds the lock word.
#[inline(always)]
pub fn barge<T>(table: &SharedValue<T>, seat: &mut ValueSeat<T>) -> bool
    requires table { HasLockWords table.now.table_id }
    requires barging { 2 ≤ table.now.key }
    requires seat { IsSeatOf table.now.table_id table.now.key seat.old }
    requires idle { InTime seat.old IsIdle }
    ensures seat { IsSeatOf table.now.table_id table.now.key seat.new }
    ensures load { LoadGrows seat.old seat.new }
    ensures steps { result ≡ true → StepsLater 2 seat.old seat.new }
    ensures inside { result ≡ true → InTime seat.new IsInside }
    ensures open { result ≡ true → InTime seat.new ServedOpen }
    ensures newcomer { result ≡ true → InTime seat.new IsNewcomer }
    ensures order { result ≡ true → InTimeFrom seat.old seat.new BargesAfter }
    ensures held { result ≡ true → Changes lock_word_at IsHeldByNewcomer seat.new }
    ensures idle { result ≡ false → InTime seat.new IsIdle }
    ensures stays { result ≡ false → InTimeFrom seat.old seat.new SameInside }
    ensures not_in { result ≡ false → FoundNotFree seat.old seat.new }
{
    let lock_word = table.load::<ReadLockWord>(seat, LOCK_WORD);
    if is_no_entry(lock_word) {
        return false;
    }
    barge_from(table, seat, lock_word) == lock_word
}
