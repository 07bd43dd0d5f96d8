//! Exports the calls on the proved core of a lock to C. Many threads may share a lock. `c/src/core.h` declares the
//! exported functions.
//!
//! C code refers to a lock by a reference, which may be copied. It represents a request by a ticket, which belongs to
//! one caller. The header core.h also lists what the C code must guarantee.
ghost use Rattle.std.specs.Prelude.{◌≡◌, ◌≢◌, true};
ghost use Rattle.lock_core.specs.Views.{SameRequest};
ghost use Rattle.qolb_locks.specs.declared.answer.Answer.{Answer};
ghost use Rattle.qolb_locks.specs.declared.ticket.State.{State};
ghost use Rattle.qolb_locks.specs.Calls.{Opens, IsMisuse, OnlyState, OnlyRequest, OnlyRounds, OnlySleep, OnlyGrant, OnlyLockWord, OnlyEntry, OnlyExit, StepsUpTo, StepsFirst, Learns, IfDrawn, IfGranted, IsBehind, Looks, DrawsAndChecks, Tries, DrawsNear, AnnouncesSleep, Withdraws, Releases, IsAtStrictTurn, ChecksOpen, Barges, IsHead, TakesAsHead, Leaves, RequestsHandoff, SleepsAsHead, IsServed, Shuts, IsToldShut, Reopens};
ghost use Rattle.qolb_locks.specs.Tickets.{IsBarging, Is, IsFree, IsKnown, IsNew, IsStrict, IsWithin};
ghost use Rattle.qolb_locks.specs.Exports.{number_of, Of, Answers};

use crate::answer::Answer;
use crate::lock_ref::LockRef;
use crate::ticket::Ticket;
use std::alloc::Global;

/// Returns the number that represents an answer in C code.
#[inline(always)]
fn number(answer: Answer) -> u32
    ensures { result ≡ number_of answer }
{
    answer as u32
}

/// Opens a lock with a barging limit. A limit of at most 1 makes a strict lock.
///
/// `label` tells a ticket of this lock from a ticket of another lock.
#[unsafe(no_mangle)]
pub extern "C" fn qolb_core_open_proved_(
    alloc: Global,
    barging_limit: u64,
    label: u64,
    out: &mut LockRef,
) -> u32
    ensures { (a : Answer) × (result ≡ number_of a) × Opens barging_limit label out.new.lock a
        × (a ≢ Answer.Done → out.new ≡ out.old) }
{
    number(crate::open(alloc, barging_limit, label, out))
}

/// Requests the lock: draws a ticket, and polls once. Many threads may call this with one lock at the same time.
#[unsafe(no_mangle)]
pub extern "C" fn qolb_core_draw_proved_(lock: &LockRef, ticket: &mut Ticket) -> u32
    requires { Of lock.now.lock (λ l. IsKnown l ticket.old) }
    ensures known { Of lock.now.lock (λ l. IsKnown l ticket.new) }
    ensures misuse { Answers lock.now.lock result
        (λ l a. ¬ IsFree ticket.old → IsMisuse ticket.old ticket.new a) }
    ensures does { Answers lock.now.lock result (λ l a. IsFree ticket.old → Looks l ticket.new a) }
    ensures after { Answers lock.now.lock result
        (λ l a. Is State.Free l ticket.old → Learns ticket.old ticket.new IsBehind) }
    ensures steps { Of lock.now.lock (λ l. Is State.Free l ticket.old
        → StepsUpTo 2 ticket.old ticket.new) }
    ensures first { Of lock.now.lock (λ l. IsNew l ticket.old → StepsFirst 3 ticket.new) }
    ensures kept { Answers lock.now.lock result (λ l a. OnlyRequest ticket.old ticket.new a) }
{
    number(crate::draw(lock.get(), ticket))
}

/// Requests a strict lock and polls once. If the ticket's turn has come, checks whether the lock is open.
#[unsafe(no_mangle)]
pub extern "C" fn qolb_core_draw_and_check_proved_(lock: &LockRef, ticket: &mut Ticket) -> u32
    requires { Of lock.now.lock (λ l. IsKnown l ticket.old) }
    ensures known { Of lock.now.lock (λ l. IsKnown l ticket.new) }
    ensures barging { Answers lock.now.lock result
        (λ l a. ¬ IsStrict l → IsMisuse ticket.old ticket.new a) }
    ensures misuse { Answers lock.now.lock result
        (λ l a. ¬ IsFree ticket.old → IsMisuse ticket.old ticket.new a) }
    ensures does { Answers lock.now.lock result
        (λ l a. IsStrict l → IsFree ticket.old → DrawsAndChecks l ticket.new a) }
    ensures after { Answers lock.now.lock result
        (λ l a. IsStrict l → Is State.Free l ticket.old →
        Learns ticket.old ticket.new IsBehind) }
    ensures steps { Of lock.now.lock (λ l. IsStrict l → Is State.Free l ticket.old
        → StepsUpTo 3 ticket.old ticket.new) }
    ensures first { Of lock.now.lock (λ l. IsStrict l → IsNew l ticket.old
        → StepsFirst 4 ticket.new) }
    ensures kept { Answers lock.now.lock result (λ l a. OnlyRequest ticket.old ticket.new a) }
{
    number(crate::draw_and_check(lock.get(), ticket))
}

/// Requests the lock if the request could be withdrawn. If the call does not request the lock, it leaves nothing
/// behind.
#[unsafe(no_mangle)]
pub extern "C" fn qolb_core_draw_near_proved_(lock: &LockRef, ticket: &mut Ticket) -> u32
    requires { Of lock.now.lock (λ l. IsKnown l ticket.old) }
    ensures known { Of lock.now.lock (λ l. IsKnown l ticket.new) }
    ensures misuse { Answers lock.now.lock result
        (λ l a. ¬ IsFree ticket.old → IsMisuse ticket.old ticket.new a) }
    ensures does { Answers lock.now.lock result
        (λ l a. IsFree ticket.old → DrawsNear l ticket.new a) }
    ensures after { Answers lock.now.lock result
        (λ l a. Is State.Free l ticket.old → IfDrawn a (Learns ticket.old ticket.new IsBehind)) }
    ensures steps { Of lock.now.lock (λ l. Is State.Free l ticket.old
        → StepsUpTo 3 ticket.old ticket.new) }
    ensures first { Of lock.now.lock (λ l. IsNew l ticket.old → StepsFirst 4 ticket.new) }
    ensures kept { Answers lock.now.lock result (λ l a. OnlyRequest ticket.old ticket.new a) }
{
    number(crate::draw_near(lock.get(), ticket))
}

/// Requests the lock if no caller has it and none waits. If the call does not request the lock, it leaves nothing
/// behind.
#[unsafe(no_mangle)]
pub extern "C" fn qolb_core_try_draw_proved_(lock: &LockRef, ticket: &mut Ticket) -> u32
    requires { Of lock.now.lock (λ l. IsKnown l ticket.old) }
    ensures known { Of lock.now.lock (λ l. IsKnown l ticket.new) }
    ensures misuse { Answers lock.now.lock result
        (λ l a. ¬ IsFree ticket.old → IsMisuse ticket.old ticket.new a) }
    ensures does { Answers lock.now.lock result (λ l a. IsFree ticket.old → Tries l ticket.new a) }
    ensures after { Answers lock.now.lock result
        (λ l a. Is State.Free l ticket.old → IfDrawn a (Learns ticket.old ticket.new IsBehind)) }
    ensures steps { Of lock.now.lock (λ l. Is State.Free l ticket.old
        → StepsUpTo 3 ticket.old ticket.new) }
    ensures first { Of lock.now.lock (λ l. IsNew l ticket.old → StepsFirst 4 ticket.new) }
    ensures kept { Answers lock.now.lock result (λ l a. OnlyRequest ticket.old ticket.new a) }
{
    number(crate::try_draw(lock.get(), ticket))
}

/// Polls whether the turn of the request has come.
#[unsafe(no_mangle)]
pub extern "C" fn qolb_core_poll_proved_(lock: &LockRef, ticket: &mut Ticket) -> u32
    requires { Of lock.now.lock (λ l. IsKnown l ticket.old) }
    ensures known { Of lock.now.lock (λ l. IsKnown l ticket.new) }
    ensures misuse { Answers lock.now.lock result
        (λ l a. ¬ Is State.Waiting l ticket.old → IsMisuse ticket.old ticket.new a) }
    ensures does { Answers lock.now.lock result
        (λ l a. Is State.Waiting l ticket.old → Looks l ticket.new a) }
    ensures same { Answers lock.now.lock result
        (λ l a. Is State.Waiting l ticket.old → Learns ticket.old ticket.new SameRequest) }
    ensures steps { Of lock.now.lock (λ l. Is State.Waiting l ticket.old
        → StepsUpTo 1 ticket.old ticket.new) }
    ensures kept { Answers lock.now.lock result (λ l a. OnlyRounds ticket.old ticket.new a) }
{
    number(crate::poll(lock.get(), ticket))
}

/// Counts the waiter as a sleeper of its cell, unless the waiter's turn has come.
///
/// The ticket then has the word at which the waiter may sleep.
#[unsafe(no_mangle)]
pub extern "C" fn qolb_core_announce_sleep_proved_(lock: &LockRef, ticket: &mut Ticket) -> u32
    requires { Of lock.now.lock (λ l. IsKnown l ticket.old) }
    ensures known { Of lock.now.lock (λ l. IsKnown l ticket.new) }
    ensures misuse { Answers lock.now.lock result
        (λ l a. ¬ Is State.Waiting l ticket.old → IsMisuse ticket.old ticket.new a) }
    ensures does { Answers lock.now.lock result
        (λ l a. Is State.Waiting l ticket.old → AnnouncesSleep l ticket.new a) }
    ensures same { Answers lock.now.lock result
        (λ l a. Is State.Waiting l ticket.old → Learns ticket.old ticket.new SameRequest) }
    ensures steps { Of lock.now.lock (λ l. Is State.Waiting l ticket.old
        → StepsUpTo 2 ticket.old ticket.new) }
    ensures kept { Answers lock.now.lock result (λ l a. OnlySleep ticket.old ticket.new a) }
{
    number(crate::announce_sleep(lock.get(), ticket))
}

/// Stops counting the waiter as a sleeper.
#[unsafe(no_mangle)]
pub extern "C" fn qolb_core_retract_sleep_proved_(lock: &LockRef, ticket: &mut Ticket) -> u32
    requires { Of lock.now.lock (λ l. IsKnown l ticket.old) }
    ensures known { Of lock.now.lock (λ l. IsKnown l ticket.new) }
    ensures misuse { Answers lock.now.lock result
        (λ l a. ¬ Is State.Asleep l ticket.old → IsMisuse ticket.old ticket.new a) }
    ensures does { Answers lock.now.lock result
        (λ l a. Is State.Asleep l ticket.old → Looks l ticket.new a) }
    ensures same { Answers lock.now.lock result
        (λ l a. Is State.Asleep l ticket.old → Learns ticket.old ticket.new SameRequest) }
    ensures steps { Of lock.now.lock (λ l. Is State.Asleep l ticket.old
        → StepsUpTo 1 ticket.old ticket.new) }
    ensures kept { Answers lock.now.lock result (λ l a. OnlyRounds ticket.old ticket.new a) }
{
    number(crate::retract_sleep(lock.get(), ticket))
}

/// Withdraws a request that was within the window of withdrawal when its caller last looked.
#[unsafe(no_mangle)]
pub extern "C" fn qolb_core_withdraw_proved_(lock: &LockRef, ticket: &mut Ticket) -> u32
    requires { Of lock.now.lock (λ l. IsKnown l ticket.old) }
    ensures known { Of lock.now.lock (λ l. IsKnown l ticket.new) }
    ensures misuse { Answers lock.now.lock result
        (λ l a. ¬ Is State.Waiting l ticket.old → IsMisuse ticket.old ticket.new a) }
    ensures does { Answers lock.now.lock result
        (λ l a. Is State.Waiting l ticket.old → Withdraws l ticket.old ticket.new a) }
    ensures same { Answers lock.now.lock result (λ l a. Is State.Waiting l ticket.old
        → IfGranted a (Learns ticket.old ticket.new SameRequest)) }
    ensures steps { Of lock.now.lock (λ l. Is State.Waiting l ticket.old
        → StepsUpTo 2 ticket.old ticket.new) }
    ensures kept { OnlyState ticket.old ticket.new }
{
    number(crate::withdraw(lock.get(), ticket))
}

/// Ends a turn of the queue, and grants the next ticket. A queue head that is inside stays inside.
#[unsafe(no_mangle)]
pub extern "C" fn qolb_core_release_proved_(lock: &LockRef, ticket: &mut Ticket) -> u32
    requires { Of lock.now.lock (λ l. IsKnown l ticket.old) }
    ensures known { Of lock.now.lock (λ l. IsKnown l ticket.new) }
    ensures misuse { Answers lock.now.lock result
        (λ l a. ¬ IsWithin 3 8 l ticket.old → IsMisuse ticket.old ticket.new a) }
    ensures does { Answers lock.now.lock result
        (λ l a. IsWithin 3 8 l ticket.old → Releases l ticket.old ticket.new a) }
    ensures steps { Of lock.now.lock (λ l. IsWithin 3 8 l ticket.old
        → StepsUpTo 128 ticket.old ticket.new) }
    ensures kept { Answers lock.now.lock result (λ l a. OnlyGrant ticket.old ticket.new a) }
{
    number(crate::release(lock.get(), ticket))
}

/// Checks whether a strict lock is open, for a ticket whose turn has come. The caller is served only if the lock is
/// open.
#[unsafe(no_mangle)]
pub extern "C" fn qolb_core_check_open_proved_(lock: &LockRef, ticket: &mut Ticket) -> u32
    requires { Of lock.now.lock (λ l. IsKnown l ticket.old) }
    ensures known { Of lock.now.lock (λ l. IsKnown l ticket.new) }
    ensures misuse { Answers lock.now.lock result
        (λ l a. ¬ IsAtStrictTurn l ticket.old → IsMisuse ticket.old ticket.new a) }
    ensures does { Answers lock.now.lock result
        (λ l a. IsAtStrictTurn l ticket.old → ChecksOpen l ticket.new a) }
    ensures steps { Of lock.now.lock (λ l. IsAtStrictTurn l ticket.old
        → StepsUpTo 1 ticket.old ticket.new) }
    ensures kept { OnlyState ticket.old ticket.new }
{
    number(crate::check_open(lock.get(), ticket))
}

/// Takes the lock word without waiting, if the word has the value that the ticket guesses, is free for barging threads,
/// and says that the lock is open.
///
/// Otherwise the ticket then contains the value that the call found in the word.
#[unsafe(no_mangle)]
pub extern "C" fn qolb_core_barge_proved_(lock: &LockRef, ticket: &mut Ticket) -> u32
    requires { Of lock.now.lock (λ l. IsKnown l ticket.old) }
    ensures known { Of lock.now.lock (λ l. IsKnown l ticket.new) }
    ensures strict { Answers lock.now.lock result
        (λ l a. ¬ IsBarging l → IsMisuse ticket.old ticket.new a) }
    ensures misuse { Answers lock.now.lock result
        (λ l a. ¬ IsFree ticket.old → IsMisuse ticket.old ticket.new a) }
    ensures does { Answers lock.now.lock result
        (λ l a. IsBarging l → IsFree ticket.old → Barges l ticket.old.lock_word ticket.new a) }
    ensures steps { Of lock.now.lock (λ l. IsBarging l → Is State.Free l ticket.old
        → StepsUpTo 1 ticket.old ticket.new) }
    ensures first { Of lock.now.lock (λ l. IsBarging l → IsNew l ticket.old
        → StepsFirst 2 ticket.new) }
    ensures kept { OnlyEntry ticket.old ticket.new }
{
    number(crate::barge(lock.get(), ticket))
}

/// Takes the lock word for the queue head, if the word is free.
///
/// The queue head is then inside, and must release its turn of the queue.
#[unsafe(no_mangle)]
pub extern "C" fn qolb_core_take_lock_word_proved_(lock: &LockRef, ticket: &mut Ticket) -> u32
    requires { Of lock.now.lock (λ l. IsKnown l ticket.old) }
    ensures known { Of lock.now.lock (λ l. IsKnown l ticket.new) }
    ensures misuse { Answers lock.now.lock result
        (λ l a. ¬ IsHead l ticket.old → IsMisuse ticket.old ticket.new a) }
    ensures does { Answers lock.now.lock result
        (λ l a. IsHead l ticket.old → TakesAsHead l ticket.new a) }
    ensures same { Answers lock.now.lock result
        (λ l a. IsHead l ticket.old → Learns ticket.old ticket.new SameRequest) }
    ensures steps { Of lock.now.lock (λ l. IsHead l ticket.old
        → StepsUpTo 2 ticket.old ticket.new) }
    ensures kept { OnlyLockWord ticket.old ticket.new }
{
    number(crate::take_lock_word(lock.get(), ticket))
}

/// Gives the lock word back, if the word has the value that the ticket guesses.
///
/// Otherwise the ticket then contains the value that the call found in the word, and the caller must call again.
#[unsafe(no_mangle)]
pub extern "C" fn qolb_core_leave_lock_word_proved_(lock: &LockRef, ticket: &mut Ticket) -> u32
    requires { Of lock.now.lock (λ l. IsKnown l ticket.old) }
    ensures known { Of lock.now.lock (λ l. IsKnown l ticket.new) }
    ensures misuse { Answers lock.now.lock result
        (λ l a. ¬ IsWithin 9 10 l ticket.old → IsMisuse ticket.old ticket.new a) }
    ensures does { Answers lock.now.lock result
        (λ l a. IsWithin 9 10 l ticket.old → Leaves l ticket.old ticket.new a) }
    ensures steps { Of lock.now.lock (λ l. IsWithin 9 10 l ticket.old
        → StepsUpTo 1 ticket.old ticket.new) }
    ensures kept { Answers lock.now.lock result (λ l a. OnlyExit ticket.old ticket.new a) }
{
    number(crate::leave_lock_word(lock.get(), ticket))
}

/// Requests that the thread inside leave the lock word to the queue head alone.
#[unsafe(no_mangle)]
pub extern "C" fn qolb_core_request_handoff_proved_(lock: &LockRef, ticket: &mut Ticket) -> u32
    requires { Of lock.now.lock (λ l. IsKnown l ticket.old) }
    ensures known { Of lock.now.lock (λ l. IsKnown l ticket.new) }
    ensures misuse { Answers lock.now.lock result
        (λ l a. ¬ IsHead l ticket.old → IsMisuse ticket.old ticket.new a) }
    ensures does { Answers lock.now.lock result
        (λ l a. IsHead l ticket.old → RequestsHandoff l ticket.new a) }
    ensures steps { Of lock.now.lock (λ l. IsHead l ticket.old
        → StepsUpTo 2 ticket.old ticket.new) }
    ensures kept { OnlyState ticket.old ticket.new }
{
    number(crate::request_handoff(lock.get(), ticket))
}

/// Notes in the lock word that the queue head sleeps there, if the word is held.
///
/// The ticket then has the word at which the queue head may sleep.
#[unsafe(no_mangle)]
pub extern "C" fn qolb_core_announce_head_sleep_proved_(lock: &LockRef, ticket: &mut Ticket) -> u32
    requires { Of lock.now.lock (λ l. IsKnown l ticket.old) }
    ensures known { Of lock.now.lock (λ l. IsKnown l ticket.new) }
    ensures misuse { Answers lock.now.lock result
        (λ l a. ¬ IsHead l ticket.old → IsMisuse ticket.old ticket.new a) }
    ensures does { Answers lock.now.lock result
        (λ l a. IsHead l ticket.old → SleepsAsHead l ticket.old ticket.new a) }
    ensures steps { Of lock.now.lock (λ l. IsHead l ticket.old
        → StepsUpTo 2 ticket.old ticket.new) }
    ensures kept { OnlyLockWord ticket.old ticket.new }
{
    number(crate::announce_head_sleep(lock.get(), ticket))
}

/// Shuts the lock for a ticket that is served.
#[unsafe(no_mangle)]
pub extern "C" fn qolb_core_shut_proved_(lock: &LockRef, ticket: &mut Ticket) -> u32
    requires { Of lock.now.lock (λ l. IsKnown l ticket.old) }
    ensures known { Of lock.now.lock (λ l. IsKnown l ticket.new) }
    ensures misuse { Answers lock.now.lock result
        (λ l a. ¬ IsServed l ticket.old → IsMisuse ticket.old ticket.new a) }
    ensures does { Answers lock.now.lock result
        (λ l a. IsServed l ticket.old → Shuts l ticket.old ticket.new a) }
    ensures steps { Of lock.now.lock (λ l. IsServed l ticket.old
        → StepsUpTo 1 ticket.old ticket.new) }
    ensures kept { OnlyLockWord ticket.old ticket.new }
{
    number(crate::shut(lock.get(), ticket))
}

/// Reopens the lock, if no caller drew a ticket after the given one. The caller of the given ticket must have been told
/// at its turn that the lock is shut.
#[unsafe(no_mangle)]
pub extern "C" fn qolb_core_reopen_proved_(lock: &LockRef, ticket: &mut Ticket) -> u32
    requires { Of lock.now.lock (λ l. IsKnown l ticket.old) }
    ensures known { Of lock.now.lock (λ l. IsKnown l ticket.new) }
    ensures misuse { Answers lock.now.lock result
        (λ l a. ¬ IsToldShut l ticket.old → IsMisuse ticket.old ticket.new a) }
    ensures does { Answers lock.now.lock result
        (λ l a. IsToldShut l ticket.old → Reopens l ticket.old ticket.new a) }
    ensures steps { Of lock.now.lock (λ l. IsToldShut l ticket.old
        → StepsUpTo 2 ticket.old ticket.new) }
    ensures kept { OnlyLockWord ticket.old ticket.new }
{
    number(crate::reopen(lock.get(), ticket))
}
