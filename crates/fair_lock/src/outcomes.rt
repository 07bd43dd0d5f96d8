//! The outcomes of the lock's calls. They say why a thread did not get the lock, or what a thread knows after it has
//! left the lock.
ghost use Rattle.std.specs.Prelude.{◌≡◌};

use crate::found::FoundTaken;
use crate::span::Over;
use lock_core::ValueSeat;

/// The lock is shut, and serves no thread any more. This value has no bytes, and shows in proofs that the caller was
/// told that the lock is shut.
#[derive(Drop)]
pub struct Closed<T> {
    pub(crate) seat: ValueSeat<T>,
}

/// Another thread held the lock or waited for it. This value has no bytes, and shows in proofs that the call left
/// nothing behind.
#[derive(Drop)]
pub struct Busy<T> {
    pub(crate) seat: ValueSeat<T>,
    pub(crate) found: FoundTaken,
}

/// The call timed out. In a proof, this value shows that the call's own timeout was over, and that the call has left no
/// request behind.
#[derive(Drop)]
pub struct TimedOut<T> {
    pub(crate) seat: ValueSeat<T>,
    pub(crate) over: Over,
}

/// Why `try_enter` gave no guard.
#[derive(Drop)]
pub enum TryEnterError<T> {
    /// Another thread is served, or waits.
    Busy(Busy<T>),
    /// The lock is shut.
    Closed(Closed<T>),
}

/// Why `enter_within` gave no guard.
#[derive(Drop)]
pub enum EnterError<T> {
    /// The lock is shut.
    Closed(Closed<T>),
    /// The call timed out before it was served. If it had drawn a ticket, it has withdrawn its request or released its
    /// turn of the queue.
    TimedOut(TimedOut<T>),
}

/// A critical section has ended. This value has no bytes, and shows in proofs that its thread has left.
#[derive(Drop)]
pub struct Left<T> {
    pub(crate) seat: ValueSeat<T>,
}
