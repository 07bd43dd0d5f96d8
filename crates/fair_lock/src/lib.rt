//! A fair lock that protects a value. Any number of threads may use the lock, and they may start and end at any time. A
//! strict lock serves threads in the order of their requests. A barging lock lets newly arriving threads overtake the
//! queue, but only a bounded number of times.
//!
//! The crate adds waiting and waking to `lock_core`, which provides the lock's atomic steps. The table that contains
//! the lock's atomic words also has a slot, which stores the value. A thread calls `enter`, `try_enter` or
//! `enter_within`. If the thread gets the lock, the call returns a guard through which the thread uses the value.
#![tactic(auto)]

mod drawing;
mod entering;
mod entering_within;
mod found;
mod guard;
mod head;
mod lock;
mod outcomes;
mod policy;
mod reading;
mod releasing;
mod span;
mod waiting;
mod wake;
mod watch;

pub use guard::Guard;
pub use lock::{FairLock, NewError};
pub use lock_core::{LockKind, OpenError};
pub use outcomes::{Busy, Closed, EnterError, Left, TimedOut, TryEnterError};
