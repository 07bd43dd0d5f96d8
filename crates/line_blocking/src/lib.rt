//! Calls for threads that share lines. A thread can wait for a line, start scoped threads, and let ports merge what
//! they know about a line.
#![tactic(auto)]

mod meetings;
mod park_on_poll;
pub mod scoped;
mod spin;
mod strategy;
mod timed;

pub use meetings::{meet_all, meet_others};
pub use park_on_poll::ParkOnPoll;
pub use spin::{Got, acquire, wait};
pub use strategy::{WaitStrategy, wait_by};
pub use timed::{Deadline, TimedAcquire, acquire_parking, acquire_timeout, wait_timeout};
