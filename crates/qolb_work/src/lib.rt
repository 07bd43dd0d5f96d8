//! Runs worker threads that share a task board or the accounts of a bank. The tasks and the accounts are stored in
//! queued lines, which are queue locks with 64 bytes of data.
#![tactic(auto)]

mod bank;
mod board;
mod gate;
mod open;
mod progress;
mod work;
mod workers;

pub use gate::{AlwaysOpen, Gate, MAX_REFUSALS};
pub use progress::Progress;
pub use work::{RunError, WaitMode, run_work_over};
