//! Replays scripts on queued lines, which are queue locks with 64 bytes of data. A schedule is replayed on lines of any
//! kind. A step script is executed one atomic step at a time by the core of the link line, which is a state machine.
#![tactic(auto)]

mod input;
mod line;
mod plain;
mod replay;
mod steps;

pub use input::{MAX_BYTES, read_all};
pub use line::ReplayLine;
pub use replay::{ReplayError, answered_over, answered_plainly, run_schedule_over};
pub use steps::{Detail, answer_steps, run_steps, run_steps_with};
