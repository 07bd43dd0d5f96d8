//! Runs replays and work scripts on queued lines, which are queue locks with 64 bytes of data. The caller chooses the
//! kind of lines by name. The crate also re-exports the public items of `line_blocking`, `qolb_replay` and `qolb_work`.
#![tactic(auto)]

mod each_lock;
mod replay;
mod report;
mod task;
mod work;

pub use each_lock::{Kind, KindSpec, Lines, Locks, REPLAYED};
pub use line_blocking::{
    Got, ParkOnPoll, TimedAcquire, acquire, acquire_parking, acquire_timeout, meet_all, scoped,
};
pub use line_kinds::Lock;
pub use qolb_replay::{
    Detail, MAX_BYTES, ReplayError, ReplayLine, answer_steps, read_all, run_schedule_over,
    run_steps, run_steps_with,
};
pub use qolb_work::{AlwaysOpen, Gate, MAX_REFUSALS, Progress, RunError, WaitMode, run_work_over};
pub use replay::{answer_schedule, run_schedule, run_schedule_with};
pub use report::answer_work;
pub use task::{Task, TaskError};
pub use work::{run_work, run_work_with};
