//! The tasks for which a script can be used (a replay, the run of a step script, or work), and the reasons why such a
//! task can fail.
ghost use Rattle.std.specs.Prelude.{◌≡◌};
ghost use Rattle.qolb_run.specs.Outcome.{replay_ending, script_ending, work_ending};

use line_kinds::Lock;
use qolb_replay::{Detail, ReplayError};
use qolb_script::{ScriptError, WorkKind};
use qolb_work::{RunError, WaitMode};
use thiserror::Error;

/// What to do with a script.
#[derive(Clone, Copy, Debug, PartialEq, Eq)]
pub enum Task {
    /// Replay a schedule over lines of this lock. With `None`, the plain reference answers the calls.
    Replay(Option<Lock>),
    /// Run a step script, and write the parts of each event that `Detail` selects.
    Steps(Detail),
    /// Do the jobs of a work script of this kind over lines of this lock. `WaitMode` says how the workers wait.
    Work(WorkKind, Lock, WaitMode),
}

/// The reason why a task was not done.
#[derive(Clone, Copy, Debug, PartialEq, Eq, Error)]
pub enum TaskError {
    /// A memory allocation or the start of a thread was refused.
    #[error("out of memory")]
    Memory,
    /// The reader returned an error.
    #[error("read fault")]
    Read,
    /// The input has more bytes than a script may have.
    #[error("script too long")]
    Long,
    /// The input is not a valid script for the task. The error inside says where and why.
    #[error(transparent)]
    Script(ScriptError),
    /// The writer returned an error, or accepted no byte.
    #[error("write fault")]
    Write,
    /// The worker with this number gave up, and no worker with a smaller number did.
    #[error("stalled {0}")]
    Stalled(u64),
}

impl From<ReplayError> for TaskError {
    ghost from_gives = { λ error gives. gives ≡ replay_ending error };

    fn from(error: ReplayError) -> TaskError {
        match error {
            ReplayError::Memory => TaskError::Memory,
            ReplayError::Read => TaskError::Read,
            ReplayError::Long => TaskError::Long,
            ReplayError::Script(fault) => TaskError::Script(fault),
            ReplayError::Write => TaskError::Write,
        }
    }
}

impl From<ScriptError> for TaskError {
    ghost from_gives = { λ fault gives. gives ≡ script_ending fault };

    fn from(fault: ScriptError) -> TaskError {
        match fault {
            ScriptError::Memory => TaskError::Memory,
            fault => TaskError::Script(fault),
        }
    }
}

impl From<RunError> for TaskError {
    ghost from_gives = { λ error gives. gives ≡ work_ending error };

    fn from(error: RunError) -> TaskError {
        match error {
            RunError::Memory => TaskError::Memory,
            RunError::Stalled(worker) => TaskError::Stalled(worker),
        }
    }
}
