//! Converts the tasks of a board to the bytes of a line, and back.
ghost use Rattle.std.specs.Prelude.{◌≡◌, ◌<◌, ℕ, List, length, MatchOption};
ghost use Rattle.std.specs.List.{All};
ghost use Rattle.line_board.specs.Board.{are_zeros, tasks_of, Stand};

use arrayvec::ArrayVec;
use line_lanes::{Line64, lane, with_lane};

/// The largest number of tasks on a board.
pub const MAX_TASKS: usize = 7;

/// The tasks of a board, the oldest first.
pub type Tasks = ArrayVec<u64, MAX_TASKS>;

/// Returns the tasks of the line, or `None` if the line is not a board.
pub fn decode(line: &Line64) -> Option<Tasks>
    ensures { MatchOption result (tasks_of line.now.bytes ≡ None) (λ tasks.
        Stand line.now.bytes tasks.items) }
{
    let count = usize::from(line.bytes[0]);
    if count > MAX_TASKS || !are_zeros(&line.bytes[1..8]) {
        return None;
    }
    let mut tasks = Tasks::new();
    for k in 1..MAX_TASKS + 1 {
        let task = lane(line, k);
        if k <= count {
            tasks.push(task);
        } else if task != 0 {
            return None;
        }
    }
    Some(tasks)
}

/// Returns the board of these tasks.
pub fn encode(tasks: &Tasks) -> Line64
    ensures tasks { Stand result.bytes tasks.now.items }
    ensures only { (line : List ℕ) → length line ≡ 64 → All (λ byte. byte < 256) line
        → Stand line tasks.now.items → line ≡ result.bytes }
{
    // A count below 256 in lane 0 is byte 0, followed by zeros in bytes 1 to 7.
    let mut line = with_lane(&Line64::zero(), 0, tasks.len() as u64);
    for (k, task) in tasks.iter().enumerate() {
        line = with_lane(&line, k + 1, *task);
    }
    line
}

/// Returns `true` if all these bytes are zero.
fn are_zeros(bytes: &[u8]) -> bool
    ensures { result ≡ are_zeros bytes.now }
{
    bytes.iter().all(|byte| *byte == 0)
}
