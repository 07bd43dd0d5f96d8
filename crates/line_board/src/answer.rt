//! The answers of the calls on a board.

/// The answer of `put`.
#[derive(Clone, Copy, Debug, PartialEq, Eq)]
pub enum Put {
    /// The task was appended to the board.
    Stored,
    /// Seven tasks were on the board, and they stay there.
    Full,
    /// The line was not granted within `patience` polls. The request is withdrawn, and no task was put.
    Late,
    /// The line is closed.
    Closed,
    /// The node's last request is not clear yet, so the port made none.
    Busy,
}

/// The answer of `take`.
#[derive(Clone, Copy, Debug, PartialEq, Eq)]
pub enum Take {
    /// The oldest task, which was removed from the board.
    Task(u64),
    /// No task was on the board.
    Empty,
    /// The line was not granted within `patience` polls. The request is withdrawn, and no task was taken.
    Late,
    /// The line is closed.
    Closed,
    /// The node's last request is not clear yet, so the port made none.
    Busy,
}
