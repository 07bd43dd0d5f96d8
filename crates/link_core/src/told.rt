//! The results that an accepted event can return, and the reasons why an event can be refused.

/// The answer of an accepted event to its node.
#[derive(Clone, Copy, Debug, PartialEq, Eq)]
pub enum Told {
    /// The call goes on.
    Went,
    /// The node has the line in its hand, and the line is open.
    Granted,
    /// The request is linked and waits.
    Queued,
    /// The request still waits.
    Waiting,
    /// The line was closed, and the node has forwarded it.
    Closed,
    /// The node's last request is not clear yet.
    Busy,
    /// The node's last request is clear.
    Free,
    /// The request is withdrawn.
    Withdrawn,
    /// The line was released.
    Released,
    /// The line was closed and released.
    Shut,
}

/// The cause of a refused event.
#[derive(Clone, Copy, Debug, PartialEq, Eq)]
pub enum NotEnabled {
    /// There is no such node.
    Node = 1,
    /// The node's point in its call does not allow the event.
    Point = 2,
}
