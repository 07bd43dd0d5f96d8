//! The answers that the calls on a line return, and the states of a port.
ghost use Rattle.std.specs.Prelude.{◌≡◌};
ghost use Rattle.qolb_model.specs.PortStates.{may_ask};

/// The answer of `enqolb`.
#[derive(Clone, Copy, Debug, PartialEq, Eq)]
pub enum Enq {
    /// The node holds the line.
    Granted,
    /// The request waits behind another request.
    Queued,
    /// The line is closed, and the request has ended.
    Closed,
    /// The node made no request, because its entry is not clear yet. The node's last request has ended or was
    /// withdrawn.
    Busy,
}

/// The answer of `prepend`, which makes a request but does not link it.
#[derive(Clone, Copy, Debug, PartialEq, Eq)]
pub enum Prep {
    /// The node holds the line.
    Granted,
    /// The line is closed, and the request has ended.
    Closed,
    /// The node made no request, because its entry is not clear yet. The node's last request has ended or was
    /// withdrawn.
    Busy,
    /// The request is behind another request, and is not linked to its predecessor yet.
    Linking,
}

/// The answer of `poll`.
#[derive(Clone, Copy, Debug, PartialEq, Eq)]
pub enum Poll {
    /// The node holds the line.
    Granted,
    /// The request waits behind another request.
    Waiting,
    /// The line is closed, and the request has ended.
    Closed,
}

/// The answer of `withdraw`.
#[derive(Clone, Copy, Debug, PartialEq, Eq)]
pub enum Out {
    /// The request is withdrawn. The release that reaches the request will skip it.
    Withdrawn,
    /// The request had already reached its turn, and the node holds the line.
    Granted,
    /// The request had already reached its turn, on a closed line, and has ended.
    Closed,
}

/// The state of a node of a line, after the node's last call.
#[derive(Clone, Copy, Debug, PartialEq, Eq)]
pub enum PortState {
    /// The node has no open request, and may make one.
    Idle,
    /// The node's request has its place in the order, but its predecessor does not know of it yet.
    Linking,
    /// The node's request waits.
    Queued,
    /// The node holds the line.
    Holding,
    /// The node's last request has ended, and the node left the line in its mailbox for the successor.
    Left,
    /// The node's last request was withdrawn.
    Rolled,
    /// The node knows that the line is closed.
    Shut,
}

impl PortState {
    /// Returns `true` if a node in this state may make a request, because it neither waits nor holds.
    pub fn may_ask(self) -> bool
        ensures { result ≡ may_ask self }
    {
        !matches!(
            self,
            PortState::Linking | PortState::Queued | PortState::Holding
        )
    }
}

/// Why a line could not be opened.
#[derive(Clone, Copy, Debug, PartialEq, Eq)]
pub enum OpenError {
    /// The allocator returned no memory.
    Memory = 1,
    /// The number of nodes is not 1 to `MAX_NODES`.
    Nodes = 2,
    /// The lease is 0 turns.
    Lease = 3,
}
