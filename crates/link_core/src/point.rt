//! The points of a node. A point records how far the node's call has got, and determines which events the node can make
//! next.

/// The point of a node in its call.
#[derive(Clone, Copy, Debug, PartialEq, Eq)]
pub enum Point {
    /// The node is in no call.
    Idle,
    /// The node is about to prepend: its entry is reset.
    Ready,
    /// The node is about to link to the entry of this node.
    Linking(u64),
    /// The node's request waits.
    Queued,
    /// The node has the line in its hand, and the line is open.
    Holding,
    /// The node's release has reached the entry of this node, and next tries to return the line home.
    Leaving(u64),
    /// The node's release next adds the flag done to the entry of this node.
    Marking(u64),
    /// The node's release next grants the line to this node.
    Granting(u64),
    /// The node has released the line, and must still free the nodes that its release passed.
    Freeing,
    /// The node has left the line in its own mailbox, for a successor that has not linked itself yet.
    Left,
    /// The node's request is withdrawn.
    Rolled,
    /// The node is in no call; it has closed the line or was told that it is closed.
    Shut,
}
