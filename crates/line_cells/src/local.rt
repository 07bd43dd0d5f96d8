//! The ghost state of an array lock's node. Ghost state exists only in proofs.
use std::collections::LinkedList;

/// The progress of a node in its calls.
pub enum Point {
    /// The node has no request, or its last one has ended and is clear.
    Idle,
    /// The node has made a request, and has not found its cell granted.
    Queued,
    /// The node has the line, and its request is at its turn.
    Holding,
    /// The node is in a release, and the request at its turn is withdrawn.
    Passing,
    /// The node is in a release, and the cell at its turn is cleared. Only a kind of line that clears its cells uses
    /// this point.
    Cleared,
    /// The node has released the line, and still has to free nodes that it passed.
    Freeing,
    /// The node's request is withdrawn.
    Rolled,
}

/// What the invariant records about a node in addition to the view of the node's port. It is ghost state, and the
/// program makes no value of this type.
pub struct Local {
    /// The node's progress in its calls.
    pub point: Point,
    /// The place of the node's last request in the order.
    pub place: u64,
    /// The places of the withdrawn requests that the node has passed and not freed yet.
    pub passed: LinkedList<u64>,
}
