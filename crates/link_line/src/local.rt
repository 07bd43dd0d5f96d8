//! The ghost state of a link line's node. Ghost state exists only in proofs.
use line_generic::Payload;
use link_core::NodeCall;
use std::collections::LinkedList;

/// What the invariant knows of a node besides its port's view. It is ghost state, and the program makes no value of
/// this type.
pub struct LinkLocal {
    /// The progress of the node in its call, as the core has it.
    pub seat: NodeCall,
    /// The places of the withdrawn requests that the node has passed and not freed yet.
    pub passed: LinkedList<u64>,
    /// The line that the node has during a release.
    pub line: Payload,
}
