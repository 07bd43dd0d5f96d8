//! The view of a port, which is what the port knows about its line. The contracts of all calls refer to this view.
use crate::answer::PortState;
use crate::config::LineConfig;
use crate::end::End;
use crate::request::Request;
use std::collections::LinkedList;

/// What a port knows of its line. Contracts are stated in terms of views, and the program makes no value of this type.
///
/// The three lists of a view are prefixes of the line's own lists, and its three sets only grow.
pub struct View {
    /// The label of the line.
    pub label: u64,
    /// The configuration of the line.
    pub config: LineConfig,
    /// The node of the port.
    pub node: u64,
    /// The number of requests that the node has made.
    pub count: u64,
    /// The state after the port's last call.
    pub state: PortState,
    /// The requests of the line, in the order in which they were made.
    pub order: LinkedList<Request>,
    /// The ends of the first of these requests, in the same order.
    pub ends: LinkedList<End>,
    /// The requests whose nodes may make another request.
    pub clear: LinkedList<Request>,
    /// The requests that are linked to their predecessors, or were at their turn when they were made.
    pub joined: LinkedList<Request>,
    /// The requests that were withdrawn.
    pub marked: LinkedList<Request>,
    /// The withdrawn requests that a release has passed, and whose nodes it has then freed.
    pub freed: LinkedList<Request>,
}
