//! The requests that nodes make.

/// A request of a node: the node's `number`-th request on the line, counted from 1.
#[derive(Clone, Copy, Debug, PartialEq, Eq)]
pub struct Request {
    pub node: u64,
    pub number: u64,
}
