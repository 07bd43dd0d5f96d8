//! The record that a plain line keeps for each waiting node.

/// An entry of a waiting node, and whether the node has withdrawn.
#[derive(Clone, Copy, Debug, Default, PartialEq, Eq)]
pub struct Waiter {
    pub node: u64,
    pub withdrawn: bool,
}
