//! The state of a node during its call: how far the call has got, why the node releases the line, and which nodes the
//! release has skipped.
ghost use Rattle.std.specs.Prelude.{◌≡◌, ◌↔◌, ◌<◌, ◌≤◌, List, [], ◌∷◌, ◌++◌, length, IsTrue, MatchOption};
ghost use Rattle.qolb_model.specs.declared.config.TheConstants.{MAX_NODES};
ghost use Rattle.link_core.specs.declared.seat.TheConstants.{MAX_PASSED};
ghost use Rattle.link_core.specs.State.{unused};

use crate::point::Point;
use arrayvec::ArrayVec;
use qolb_model::MAX_NODES;
use std::marker::Model;

/// The cause of a node's release.
#[derive(Clone, Copy, Debug, PartialEq, Eq)]
pub enum ReleaseCause {
    /// The node held the line and leaves it open.
    Own,
    /// The node held the line and has closed it.
    Closing,
    /// The line was already closed when it reached the node.
    Refused,
}

/// The maximum number of nodes that a release passes: each other node once.
pub const MAX_PASSED: usize = MAX_NODES as usize - 1;

/// The nodes that a release has passed and not freed, oldest first.
#[derive(Drop)]
pub struct Passed {
    /// The numbers are stored as bytes, because each node has such a list.
    nodes: ArrayVec<u8, MAX_PASSED>,
}

impl Model for Passed {
    ghost use Rattle.std.specs.Prelude.{List, ℕ};

    ghost Value = { List ℕ };

    ghost view = { λ p. p.nodes.items };
}

impl Passed {
    /// Returns an empty list.
    pub fn new() -> Self
        ensures { result ≡ [] }
    {
        Passed {
            nodes: ArrayVec::new(),
        }
    }

    /// Adds a passed node.
    pub fn push(&mut self, node: u64)
        requires room { length self.old < MAX_PASSED }
        requires node { node ≤ MAX_NODES }
        ensures { self.new ≡ self.old ++ node ∷ [] }
    {
        self.nodes.push(node as u8);
    }

    /// Returns `true` if the list is empty.
    pub fn is_empty(&self) -> bool
        ensures { IsTrue result ↔ (self.now ≡ []) }
    {
        self.nodes.is_empty()
    }

    /// Takes the first node off the list.
    pub fn take_first(&mut self) -> Option<u64>
        ensures none { MatchOption result (self.old ≡ []) (λ x. self.old ≡ x ∷ self.new) }
        ensures kept { result ≡ None → self.new ≡ [] }
    {
        if self.nodes.is_empty() {
            None
        } else {
            Some(u64::from(self.nodes.remove(0)))
        }
    }
}

/// The state of a node in its own call.
#[derive(Drop)]
pub struct NodeCall {
    pub point: Point,
    pub passed: Passed,
    pub reason: ReleaseCause,
}

impl Default for NodeCall {
    ghost is_default = { λ s. s ≡ unused };

    fn default() -> Self {
        NodeCall {
            point: Point::Idle,
            passed: Passed::new(),
            reason: ReleaseCause::Own,
        }
    }
}
