//! The eleven events of the core of `link_line`. Each event is an action of one node.
ghost use Rattle.std.specs.Prelude.{◌≡◌};
ghost use Rattle.link_core.specs.Steps.{node_of};

use line_lanes::{Line64, Mask};

/// One atomic action of one node: an atomic step, or an action of a holder on the line that it holds.
#[derive(Clone, Copy, Debug, PartialEq, Eq)]
pub enum Event {
    /// The node stores 0 in its own entry.
    Reset(u64),
    /// The node puts its number into the home word.
    Prepend(u64),
    /// The node adds its number as the link of the entry that it found at home.
    Link(u64),
    /// The node loads its own entry.
    Load(u64),
    /// A release tries to put 0 into the home word.
    Home(u64),
    /// A release adds the flag done to the entry that it has reached.
    Done(u64),
    /// A release adds the flag granted to the next entry.
    Grant(u64),
    /// A waiting node adds the flag rolled to its own entry.
    Roll(u64),
    /// A release adds the flag freed to the entry of a node that it passed.
    Freed(u64),
    /// The holder writes the bytes at the places of the mask.
    Write(u64, Mask, Line64),
    /// The holder closes the line.
    Close(u64),
}

impl Event {
    /// Returns the node that acts.
    pub fn node(&self) -> u64
        ensures { result ≡ node_of self.now }
    {
        match self {
            Event::Reset(n) => *n,
            Event::Prepend(n) => *n,
            Event::Link(n) => *n,
            Event::Load(n) => *n,
            Event::Home(n) => *n,
            Event::Done(n) => *n,
            Event::Grant(n) => *n,
            Event::Roll(n) => *n,
            Event::Freed(n) => *n,
            Event::Write(n, _, _) => *n,
            Event::Close(n) => *n,
        }
    }
}
