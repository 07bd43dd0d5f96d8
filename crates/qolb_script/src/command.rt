ghost use Rattle.std.specs.Prelude.{◌≡◌, ℕ};
ghost use Rattle.qolb_script.specs.Commands.{node_of, line_of};

use line_lanes::{Line64, Mask};

/// One command of a schedule, which is a call that a node makes on a line. Nodes are numbered from 1, lines from 0.
#[derive(Clone, Copy, Debug, PartialEq, Eq)]
pub enum Command {
    Enq {
        node: u64,
        line: u64,
    },
    Poll {
        node: u64,
        line: u64,
    },
    Show {
        node: u64,
        line: u64,
    },
    Deq {
        node: u64,
        line: u64,
    },
    Out {
        node: u64,
        line: u64,
    },
    Shut {
        node: u64,
        line: u64,
    },
    Write {
        node: u64,
        line: u64,
        mask: Mask,
        bytes: Line64,
    },
}

impl Command {
    /// Returns the node that makes the call.
    pub fn node(&self) -> u64
        ensures { result ≡ node_of self.now }
    {
        match *self {
            Command::Enq { node, .. } => node,
            Command::Poll { node, .. } => node,
            Command::Show { node, .. } => node,
            Command::Deq { node, .. } => node,
            Command::Out { node, .. } => node,
            Command::Shut { node, .. } => node,
            Command::Write { node, .. } => node,
        }
    }

    /// Returns the line on which the node makes the call.
    pub fn line(&self) -> u64
        ensures { result ≡ line_of self.now }
    {
        match *self {
            Command::Enq { line, .. } => line,
            Command::Poll { line, .. } => line,
            Command::Show { line, .. } => line,
            Command::Deq { line, .. } => line,
            Command::Out { line, .. } => line,
            Command::Shut { line, .. } => line,
            Command::Write { line, .. } => line,
        }
    }
}
