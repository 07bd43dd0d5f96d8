//! The configuration with which a program opens a line.
ghost use Rattle.std.specs.Prelude.{◌≢◌, MatchResult};
ghost use Rattle.qolb_model.specs.Opening.{MayOpen, MayNotOpen};

use crate::answer::OpenError;
use line_lanes::Line64;

/// The maximum number of nodes of a line.
pub const MAX_NODES: u64 = 200;

/// The configuration of a line, except its label.
#[derive(Clone, Copy, Debug, PartialEq, Eq)]
pub struct LineConfig {
    /// The number of nodes. They are numbered from 1.
    pub nodes: u64,
    /// The bytes that the first holder finds.
    pub opening: Line64,
    /// The number of served turns after which the line closes, or `None` for no limit.
    pub lease: Option<u64>,
}

impl LineConfig {
    /// Checks the number of nodes, and then the lease.
    ///
    /// Returns `Nodes` if there are not 1 to `MAX_NODES` nodes, and otherwise `Lease` if the lease is 0.
    pub fn check(&self) -> Result<(), OpenError>
        ensures { MatchResult result (λ _. MayOpen self.now) (λ error.
            (error ≢ OpenError.Memory) × MayNotOpen self.now error) }
    {
        if self.nodes < 1 || self.nodes > MAX_NODES {
            return Err(OpenError::Nodes);
        }
        if self.lease == Some(0) {
            return Err(OpenError::Lease);
        }
        Ok(())
    }
}
