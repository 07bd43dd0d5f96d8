//! The trait `OpenLine` for lines that a program can open.
ghost use Rattle.std.specs.Prelude.{IfOk, IfErr};
ghost use Rattle.qolb_model.specs.Opening.{MayOpen, MayNotOpen, Opens};

use crate::answer::OpenError;
use crate::config::LineConfig;
use crate::keep::Keep;
use crate::sync::LineSync;
use std::alloc::Global;

/// A line that a program can open under the data invariant `K`, and that nodes then share.
pub trait OpenLine<K: Keep>: LineSync<K> {
    /// Opens a line with `config`, and returns a port for each of its nodes, in their order. Only this call and
    /// `finish` allocate.
    ///
    /// # Errors
    ///
    /// The call fails with `Nodes` if the number of nodes is not 1 to `MAX_NODES`, otherwise with `Lease` if the lease
    /// is 0, and otherwise with `Memory` if memory is short.
    fn open_with(
        alloc: Global,
        label: u64,
        config: LineConfig,
    ) -> Result<(Self, Vec<Self::Port>), OpenError>
        requires good { K.good config.opening.bytes }
        ensures opens { IfOk result (λ r.
            Opens Self.view (Self.belongs r.0) (Self.label_of r.0)
            (Self.config_of r.0) label config r.1.items) }
        ensures may_open { IfOk result (λ r. MayOpen config) }
        ensures why { IfErr result (λ error. MayNotOpen config error) };
}
