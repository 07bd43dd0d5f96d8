//! Opens the lines that workers share.
ghost use Rattle.std.specs.Prelude.{◌≡◌, IfOk, IfErr, vec_len};
ghost use Rattle.line_lanes.specs.Line.{zeros};
ghost use Rattle.qolb_model.specs.Opening.{AreNodes};
ghost use Rattle.qolb_work.specs.declared.work.RunError.TheVariants.{Memory};
ghost use Rattle.qolb_work.specs.JustOpened.{IsNewLine};

use crate::work::RunError;
use line_lanes::Line64;
use qolb_model::{Keep, LineConfig, OpenError, OpenLine};
use std::alloc::Global;

/// Opens a line that holds zeros, with a port for each worker.
///
/// The line has no lease, so the number of its acquisitions is not limited.
pub(crate) fn open_line<K: Keep, L: OpenLine<K>>(
    alloc: Global,
    label: u64,
    workers: u64,
) -> Result<(L, Vec<L::Port>), RunError>
    requires workers { AreNodes workers }
    requires good { K.good zeros }
    ensures memory { IfErr result (λ error. error ≡ Memory) }
    ensures len { IfOk result (λ r. vec_len r.1 ≡ workers) }
    ensures new { IfOk result (λ r. IsNewLine L.belongs L.view L.config_of workers r.0 r.1.items) }
{
    let config = LineConfig {
        nodes: workers,
        opening: Line64::zero(),
        lease: None,
    };
    match L::open_with(alloc, label, config) {
        Ok(opened) => Ok(opened),
        Err(OpenError::Memory) => Err(RunError::Memory),
        Err(OpenError::Nodes | OpenError::Lease) => unreachable!(),
    }
}
