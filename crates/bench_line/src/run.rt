//! Runs one measurement: opens a line, runs the same task on every node of the line, and finishes the line, which
//! returns the line's last bytes.
ghost use Rattle.std.specs.Prelude.{All, IfOk, IsTrue};
ghost use Rattle.qolb_model.specs.PortStates.{may_ask};

use crate::law::NonDecreasing;
use crate::workers::{Each, Task};
use line_blocking::meet_all;
use line_blocking::scoped::run_scoped;
use line_lanes::Line64;
use qolb_model::{FinishError, LineConfig, LineSync, OpenError, OpenLine};
use std::alloc::Global;
use std::rt::Clock;
use std::sync::Wait;
use std::thread::Threads;
use thiserror::Error;

/// Why a run failed.
#[derive(Debug, Drop, Error)]
pub enum RunError {
    #[error("out of memory, or a thread could not be started")]
    Refused,
    #[error("the line could not be opened")]
    Open(OpenError),
    #[error("the line could not be finished")]
    Finish(FinishError),
    #[error("{0} additions were lost")]
    Lost(u64),
}

/// Opens a line of zeros with `nodes` nodes.
pub fn open<L: OpenLine<NonDecreasing>>(
    alloc: Global,
    nodes: u64,
) -> Result<(L, Vec<L::Port>), RunError>
    ensures ports { IfOk result (λ r. All (λ port. L.belongs r.0 port) r.1.items) }
    ensures state { IfOk result (λ r.
        All (λ port. IsTrue (may_ask (L.view port).state)) r.1.items) }
{
    let config = LineConfig {
        nodes,
        opening: Line64::zero(),
        lease: None,
    };
    match L::open_with(alloc, 1, config) {
        Ok(opened) => Ok(opened),
        Err(why) => Err(RunError::Open(why)),
    }
}

/// Runs `task` for each port, in a thread of its own, and then finishes the line.
///
/// Before the line is finished, the views of the ports are merged. Returns the last bytes of the line.
pub fn run_task<
    R: Threads + Wait + Clock + Sync,
    L: LineSync<NonDecreasing> + Sync + Drop,
    T: Task<L> + Sync,
>(rt: &R, alloc: Global, line: L, ports: Vec<L::Port>, task: &T) -> Result<Line64, RunError>
where
    L::Port: Send + Drop,
    requires ports { All (λ port. L.belongs line port) ports.items }
    requires state { All (λ port. IsTrue (may_ask (L.view port).state)) ports.items }
{
    let work = Each { task };
    let mut ports = run_scoped(rt, alloc, &work, &line, ports).ok_or(RunError::Refused)?;
    meet_all(&line, ports.as_mut_slice());
    match line.finish(alloc, ports) {
        Ok(last) => Ok(last),
        Err(back) => Err(RunError::Finish(back.why)),
    }
}
