//! Executes a work script: it reads the bytes of the script and returns the text of the report.
ghost use Rattle.std.specs.Prelude.{◌≡◌, ◌≤◌, ℕ, length, Ok, Err, IfOk, IfErr};
ghost use Rattle.qolb_replay.specs.declared.input.TheConstants.{MAX_BYTES};
ghost use Rattle.qolb_script.specs.declared.report.Report.{Report};
ghost use Rattle.qolb_script.specs.Reports.{report_text};
ghost use Rattle.qolb_script.specs.WorkScript.{IsWorkBegun, WorkScript, work_of};
ghost use Rattle.qolb_work.specs.Reports.{IsReportOf};
ghost use Rattle.qolb_run.specs.Outcome.{IsReplyOver, HasNoReport};

use crate::each_lock::{KindSpec, Locks};
use crate::task::TaskError;
use crate::work::run_work_with;
use line_kinds::Lock;
use qolb_script::{Watched, WorkKind, read_work, write_report};
use qolb_work::{Gate, WaitMode};
use std::alloc::Global;
use std::sync::Wait;
use std::thread::Threads;

/// Does the jobs of a work script and returns the text of the report. Blocks until all workers have ended.
///
/// # Errors
///
/// Returns `Stalled` with the number of the first worker that gave up, `Memory` if memory or a thread was refused, or
/// `Script` with the first fault of the script.
pub fn answer_work<T: Threads + Wait + Sync, G: Gate + Sync>(
    rt: &T,
    alloc: Global,
    gate: &G,
    script: &[u8],
    kind: WorkKind,
    lock: Lock,
    waits: WaitMode,
) -> Result<Vec<u8>, TaskError>
    ensures ok { IfOk result (λ text. length script.now ≤ MAX_BYTES
        → IsReplyOver (⟦<Locks as KindSpec>⟧.done_over lock) kind script.now text.items) }
    // The next clause also holds for scripts that are longer than the input that `read_all` accepts.
    ensures any_length { IfOk result (λ text. (work : WorkScript) × (report : Report)
        × (work_of kind script.now ≡ Ok work) × IsReportOf work report
        × ⟦<Locks as KindSpec>⟧.done_over lock work report
        × (text.items ≡ report_text report)) }
    ensures refused { IfErr result (HasNoReport kind script.now) }
    ensures memory { result ≡ Err TaskError.Memory → IsWorkBegun kind script.now }
    ensures by_gate { (worker : ℕ) → result ≡ Err (TaskError.Stalled worker)
        → G.may_refuse gate.now worker }
{
    let work = read_work(alloc, script, kind)?;
    let report = run_work_with(rt, alloc, gate, &work, lock, waits)?;
    let mut text = Watched::new(Vec::new(alloc));
    if write_report(&report, &mut text).is_err() {
        // Writing into a vector fails only if it runs out of memory.
        return Err(TaskError::Memory);
    }
    Ok(text.into_inner())
}
