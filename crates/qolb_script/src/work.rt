//! Work scripts, each of which lists the jobs that worker threads do at a shared task board or a shared bank.
ghost use Rattle.std.specs.Prelude.{◌≡◌, ◌≢◌, IfOk, IfErr};
ghost use Rattle.qolb_script.specs.WorkScript.{IsWorkBegun, parsed_work, work_of};

use crate::error::ScriptError;
use crate::header::{script_kind, unless_other};
use crate::job::{Job, WorkKind};
use crate::job_reader::{JobReader, WorkHeader, read_work_header};
use crate::reason::{Reason, Refusal};
use crate::schedule::MAX_LINES;
use crate::text::NumberedLines;
use std::alloc::{Allocator, Global};
use std::marker::Model;

/// A work script: its kind, the numbers in its header, and the jobs in order.
///
/// Only `read_work` and `parse_work` create a work script.
#[derive(Drop)]
pub struct Work<A: Allocator = Global> {
    kind: WorkKind,
    workers: u64,
    lines: u64,
    jobs: Vec<Job, A>,
}

impl<A: Allocator> Model for Work<A> {
    ghost use Rattle.qolb_script.specs.WorkScript.{WorkScript};
    ghost use Rattle.qolb_script.specs.Ranges.{IsWorkBounded};

    ghost Value = { WorkScript };

    ghost view = { λ w. record {
      kind = w.kind;
      workers = w.workers;
      lines = w.lines;
      jobs = w.jobs.items;
    } };

    ghost invariant = { λ w. IsWorkBounded
        (record { kind = w.kind; workers = w.workers; lines = w.lines; jobs = w.jobs.items }) };
}

impl<A: Allocator> Work<A> {
    ghost use Rattle.std.specs.Prelude.{◌≡◌, ◌≤◌, length};
    ghost use Rattle.qolb_script.specs.declared.schedule.TheConstants.{MAX_COMMANDS};
    ghost use Rattle.qolb_model.specs.Opening.{AreNodes};
    ghost use Rattle.qolb_script.specs.WorkScript.{AreOfIts};

    /// Returns what the workers share.
    pub fn kind(&self) -> WorkKind
        ensures { result ≡ self.now.kind }
    {
        self.kind
    }

    /// Returns the number of workers.
    pub fn workers(&self) -> u64
        ensures workers { result ≡ self.now.workers }
        ensures range { AreNodes result }
    {
        self.workers
    }

    /// Returns the number of lines, which is 1 for a board.
    pub fn lines(&self) -> u64
        ensures lines { result ≡ self.now.lines }
        ensures range { (1 ≤ result) × (result ≤ MAX_LINES) }
        ensures one { self.now.kind ≡ WorkKind.Board → result ≡ 1 }
    {
        self.lines
    }

    /// Returns the jobs, in order.
    pub fn jobs(&self) -> &[Job]
        ensures jobs { result.now ≡ self.now.jobs }
        ensures range { AreOfIts self.now }
        ensures most { length result.now ≤ MAX_COMMANDS }
    {
        &self.jobs
    }
}

/// Reads a work script of this kind.
///
/// Allocates a vector for the jobs. The error is that of the first faulty line, or `Memory` if an allocation failed.
pub fn read_work<A: Allocator>(
    alloc: A,
    text: &[u8],
    kind: WorkKind,
) -> Result<Work<A>, ScriptError>
    ensures ok { IfOk result (λ work. work_of kind text.now ≡ Ok work) }
    ensures refused { IfErr result (λ error. error ≢ ScriptError.Memory
        → work_of kind text.now ≡ Err error) }
    ensures memory { IfErr result (λ error. error ≡ ScriptError.Memory
        → IsWorkBegun kind text.now) }
{
    match parse_work(alloc, text, kind) {
        Ok(work) => Ok(work),
        Err(why) => Err(why.error()),
    }
}

/// Reads a work script as `read_work` does, and returns the reason if a line is refused.
pub fn parse_work<A: Allocator>(alloc: A, text: &[u8], kind: WorkKind) -> Result<Work<A>, Refusal>
    ensures ok { IfOk result (λ work. parsed_work kind text.now ≡ Ok work) }
    ensures refused { IfErr result (λ why. why ≢ Refusal.Memory
        → parsed_work kind text.now ≡ Err why) }
    ensures memory { IfErr result (λ why. why ≡ Refusal.Memory → IsWorkBegun kind text.now) }
{
    let mut rest = NumberedLines::new(text);
    let Some((number, line)) = rest.next() else {
        return Err(Refusal::Line(1, Reason::Empty(script_kind(kind))));
    };
    let WorkHeader { workers, lines } = match read_work_header(kind, line) {
        Ok(header) => header,
        Err(why) => {
            return Err(Refusal::Line(number, unless_other(script_kind(kind), line, why)));
        }
    };
    let reader = JobReader {
        kind,
        workers,
        lines,
    };
    let jobs = rest.read_items(alloc, &reader)?;
    Ok(Work {
        kind,
        workers,
        lines,
        jobs,
    })
}
