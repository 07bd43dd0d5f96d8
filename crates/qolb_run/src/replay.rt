//! Replays schedules on queued lines whose kind the caller chooses.
ghost use Rattle.std.specs.Prelude.{◌≡◌, Ok, Err, IfOk, IfErr};
ghost use Rattle.qolb_script.specs.Reply.{reply_to};
ghost use Rattle.qolb_script.specs.Script.{IsBegun};
ghost use Rattle.qolb_replay.specs.Outcome.{IsReply, ReplayMayFail, HasNoReply, Runs};

use crate::each_lock::Kind;
use line_generic::{Discipline, Line};
use line_kinds::{Lock, for_kind};
use qolb_model::Free;
use qolb_replay::{ReplayError, answered_over, answered_plainly, read_all};
use qolb_script::Watched;
use std::alloc::Global;
use std::io::{Read, Write};

/// Replays the schedule that the reader supplies, and writes the reply, which is the same for each kind of line.
///
/// The call reads the whole input and builds the whole reply before it writes the first byte. Therefore nothing was
/// written if the error is not `Write`.
pub fn run_schedule<R: Read, W: Write>(
    alloc: Global,
    reader: &mut Watched<R>,
    writer: &mut Watched<W>,
    kind: Kind,
) -> Result<(), ReplayError>
    ensures { Runs R.remaining W.contents IsReply ReplayMayFail
        reader.old reader.new writer.old writer.new result }
{
    run_schedule_with(alloc, reader, writer, kind.lock())
}

/// Replays a schedule as `run_schedule` does, but over lines of any lock.
///
/// With `None`, the plain reference answers the calls.
pub fn run_schedule_with<R: Read, W: Write>(
    alloc: Global,
    reader: &mut Watched<R>,
    writer: &mut Watched<W>,
    lock: Option<Lock>,
) -> Result<(), ReplayError>
    ensures { Runs R.remaining W.contents IsReply ReplayMayFail
        reader.old reader.new writer.old writer.new result }
{
    let input = read_all(alloc, reader)?;
    let text = answer_schedule(alloc, input.as_slice(), lock)?;
    writer.write_all(text.as_slice())?;
    Ok(())
}

/// Returns the reply to a schedule.
///
/// With a lock, lines of this lock answer the calls; with `None`, the plain reference answers.
///
/// # Errors
///
/// Returns `Memory` if a memory allocation was refused, or `Script` with the first fault of the schedule.
pub fn answer_schedule(
    alloc: Global,
    script: &[u8],
    lock: Option<Lock>,
) -> Result<Vec<u8>, ReplayError>
    ensures ok { IfOk result (λ text. reply_to script.now ≡ Ok text.items) }
    ensures refused { IfErr result (HasNoReply script.now) }
    ensures memory { result ≡ Err ReplayError.Memory → IsBegun script.now }
{
    match lock {
        None => answered_plainly(alloc, script),
        Some(lock) => for_kind!(lock, answered_with, [], (alloc, script)),
    }
}

/// Returns the reply to the schedule in the input. Lines of the queue algorithm `Q` answer the calls.
fn answered_with<Q: Discipline<Free>>(alloc: Global, input: &[u8]) -> Result<Vec<u8>, ReplayError>
    ensures ok { IfOk result (λ text. reply_to input.now ≡ Ok text.items) }
    ensures refused { IfErr result (HasNoReply input.now) }
    ensures memory { result ≡ Err ReplayError.Memory → IsBegun input.now }
{
    answered_over::<Global, Line<Free, Q>>(alloc, alloc, input)
}
