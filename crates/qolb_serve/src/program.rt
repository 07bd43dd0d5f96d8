//! Does what the command line requests, and writes the answer or a complaint.
ghost use Rattle.std.specs.Prelude.{◌≡◌, ◌≢◌, ◌≤◌, ◌⊎◌, ◌++◌, [], ℕ, Bool, true, false, List, length, Err, codes, map, string_bytes, IfSome, IfErr, IfOk};
ghost use Rattle.std.specs.IoError.{error_kind};
ghost use Rattle.std.specs.declared.io.ErrorKind.TheVariants as io_kind;
ghost use Rattle.qolb_replay.specs.declared.input.TheConstants.{MAX_BYTES};
ghost use Rattle.qolb_serve.specs.CommandLine.{NamesFlag, NamesWish, IsNotTaken};
ghost use Rattle.qolb_serve.specs.declared.command_line.Subcommand.{Subcommand};
ghost use Rattle.qolb_run.specs.Outcome.{IsReplyOver, HasNoReport};
ghost use Rattle.qolb_script.specs.WorkScript.{IsWorkBegun};
ghost use Rattle.qolb_serve.specs.Subcommands.{AreNotesIf, AreNotesOn, HasAnswer, HasBegun, IsAnswered, IsDenied, IsRefusedFor, MayDeny, Performs};
ghost use Rattle.qolb_serve.specs.Status.{status_of};

use crate::command_line::{Args, Subcommand, parse_args};
use clap::error::ErrorKind;
use qolb_draw::{draw_schedule, draw_steps};
use qolb_explain::{complaint_about, notes_of_schedule, notes_of_steps};
use qolb_replay::MAX_BYTES;
use qolb_run::{
    AlwaysOpen, KindSpec, Lock, Locks, Progress, Task, TaskError, WaitMode, answer_schedule,
    answer_steps, answer_work, read_all,
};
use qolb_script::{Refusal, Watched, WorkKind, parse_schedule, parse_steps, parse_work};
use std::alloc::{AllocError, Global};
use std::io::{self, Read, Write};
use std::rt::Clock;
use std::sync::Wait;
use std::thread::Threads;

/// Executes a command line, and returns the exit status.
///
/// The first word is the program's name. This function reads all of `reader` before it writes the answer to `out`. It
/// writes complaints to `err`.
///
/// A failed write to `err` does not change the exit status.
pub fn serve<T: Threads + Wait + Clock + Eprint + Sync, R: Read, W: Write, E: Write>(
    rt: &T,
    alloc: Global,
    words: &[String],
    reader: &mut R,
    out: &mut W,
    err: &mut E,
) -> u8
    ensures statuses { result ≤ 4 }
    ensures done { result ≡ 0 → (subcommand : Subcommand) × (explain : Bool)
        × NamesWish (map string_bytes words.now) subcommand
        × NamesFlag (codes "explain") (map string_bytes words.now) explain
        × IfSome (R.remaining reader.old) (IsAnswered ⟦<Locks as KindSpec>⟧.done_over
        subcommand explain (W.contents out.old) (W.contents out.new)) }
    ensures refused { result ≡ 1 → (subcommand : Subcommand)
        × NamesWish (map string_bytes words.now) subcommand
        × IfSome (R.remaining reader.old) (IsDenied subcommand) }
    ensures usage { result ≡ 2 → IsNotTaken (map string_bytes words.now) }
    // A read failed, and nothing was written; or the bytes have an answer, and a write failed.
    ensures fault { result ≡ 4 → (subcommand : Subcommand)
        × NamesWish (map string_bytes words.now) subcommand
        × ((out.new ≡ out.old) ⊎ IfSome (R.remaining reader.old)
        (HasAnswer ⟦<Locks as KindSpec>⟧.done_over subcommand)) }
    ensures silent { result ≡ 0 → err.new ≡ err.old }
    ensures unread { result ≡ 2 → reader.new ≡ reader.old }
    ensures unwritten { 1 ≤ result → result ≤ 3 → out.new ≡ out.old }
{
    let request = match parse_args(alloc, words) {
        Ok(request) => request,
        Err(error) if error.kind() == ErrorKind::OutOfMemory => {
            return fail(err, TaskError::Memory);
        }
        Err(error) => {
            let _ = write!(err, "{error}");
            return 2;
        }
    };
    let script = match read_all(alloc, &mut Watched::new(&mut *reader)) {
        Ok(script) => script,
        Err(error) => return refuse_input(err, request.explain, error.into()),
    };
    respond(rt, alloc, request, &script, out, err)
}

/// Writes the answer to a request, or a complaint if there is no answer. Returns the exit status.
fn respond<T: Threads + Wait + Clock + Eprint + Sync, W: Write, E: Write>(
    rt: &T,
    alloc: Global,
    request: Args,
    script: &[u8],
    out: &mut W,
    err: &mut E,
) -> u8
    requires fits { length script.now ≤ MAX_BYTES }
    ensures statuses { (result ≤ 4) × (result ≢ 2) }
    ensures done { result ≡ 0 → IsAnswered ⟦<Locks as KindSpec>⟧.done_over request.subcommand
        request.explain (W.contents out.old) (W.contents out.new) script.now }
    ensures refused { result ≡ 1 → IsDenied request.subcommand script.now }
    ensures memory { result ≡ 3 → HasBegun request.subcommand script.now }
    ensures fault { result ≡ 4
        → HasAnswer ⟦<Locks as KindSpec>⟧.done_over request.subcommand script.now }
    ensures silent { result ≡ 0 → err.new ≡ err.old }
    ensures unwritten { 1 ≤ result → result ≤ 3 → out.new ≡ out.old }
{
    let text = match answer(rt, alloc, request, script) {
        Ok(text) => text,
        Err(error) => return refuse(alloc, err, request, script, error),
    };
    let Ok(text) = with_notes(alloc, request, script, text) else {
        return fail(err, TaskError::Memory);
    };
    if out.write_all(&text).is_err() {
        return fail(err, TaskError::Write);
    }
    0
}

/// Returns the answer to a request, or why there is none.
fn answer<T: Threads + Wait + Clock + Eprint + Sync>(
    rt: &T,
    alloc: Global,
    request: Args,
    script: &[u8],
) -> Result<Vec<u8>, TaskError>
    requires fits { length script.now ≤ MAX_BYTES }
    ensures granted { IfOk result (λ text.
        Performs ⟦<Locks as KindSpec>⟧.done_over request.subcommand script.now text.items) }
    ensures denied { IfErr result (MayDeny request.subcommand script.now) }
    ensures memory { IfErr result (λ error. status_of error ≡ 3
        → HasBegun request.subcommand script.now) }
    ensures no_fault { IfErr result (λ error. status_of error ≢ 4) }
{
    match request.subcommand {
        Subcommand::Answer(Task::Replay(kind)) => Ok(answer_schedule(alloc, script, kind)?),
        Subcommand::Answer(Task::Steps(detail)) => Ok(answer_steps(alloc, script, detail)?),
        Subcommand::Answer(Task::Work(kind, lock, waits)) => {
            work(rt, alloc, request.progress, script, kind, lock, waits)
        }
        Subcommand::Draw(form) => Ok(draw_schedule(alloc, script, form)?),
        Subcommand::DrawSteps(form) => Ok(draw_steps(alloc, script, form)?),
    }
}

/// Returns the answer to a request, followed by the notes on misuses and refusals if the request asks for explanations.
fn with_notes(
    alloc: Global,
    request: Args,
    script: &[u8],
    text: Vec<u8>,
) -> Result<Vec<u8>, AllocError>
    ensures { IfOk result (λ all. (notes : List ℕ) × (all.items ≡ text.items ++ notes)
        × AreNotesIf request.explain request.subcommand script.now notes) }
{
    let notes = notes_if(alloc, request.explain, request.subcommand, script)?;
    let mut text = text;
    text.extend_from_slice(&notes)?;
    Ok(text)
}

/// Returns the notes on an answer if they are requested, and no notes otherwise.
fn notes_if(
    alloc: Global,
    asked: bool,
    subcommand: Subcommand,
    script: &[u8],
) -> Result<Vec<u8>, AllocError>
    ensures given { asked ≡ true
        → IfOk result (λ notes. AreNotesOn subcommand script.now notes.items) }
    ensures none { asked ≡ false → IfOk result (λ notes. notes.items ≡ []) }
{
    if asked {
        return notes_on(alloc, subcommand, script);
    }
    Ok(Vec::new(alloc))
}

/// Returns the notes on the misuses of a replay, or on the refusals of a step script.
fn notes_on(alloc: Global, subcommand: Subcommand, script: &[u8]) -> Result<Vec<u8>, AllocError>
    ensures { IfOk result (λ notes. AreNotesOn subcommand script.now notes.items) }
{
    match subcommand {
        Subcommand::Answer(Task::Replay(_)) => notes_of_schedule(alloc, script),
        Subcommand::Answer(Task::Steps(_)) => notes_of_steps(alloc, script),
        Subcommand::Answer(Task::Work(_, _, _)) | Subcommand::Draw(_) | Subcommand::DrawSteps(_) =>
            { Ok(Vec::new(alloc)) }
    }
}

/// Does the jobs of a work script, and returns the report as text.
///
/// Reports the progress if `progress` is set and there is a clock.
fn work<T: Threads + Wait + Clock + Eprint + Sync>(
    rt: &T,
    alloc: Global,
    progress: bool,
    script: &[u8],
    kind: WorkKind,
    lock: Lock,
    waits: WaitMode,
) -> Result<Vec<u8>, TaskError>
    ensures ok { IfOk result (λ text. length script.now ≤ MAX_BYTES
        → IsReplyOver (⟦<Locks as KindSpec>⟧.done_over lock) kind script.now text.items) }
    ensures refused { IfErr result (HasNoReport kind script.now) }
    ensures memory { result ≡ Err TaskError.Memory → IsWorkBegun kind script.now }
    ensures never_stalls { (worker : ℕ) → result ≢ Err (TaskError.Stalled worker) }
{
    if progress {
        if let Ok(gate) = Progress::new(rt) {
            return answer_work(rt, alloc, &gate, script, kind, lock, waits);
        }
    }
    answer_work(rt, alloc, &AlwaysOpen, script, kind, lock, waits)
}

/// Writes why the script could not be read, and returns the exit status.
///
/// If the script is too long and `explain` is set, this function also writes how long a script may be.
fn refuse_input<E: Write>(err: &mut E, explain: bool, error: TaskError) -> u8
    ensures { result ≡ status_of error }
{
    let is_long = matches!(error, TaskError::Long);
    let status = fail(err, error);
    if is_long && explain {
        let _ = writeln!(err, "a script has at most {MAX_BYTES} bytes");
    }
    status
}

/// Writes the error, and returns the exit status.
///
/// If the script is refused and the request asks for explanations, this function also tries to write what the refused
/// line may contain.
fn refuse<E: Write>(
    alloc: Global,
    err: &mut E,
    request: Args,
    script: &[u8],
    error: TaskError,
) -> u8
    ensures { result ≡ status_of error }
{
    let status = fail(err, error);
    if status == 1 && request.explain {
        if let Some(why) = refusal_of(alloc, request.subcommand, script) {
            if let Some(complaint) = complaint_about(script, why) {
                let _ = writeln!(err, "{complaint}");
            }
        }
    }
    status
}

/// Returns why the reader of a subcommand's scripts refuses this script, or `None` if it does not.
fn refusal_of(alloc: Global, subcommand: Subcommand, script: &[u8]) -> Option<Refusal>
    ensures { IfSome result (λ why. why ≢ Refusal.Memory → IsRefusedFor subcommand script.now why) }
{
    match subcommand {
        Subcommand::Answer(Task::Replay(_)) | Subcommand::Draw(_) => {
            parse_schedule(alloc, script).err()
        }
        Subcommand::Answer(Task::Steps(_)) | Subcommand::DrawSteps(_) => {
            parse_steps(alloc, script).err()
        }
        Subcommand::Answer(Task::Work(kind, _, _)) => parse_work(alloc, script, kind).err(),
    }
}

/// Reports why the words of the command line could not be read.
///
/// Returns the exit status: 3 if memory ran out, and 2 otherwise.
pub fn refuse_words<E: Write>(err: &mut E, error: &io::Error) -> u8
    ensures memory { error_kind error.now ≡ io_kind.OutOfMemory → result ≡ 3 }
    ensures other { error_kind error.now ≢ io_kind.OutOfMemory → result ≡ 2 }
{
    if error.kind() == io::ErrorKind::OutOfMemory {
        return fail(err, TaskError::Memory);
    }
    let _ = writeln!(err, "error: the arguments are no UTF-8 text");
    2
}

/// Writes the error, and returns the exit status.
pub fn fail<E: Write>(err: &mut E, error: TaskError) -> u8
    ensures { result ≡ status_of error }
{
    let _ = writeln!(err, "{error}");
    match error {
        TaskError::Script(_) | TaskError::Long => 1,
        TaskError::Memory | TaskError::Stalled(_) => 3,
        TaskError::Read | TaskError::Write => 4,
    }
}
