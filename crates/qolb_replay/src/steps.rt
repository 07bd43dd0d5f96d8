//! Runs step scripts on the core of the link line. The reply consists of the result of each event, followed by the
//! counts of requests.
ghost use Rattle.std.specs.Prelude.{◌≡◌, ◌≤◌, ℕ, List, Option, length, Ok, Err, OnOk, OnErr, IfOk, IfErr, ◌++◌};
ghost use Rattle.qolb_script.specs.StepReply.{step_said};
ghost use Rattle.qolb_script.specs.StepScript.{AreBegun, StepScript, steps_of};
ghost use Rattle.link_core.specs.Progress.{rank};
ghost use Rattle.qolb_replay.specs.Outcome.{StepsMayFail, HasNoStepReply, Runs};
ghost use Rattle.qolb_replay.specs.declared.input.TheConstants.{MAX_BYTES};
ghost use Rattle.qolb_replay.specs.declared.steps.Detail.TheVariants as detail;
ghost use Rattle.qolb_replay.specs.StepRuns.{IsStepReply, IsStepReplyTo, Heard, heard_text, is_busy, nodes_busy};

use crate::input::read_all;
use crate::line::Counts;
use crate::replay::ReplayError;
use line_lanes::Line64;
use link_core::{Core, Point, Told};
use qolb_model::LineConfig;
use qolb_script::{Said, ScriptError, Steps, Watched, push_ranked, push_said, read_steps};
use std::alloc::{AllocError, Allocator};
use std::io::{Read, Write};

/// What the reply says about each event of a step script.
#[derive(Clone, Copy, Debug, PartialEq, Eq)]
pub enum Detail {
    /// The word that the event returned.
    Words,
    /// The word, followed by the rank of the core after the event.
    ///
    /// The rank is the number of productive events that can follow each other from this core.
    Ranks,
}

/// Runs the step script from the reader on a core of a link line, and writes the word that each event returned.
///
/// The function reads the whole input first, and builds the whole reply before it writes the first byte. Therefore
/// nothing was written unless the call succeeds or returns the error `Write`.
pub fn run_steps<A: Allocator, R: Read, W: Write>(
    alloc: A,
    reader: &mut Watched<R>,
    writer: &mut Watched<W>,
) -> Result<(), ReplayError>
    ensures { Runs R.remaining W.contents (IsStepReplyTo detail.Words) (StepsMayFail detail.Words)
        reader.old reader.new writer.old writer.new result }
{
    run_steps_with(alloc, reader, writer, Detail::Words)
}

/// Runs a step script as `run_steps` does, and writes for each event what `detail` selects.
///
/// The function reads the whole input first, and builds the whole reply before it writes the first byte. Therefore
/// nothing was written unless the call succeeds or returns the error `Write`.
pub fn run_steps_with<A: Allocator, R: Read, W: Write>(
    alloc: A,
    reader: &mut Watched<R>,
    writer: &mut Watched<W>,
    detail: Detail,
) -> Result<(), ReplayError>
    ensures { Runs R.remaining W.contents (IsStepReplyTo detail) (StepsMayFail detail)
        reader.old reader.new writer.old writer.new result }
{
    let input = read_all(&alloc, reader)?;
    let text = answer_steps(&alloc, input.as_slice(), detail)?;
    writer.write_all(text.as_slice())?;
    Ok(())
}

/// Returns the reply to the step script in the input.
pub fn answer_steps<A: Allocator + Copy>(
    alloc: A,
    input: &[u8],
    detail: Detail,
) -> Result<Vec<u8, A>, ReplayError>
    ensures ok { IfOk result (λ text. length input.now ≤ MAX_BYTES
        → IsStepReplyTo detail input.now text.items) }
    // This clause also covers inputs of more bytes than `read_all` returns.
    ensures any_length { IfOk result (λ text. (script : StepScript)
        × (steps_of input.now ≡ Ok script) × IsStepReply detail script text.items) }
    ensures refused { IfErr result (HasNoStepReply input.now) }
    ensures memory { result ≡ Err ReplayError.Memory → AreBegun input.now }
{
    let steps = read_steps(alloc, input)?;
    Ok(reply(alloc, &steps, detail)?)
}

/// Returns the reply to a step script.
fn reply<A: Allocator + Clone>(
    alloc: A,
    steps: &Steps<A>,
    detail: Detail,
) -> Result<Vec<u8, A>, AllocError>
    ensures { IfOk result (λ text. IsStepReply detail steps.now text.items) }
{
    let config = LineConfig {
        nodes: steps.nodes(),
        opening: Line64::zero(),
        lease: steps.lease(),
    };
    let Some(mut core) = Core::with_config(config) else {
        unreachable!();
    };
    let mut counts = Counts::none();
    let mut text = Vec::new(alloc);
    for event in steps.events() {
        let told = core.step(*event).ok();
        counts.add(&said_of(told));
        push_heard(&mut text, told, &core, detail)?;
    }
    let summary = counts.summary(0, nodes_left(&core));
    push_said(&mut text, &summary)?;
    Ok(text)
}

/// Appends the text for an event that had this result and left the core in this state.
///
/// If an allocation fails, the text is unchanged.
fn push_heard<A: Allocator>(
    text: &mut Vec<u8, A>,
    told: Option<Told>,
    core: &Core,
    detail: Detail,
) -> Result<(), AllocError>
    ensures ok { let heard : Heard = record { told = told; rank = rank core.now } in
        OnOk result (text.new.items ≡ text.old.items ++ heard_text detail heard) }
    ensures err { OnErr result (text.new.items ≡ text.old.items) }
{
    match detail {
        Detail::Words => push_said(text, &said_of(told)),
        Detail::Ranks => push_ranked(text, told, core.rank()),
    }
}

/// Returns the answer to an event: the word that the event returned, or that the event was refused.
fn said_of(told: Option<Told>) -> Said
    ensures { result ≡ step_said told }
{
    match told {
        Some(told) => Said::Told(told),
        None => Said::Refused,
    }
}

/// Returns `true` if a node at this point is in a call, waits or holds the line.
fn is_busy_at(point: Point) -> bool
    ensures { result ≡ is_busy point }
{
    !matches!(
        point,
        Point::Idle | Point::Ready | Point::Left | Point::Rolled | Point::Shut
    )
}

/// Returns the number of nodes that are in a call, wait or hold the line.
fn nodes_left(core: &Core) -> u64
    ensures { result ≡ nodes_busy core.now.nodes core.now }
{
    let mut left = 0;
    for before in 0..core.nodes() {
        if is_busy_at(core.point(before + 1)) {
            left += 1;
        }
    }
    left
}
