//! Writes a note on each refused event of a step script. The note names the point of the lock algorithm at which the
//! node is, and the events that this point allows.
ghost use Rattle.std.specs.Prelude.{◌≡◌, ◌++◌, IfErr, IfOk, OnOk};
ghost use Rattle.link_core.specs.State.{first, point};
ghost use Rattle.link_core.specs.Steps.{IsRefused, node_of};
ghost use Rattle.qolb_replay.specs.StepRuns.{line_of};
ghost use Rattle.qolb_explain.specs.Notes as spec;

use line_lanes::Line64;
use link_core::{Core, Event, NotEnabled, Point, Told};
use qolb_model::LineConfig;
use qolb_script::{ScriptError, Steps, read_steps};
use qolb_words::{push_field, push_point, step_verb};
use std::alloc::{AllocError, Global};

/// Returns a note, which is a line of text, for each refused event of a step script.
///
/// A note names the point of the node and the events that this point allows. The text is empty if the script is
/// refused.
pub fn notes_of_steps(alloc: Global, script: &[u8]) -> Result<Vec<u8>, AllocError>
    ensures { IfOk result (λ notes. spec.AreStepNotes script.now notes.items) }
{
    match read_steps(alloc, script) {
        Ok(steps) => notes_on(alloc, &steps),
        Err(ScriptError::Memory) => Err(AllocError),
        Err(_) => Ok(Vec::new(alloc)),
    }
}

/// Returns the notes on the events of a step script.
fn notes_on(alloc: Global, steps: &Steps) -> Result<Vec<u8>, AllocError>
    ensures { IfOk result (λ notes. spec.AreNotesOf steps.now notes.items) }
{
    let mut notes = Vec::new(alloc);
    let mut core = open(steps);
    let mut number = 0;
    for event in steps.events() {
        number += 1;
        push_if_refused(&mut notes, &mut core, number, event)?;
    }
    Ok(notes)
}

/// Opens the line that a step script describes.
fn open(steps: &Steps) -> Core
    ensures { result ≡ first (line_of steps.now) }
{
    let config = LineConfig {
        nodes: steps.nodes(),
        opening: Line64::zero(),
        lease: steps.lease(),
    };
    let Some(core) = Core::with_config(config) else {
        unreachable!();
    };
    core
}

/// Runs an event, and appends a note if the point of the node does not allow the event.
fn push_if_refused(
    notes: &mut Vec<u8>,
    core: &mut Core,
    number: u64,
    event: &Event,
) -> Result<(), AllocError>
    ensures { OnOk result (spec.IsTried number event.now core.old core.new notes.old.items
        notes.new.items) }
{
    let told = core.step(*event);
    push_note(notes, core, number, event, told)?;
    Ok(())
}

/// Appends a note on an event that was tried, if its result is a refusal.
fn push_note(
    notes: &mut Vec<u8>,
    core: &Core,
    number: u64,
    event: &Event,
    told: Result<Told, NotEnabled>,
) -> Result<(), AllocError>
    requires { IfErr told (IsRefused core.now event.now) }
    ensures { OnOk result (notes.new.items ≡ notes.old.items
        ++ spec.note_if told number event.now (point core.now (node_of event.now))) }
{
    match told {
        Ok(_) => Ok(()),
        Err(NotEnabled::Node) => Ok(()),
        Err(NotEnabled::Point) => push_refusal(notes, number, event, core.point(event.node())),
    }
}

/// Appends the note on an event of a node at this point.
fn push_refusal(
    notes: &mut Vec<u8>,
    number: u64,
    event: &Event,
    point: Point,
) -> Result<(), AllocError>
    ensures { OnOk result (notes.new.items ≡ notes.old.items
        ++ spec.refusal_text number event.now point) }
{
    push_field(notes, b"event ", number)?;
    notes.extend_from_slice(b", ")?;
    notes.extend_from_slice(step_verb(event))?;
    push_field(notes, b" ", event.node())?;
    push_field(notes, b": node ", event.node())?;
    notes.extend_from_slice(b" is at ")?;
    push_point(notes, point)?;
    notes.extend_from_slice(b", which allows ")?;
    notes.extend_from_slice(events_at(point))?;
    notes.extend_from_slice(b"\n")?;
    Ok(())
}

/// Returns the events that a point allows.
fn events_at(point: Point) -> &'static [u8]
    ensures { result.now ≡ spec.events_at point }
{
    match point {
        Point::Idle | Point::Shut => b"reset",
        Point::Ready => b"prepend",
        Point::Linking(_) => b"link",
        Point::Queued => b"load, roll",
        Point::Holding => b"home, write, close",
        Point::Leaving(_) => b"home",
        Point::Marking(_) => b"done",
        Point::Granting(_) => b"grant",
        Point::Freeing => b"freed",
        Point::Left | Point::Rolled => b"load",
    }
}
