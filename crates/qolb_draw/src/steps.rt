//! Draws the picture of a step script.
ghost use Rattle.std.specs.Prelude.{◌≡◌, ◌≤◌, ◌++◌, List, length, Err, OnOk, IfOk, IfErr};
ghost use Rattle.qolb_model.specs.declared.config.TheConstants.{MAX_NODES};
ghost use Rattle.link_core.specs.declared.state.State.{State};
ghost use Rattle.link_core.specs.State.{first};
ghost use Rattle.qolb_replay.specs.declared.input.TheConstants.{MAX_BYTES};
ghost use Rattle.qolb_replay.specs.Outcome.{HasNoStepReply};
ghost use Rattle.qolb_replay.specs.StepRuns.{line_of};
ghost use Rattle.qolb_script.specs.StepScript.{AreBegun};
ghost use Rattle.qolb_draw.specs.StepPictures.{IsDrawn, IsStepPicture, event_lines};
ghost use Rattle.qolb_draw.specs.StepShapes.{Seen, Watches, seen_shapes};
ghost use Rattle.qolb_draw.specs.StepSvg.{step_texts};
ghost use Rattle.qolb_draw.specs.declared.form.Form.TheVariants as form;

use crate::form::Form;
use crate::step_event::{push_event_shapes, words_of};
use crate::step_svg::{STEPS_LEGEND, push_lanes, step_height, step_width};
use crate::step_text::{LETTERS, push_event_line, push_node_heads};
use crate::svg::svg_of;
use line_lanes::Line64;
use link_core::Core;
use qolb_model::LineConfig;
use qolb_replay::ReplayError;
use qolb_script::{Steps, read_steps};
use std::alloc::{AllocError, Allocator};

/// Returns the picture of a step script in this form.
///
/// The picture shows a run of the script on the core of the link line. For each event, it shows the point of the
/// event's node, the words that changed, and the place of the line.
///
/// # Errors
///
/// `Memory` if memory runs out, or `Script` with the first fault of the step script.
pub fn draw_steps<A: Allocator + Copy>(
    alloc: A,
    script: &[u8],
    form: Form,
) -> Result<Vec<u8, A>, ReplayError>
    ensures ok { IfOk result (λ text. length script.now ≤ MAX_BYTES
        → IsStepPicture form script.now text.items) }
    ensures refused { IfErr result (HasNoStepReply script.now) }
    ensures memory { result ≡ Err ReplayError.Memory → AreBegun script.now }
{
    let steps = read_steps(alloc, script)?;
    Ok(picture_in(alloc, &steps, form)?)
}

/// Returns the picture of a step script in this form.
fn picture_in<A: Allocator + Copy>(
    alloc: A,
    steps: &Steps<A>,
    form: Form,
) -> Result<Vec<u8, A>, AllocError>
    ensures { IfOk result (λ text. IsDrawn form steps.now text.items) }
{
    match form {
        Form::Text => lines(alloc, steps),
        Form::Svg => timeline(alloc, steps),
    }
}

/// Returns the picture of a step script as plain text.
fn lines<A: Allocator + Copy>(alloc: A, steps: &Steps<A>) -> Result<Vec<u8, A>, AllocError>
    ensures { IfOk result (λ text. IsDrawn form.Text steps.now text.items) }
{
    let mut text = Vec::new(alloc);
    push_node_heads(alloc, &mut text, steps.nodes())?;
    push_lines(alloc, &mut text, steps)?;
    text.extend_from_slice(LETTERS)?;
    Ok(text)
}

/// Returns the picture of a step script as an SVG.
fn timeline<A: Allocator + Copy>(alloc: A, steps: &Steps<A>) -> Result<Vec<u8, A>, AllocError>
    ensures { IfOk result (λ svg. IsDrawn form.Svg steps.now svg.items) }
{
    let mut shapes = Vec::new(alloc);
    let columns = steps.events().len();
    push_lanes(&mut shapes, steps.nodes(), columns)?;
    push_shapes(alloc, &mut shapes, steps)?;
    shapes.extend_from_slice(b"</g>\n")?;
    let width = step_width(columns as u32);
    let height = step_height(steps.nodes());
    let svg = svg_of(alloc, width, height, STEPS_LEGEND, shapes)?;
    Ok(svg)
}

/// Returns the core of a script before its first event.
fn opened<A: Allocator>(steps: &Steps<A>) -> Core
    ensures core { result ≡ first (line_of steps.now) }
    ensures nodes { result.nodes ≤ MAX_NODES }
{
    let config = LineConfig {
        nodes: steps.nodes(),
        opening: Line64::zero(),
        lease: steps.lease(),
    };
    let Some(core) = Core::with_config(config) else {
        unreachable!();
    };
    core
}

/// Executes the events one after another, and appends a line for each event.
fn push_lines<A: Allocator + Copy>(
    alloc: A,
    text: &mut Vec<u8, A>,
    steps: &Steps<A>,
) -> Result<(), AllocError>
    ensures { OnOk result ((all : List Seen) × (last : State)
        × Watches (first (line_of steps.now)) steps.now.events all last
        × (text.new.items ≡ text.old.items ++ event_lines 0 all)) }
{
    let mut core = opened(steps);
    let events = steps.events();
    for column in 0..events.len() {
        let event = events[column];
        let told = core.step(event).ok();
        push_event_line(alloc, text, column as u32, &event, told, &core)?;
    }
    Ok(())
}

/// Executes the events one after another, and appends the shapes of each event.
fn push_shapes<A: Allocator + Copy>(
    alloc: A,
    svg: &mut Vec<u8, A>,
    steps: &Steps<A>,
) -> Result<(), AllocError>
    ensures { OnOk result ((all : List Seen) × (last : State)
        × Watches (first (line_of steps.now)) steps.now.events all last
        × (svg.new.items ≡ svg.old.items ++ step_texts (seen_shapes 0 steps.now.events all))) }
{
    let mut core = opened(steps);
    let events = steps.events();
    let mut words = words_of(alloc, &core)?;
    for column in 0..events.len() {
        let event = events[column];
        let told = core.step(event).ok();
        let rest = &events[column + 1..];
        push_event_shapes(
            alloc,
            svg,
            column as u32,
            &event,
            told,
            &mut words,
            &core,
            rest,
        )?;
    }
    Ok(())
}
