//! Draws the picture of a schedule.
ghost use Rattle.std.specs.Prelude.{◌≡◌, Ok, Err, IfOk, IfErr, max};
ghost use Rattle.qolb_script.specs.Script.{IsBegun};
ghost use Rattle.qolb_replay.specs.Outcome.{HasNoReply};
ghost use Rattle.qolb_draw.specs.Pictures.{picture_of, picture_to, in_form};
ghost use Rattle.qolb_draw.specs.Timelines.{svg_of};

use crate::form::Form;
use crate::grid::draw_line;
use crate::svg;
use crate::text::{LEGEND, push_line};
use crate::timeline::push_timeline;
use qolb_replay::ReplayError;
use qolb_script::{Schedule, read_schedule};
use std::alloc::{AllocError, Allocator};

/// Returns the picture of a schedule in this form.
///
/// The picture shows the states of the nodes in a replay of the schedule by plain lines.
///
/// # Errors
///
/// `Memory` if memory runs out, or `Script` with the first fault of the schedule.
pub fn draw_schedule<A: Allocator + Copy>(
    alloc: A,
    script: &[u8],
    form: Form,
) -> Result<Vec<u8, A>, ReplayError>
    ensures ok { IfOk result (λ text. picture_to form script.now ≡ Ok text.items) }
    ensures refused { IfErr result (HasNoReply script.now) }
    ensures memory { result ≡ Err ReplayError.Memory → IsBegun script.now }
{
    let schedule = read_schedule(alloc, script)?;
    Ok(picture_in(alloc, &schedule, form)?)
}

/// Returns the picture of a schedule in this form.
fn picture_in<A: Allocator + Copy>(
    alloc: A,
    schedule: &Schedule<A>,
    form: Form,
) -> Result<Vec<u8, A>, AllocError>
    ensures { IfOk result (λ text. text.items ≡ in_form form schedule.now) }
{
    match form {
        Form::Text => picture(alloc, schedule),
        Form::Svg => timeline(alloc, schedule),
    }
}

/// Returns the picture of a schedule as plain text.
fn picture<A: Allocator + Copy>(alloc: A, schedule: &Schedule<A>) -> Result<Vec<u8, A>, AllocError>
    ensures { IfOk result (λ text. text.items ≡ picture_of schedule.now) }
{
    let mut text = Vec::new(alloc);
    for number in 0..schedule.lines() {
        let grid = draw_line(alloc, schedule, number)?;
        push_line(alloc, &mut text, &grid, number)?;
    }
    text.extend_from_slice(LEGEND)?;
    Ok(text)
}

/// Returns the timeline of a schedule as an SVG.
fn timeline<A: Allocator + Copy>(alloc: A, schedule: &Schedule<A>) -> Result<Vec<u8, A>, AllocError>
    ensures { IfOk result (λ svg. svg.items ≡ svg_of schedule.now) }
{
    let mut lines = Vec::new(alloc);
    let mut top = 64;
    let mut width = 640;
    for number in 0..schedule.lines() {
        let grid = draw_line(alloc, schedule, number)?;
        let rows = push_timeline(alloc, &mut lines, &grid, number, top)?;
        top += 60 + 40 * rows;
        width = wider(width, 128 + 32 * grid.numbers.len() as u64);
    }
    let svg = svg::svg_of(alloc, width, top, svg::LEGEND, lines)?;
    Ok(svg)
}

/// Returns the larger of two widths.
fn wider(one: u64, other: u64) -> u64
    ensures { result ≡ max one other }
{
    if one < other { other } else { one }
}
