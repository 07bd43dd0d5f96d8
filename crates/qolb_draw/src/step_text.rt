//! Draws a step script as plain text: a heading with the numbers of the nodes, followed by a line of text for each
//! event.
ghost use Rattle.std.specs.Prelude.{◌≡◌, ◌≤◌, ◌++◌, IfOk, OnOk};
ghost use Rattle.std.specs.List.{range_with_len};
ghost use Rattle.qolb_model.specs.declared.config.TheConstants.{MAX_NODES};
ghost use Rattle.link_core.specs.declared.state.State.{State};
ghost use Rattle.qolb_draw.specs.StepPictures as spec;
ghost use Rattle.qolb_draw.specs.StepShapes.{Seen};

use crate::heads::{digit_at, push_heads};
use crate::step_words::{push_heard, push_place};
use link_core::{Core, Event, Point, Told};
use std::alloc::{AllocError, Allocator};

/// The legend of the letters.
pub const LETTERS: &[u8] =
    b"\n. Idle   r Ready   l Linking   w Queued   H Holding   h Leaving   m Marking\ng Granting   f Freeing   L Left   x Rolled   - Shut\n";

/// Returns the letter that shows a node at this point.
fn letter_at(point: Point) -> u8
    ensures { result ≡ spec.letter_at point }
{
    match point {
        Point::Idle => b'.',
        Point::Ready => b'r',
        Point::Linking(_) => b'l',
        Point::Queued => b'w',
        Point::Holding => b'H',
        Point::Leaving(_) => b'h',
        Point::Marking(_) => b'm',
        Point::Granting(_) => b'g',
        Point::Freeing => b'f',
        Point::Left => b'L',
        Point::Rolled => b'x',
        Point::Shut => b'-',
    }
}

/// Appends the heads of the columns of letters.
///
/// These are the numbers of all nodes, with the digits of each number below each other.
pub fn push_node_heads<A: Allocator>(
    alloc: A,
    text: &mut Vec<u8, A>,
    nodes: u64,
) -> Result<(), AllocError>
    requires { nodes ≤ MAX_NODES }
    ensures { OnOk result (text.new.items ≡ text.old.items ++ spec.node_heads nodes) }
{
    let numbers = numbers_to(alloc, nodes)?;
    push_heads(text, b"", &numbers)?;
    Ok(())
}

/// Returns the numbers of `nodes` nodes, in order.
fn numbers_to<A: Allocator>(alloc: A, nodes: u64) -> Result<Vec<u64, A>, AllocError>
    requires { nodes ≤ MAX_NODES }
    ensures { IfOk result (λ numbers. numbers.items ≡ range_with_len 1 nodes) }
{
    let mut numbers = Vec::new(alloc);
    for before in 0..nodes {
        numbers.push(before + 1)?;
    }
    Ok(numbers)
}

/// Appends the letters of all nodes.
fn push_letters<A: Allocator>(text: &mut Vec<u8, A>, core: &Core) -> Result<(), AllocError>
    ensures { OnOk result (text.new.items ≡ text.old.items ++ spec.letters_of core.now) }
{
    for before in 0..core.nodes() {
        text.push(letter_at(core.point(before + 1)))?;
    }
    Ok(())
}

/// Appends a number in six places, so that the text after the number is aligned in all lines.
fn push_number<A: Allocator>(text: &mut Vec<u8, A>, number: u64) -> Result<(), AllocError>
    ensures { OnOk result (text.new.items ≡ text.old.items ++ spec.number_text number) }
{
    text.extend_from_slice(&[
        digit_at(100_000, number),
        digit_at(10_000, number),
        digit_at(1000, number),
        digit_at(100, number),
        digit_at(10, number),
        digit_at(1, number),
    ])?;
    Ok(())
}

/// Appends the line of an event. `told` is what the event told, and `core` is the core after the event.
pub fn push_event_line<A: Allocator>(
    alloc: A,
    text: &mut Vec<u8, A>,
    column: u32,
    event: &Event,
    told: Option<Told>,
    core: &Core,
) -> Result<(), AllocError>
    ensures { OnOk result ((s : State)
        → let seen : Seen = record {
          event = event.now;
          told = told;
          before = s;
          after = core.now;
        } in text.new.items ≡ text.old.items ++ spec.event_line column seen) }
{
    push_letters(text, core)?;
    text.extend_from_slice(b" ")?;
    push_number(text, u64::from(column) + 1)?;
    text.extend_from_slice(b": ")?;
    push_heard(alloc, text, event, told)?;
    text.extend_from_slice(b"; ")?;
    push_place(text, core.place())?;
    text.extend_from_slice(b"\n")?;
    Ok(())
}
