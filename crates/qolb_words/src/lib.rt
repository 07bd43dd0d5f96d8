//! The words that name the commands of a schedule, the events of a step script, and the points of the lock algorithm at
//! which a node can be. The crates that write notes and draw pictures use these words.
#![tactic(auto)]

ghost use Rattle.std.specs.Prelude.{◌≡◌, ◌++◌, OnOk, decimal, flat_map};
ghost use Rattle.qolb_words.specs.Words as spec;

use itoa::Buffer;
use link_core::{Event, Point};
use qolb_script::Command;
use std::alloc::{AllocError, Allocator};

/// One piece of a text that is built from pieces.
#[derive(Clone, Copy)]
pub enum Piece<'a> {
    /// Some words.
    Words(&'a [u8]),
    /// A number, in decimal digits.
    Number(u64),
    /// A number in decimal digits, or nothing.
    Maybe(Option<u64>),
}

/// Appends a number in decimal digits.
fn push_number<A: Allocator>(text: &mut Vec<u8, A>, number: u64) -> Result<(), AllocError>
    ensures { OnOk result (text.new.items ≡ text.old.items ++ decimal number) }
{
    let mut buffer = Buffer::new();
    let digits = buffer.format(number);
    text.extend_from_slice(digits.as_bytes())?;
    Ok(())
}

/// Appends a piece to the text.
fn push_piece<A: Allocator>(text: &mut Vec<u8, A>, piece: &Piece) -> Result<(), AllocError>
    ensures { OnOk result (text.new.items ≡ text.old.items ++ spec.piece_text piece.now) }
{
    match *piece {
        Piece::Words(words) => text.extend_from_slice(words)?,
        Piece::Number(number) | Piece::Maybe(Some(number)) => push_number(text, number)?,
        Piece::Maybe(None) => {}
    }
    Ok(())
}

/// Appends several pieces, one after another.
pub fn push_all<A: Allocator>(text: &mut Vec<u8, A>, pieces: &[Piece]) -> Result<(), AllocError>
    ensures { OnOk result (text.new.items ≡ text.old.items
        ++ flat_map spec.piece_text pieces.now) }
{
    for piece in pieces {
        push_piece(text, piece)?;
    }
    Ok(())
}

/// Appends some words and a number after them.
pub fn push_field<A: Allocator>(
    text: &mut Vec<u8, A>,
    words: &[u8],
    number: u64,
) -> Result<(), AllocError>
    ensures { OnOk result (text.new.items ≡ text.old.items ++ spec.field words.now number) }
{
    text.extend_from_slice(words)?;
    push_number(text, number)?;
    Ok(())
}

/// Returns the first word of a command.
pub fn verb(command: &Command) -> &'static [u8]
    ensures { result.now ≡ spec.verb_of command.now }
{
    match *command {
        Command::Enq { .. } => b"enq",
        Command::Poll { .. } => b"poll",
        Command::Show { .. } => b"show",
        Command::Deq { .. } => b"deq",
        Command::Out { .. } => b"out",
        Command::Shut { .. } => b"shut",
        Command::Write { .. } => b"write",
    }
}

/// Returns the first word of an event.
pub fn step_verb(event: &Event) -> &'static [u8]
    ensures { result.now ≡ spec.step_verb event.now }
{
    match *event {
        Event::Reset(_) => b"reset",
        Event::Prepend(_) => b"prepend",
        Event::Link(_) => b"link",
        Event::Load(_) => b"load",
        Event::Home(_) => b"home",
        Event::Done(_) => b"done",
        Event::Grant(_) => b"grant",
        Event::Roll(_) => b"roll",
        Event::Freed(_) => b"freed",
        Event::Write(..) => b"write",
        Event::Close(_) => b"close",
    }
}

/// Appends some words, and a node after them if there is one.
pub fn push_named<A: Allocator>(
    text: &mut Vec<u8, A>,
    words: &[u8],
    node: Option<u64>,
) -> Result<(), AllocError>
    ensures { OnOk result (text.new.items ≡ text.old.items ++ spec.named words.now node) }
{
    match node {
        Some(node) => push_field(text, words, node)?,
        None => text.extend_from_slice(words)?,
    }
    Ok(())
}

/// Returns the words for a point, without the node that the point names.
pub fn point_name(point: Point) -> &'static [u8]
    ensures { result.now ≡ spec.point_name point }
{
    match point {
        Point::Idle => b"Idle",
        Point::Ready => b"Ready",
        Point::Linking(_) => b"Linking ",
        Point::Queued => b"Queued",
        Point::Holding => b"Holding",
        Point::Leaving(_) => b"Leaving ",
        Point::Marking(_) => b"Marking ",
        Point::Granting(_) => b"Granting ",
        Point::Freeing => b"Freeing",
        Point::Left => b"Left",
        Point::Rolled => b"Rolled",
        Point::Shut => b"Shut",
    }
}

/// Returns the node that a point names, or `None` if it names none.
pub fn named_by(point: Point) -> Option<u64>
    ensures { result ≡ spec.named_by point }
{
    match point {
        Point::Linking(node)
        | Point::Leaving(node)
        | Point::Marking(node)
        | Point::Granting(node) => Some(node),
        _ => None,
    }
}

/// Appends a point, with the node that it names.
pub fn push_point<A: Allocator>(text: &mut Vec<u8, A>, point: Point) -> Result<(), AllocError>
    ensures { OnOk result (text.new.items ≡ text.old.items ++ spec.point_words point) }
{
    push_named(text, point_name(point), named_by(point))?;
    Ok(())
}
