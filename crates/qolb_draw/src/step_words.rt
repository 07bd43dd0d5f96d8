//! Writes parts of a step script's picture as text: an event, the place where the line's data lies, or a node's entry
//! in the queue.
ghost use Rattle.std.specs.Prelude.{◌≡◌, ◌++◌, OnOk};
ghost use Rattle.qolb_script.specs.StepReply.{step_said};
ghost use Rattle.qolb_draw.specs.StepSvg as spec;

use crate::call::{push_answer, push_written};
use link_core::{Entry, Event, Place, Point, Told};
use qolb_model::MAX_NODES;
use qolb_script::{Command, Said};
use qolb_words::{Piece, push_all, step_verb};
use std::alloc::{AllocError, Allocator};

/// Returns the class of the bar of a node at this point.
pub fn class_at(point: Point) -> &'static [u8]
    ensures { result.now ≡ spec.class_at point }
{
    match point {
        Point::Ready | Point::Linking(_) | Point::Queued => b"waits",
        Point::Holding => b"holds",
        Point::Leaving(_) | Point::Marking(_) | Point::Granting(_) | Point::Freeing => b"releases",
        Point::Rolled => b"withdrawn",
        Point::Idle | Point::Left | Point::Shut => b"rests",
    }
}

/// Returns the words that describe a place, without the number of its node.
pub fn place_name(place: Place) -> &'static [u8]
    ensures { result.now ≡ spec.place_name place }
{
    match place {
        Place::Home => b"the line lies at home",
        Place::Mailbox(_) => b"the line lies in the mailbox of node ",
        Place::Hand(_) => b"the line lies in the hand of node ",
    }
}

/// Returns the node that a place belongs to, or `None` if the place belongs to no node.
pub fn whose(place: Place) -> Option<u64>
    ensures { result ≡ spec.whose place }
{
    match place {
        Place::Home => None,
        Place::Mailbox(node) => Some(node),
        Place::Hand(node) => Some(node),
    }
}

/// Appends the words of the line's place.
pub fn push_place<A: Allocator>(text: &mut Vec<u8, A>, place: Place) -> Result<(), AllocError>
    ensures { OnOk result (text.new.items ≡ text.old.items ++ spec.place_words place) }
{
    push_all(
        text,
        &[Piece::Words(place_name(place)), Piece::Maybe(whose(place))],
    )?;
    Ok(())
}

/// Returns the row that shows a place: that of its node, or of the home word.
pub fn row_of_place(place: Place) -> u8
    ensures { result ≡ spec.row_of_place place }
{
    match place {
        Place::Home => 0,
        Place::Mailbox(node) => node.min(MAX_NODES) as u8,
        Place::Hand(node) => node.min(MAX_NODES) as u8,
    }
}

/// Returns the class of the bar of a line at this place.
pub fn class_of_place(place: Place) -> &'static [u8]
    ensures { result.now ≡ spec.class_of_place place }
{
    match place {
        Place::Home => b"home",
        Place::Mailbox(_) => b"mailbox",
        Place::Hand(_) => b"hand",
    }
}

/// Returns the letter if the flag is set, and nothing otherwise.
fn letter_if(flag: bool, letter: &'static [u8]) -> &'static [u8]
    ensures { result.now ≡ spec.letter_if flag letter.now }
{
    if flag { letter } else { b"" }
}

/// Appends an entry: a letter for each flag that is set, and the link.
pub fn push_entry<A: Allocator>(text: &mut Vec<u8, A>, entry: &Entry) -> Result<(), AllocError>
    ensures { OnOk result (text.new.items ≡ text.old.items ++ spec.entry_words entry.now) }
{
    push_all(
        text,
        &[
            Piece::Words(letter_if(entry.granted, b"g")),
            Piece::Words(letter_if(entry.rolled, b"r")),
            Piece::Words(letter_if(entry.done, b"d")),
            Piece::Words(letter_if(entry.freed, b"f")),
            Piece::Number(entry.link),
        ],
    )?;
    Ok(())
}

/// Appends the offset and the bytes of a write, in the notation of a step script. Appends nothing for other events.
fn push_placed<A: Allocator>(
    alloc: A,
    text: &mut Vec<u8, A>,
    event: &Event,
) -> Result<(), AllocError>
    ensures { OnOk result (text.new.items ≡ text.old.items ++ spec.placed_words event.now) }
{
    if let Event::Write(node, mask, bytes) = *event {
        let write = Command::Write {
            node,
            line: 0,
            mask,
            bytes,
        };
        push_written(alloc, text, &write)?;
    }
    Ok(())
}

/// Appends an event in the notation of a step script.
fn push_event_words<A: Allocator>(
    alloc: A,
    text: &mut Vec<u8, A>,
    event: &Event,
) -> Result<(), AllocError>
    ensures { OnOk result (text.new.items ≡ text.old.items ++ spec.event_words event.now) }
{
    push_all(
        text,
        &[
            Piece::Words(step_verb(event)),
            Piece::Words(b" "),
            Piece::Number(event.node()),
        ],
    )?;
    push_placed(alloc, text, event)?;
    Ok(())
}

/// Returns the answer of an event: what it told, or that it was refused.
fn said_of(told: Option<Told>) -> Said
    ensures { result ≡ step_said told }
{
    match told {
        Some(told) => Said::Told(told),
        None => Said::Refused,
    }
}

/// Appends an event and what it told.
pub fn push_heard<A: Allocator>(
    alloc: A,
    text: &mut Vec<u8, A>,
    event: &Event,
    told: Option<Told>,
) -> Result<(), AllocError>
    ensures { OnOk result (text.new.items ≡ text.old.items ++ spec.heard_words event.now told) }
{
    push_event_words(alloc, text, event)?;
    text.extend_from_slice(b": ")?;
    push_answer(text, &said_of(told))?;
    Ok(())
}

/// Appends the event of this column, with its number and what it told.
pub fn push_told<A: Allocator>(
    alloc: A,
    text: &mut Vec<u8, A>,
    column: u32,
    event: &Event,
    told: Option<Told>,
) -> Result<(), AllocError>
    ensures { OnOk result (text.new.items ≡ text.old.items
        ++ spec.told_words column event.now told) }
{
    push_all(
        text,
        &[Piece::Number(u64::from(column) + 1), Piece::Words(b": ")],
    )?;
    push_heard(alloc, text, event, told)?;
    Ok(())
}

/// Returns the sign of an event with this answer.
pub fn sign_at(told: Option<Told>) -> &'static [u8]
    ensures { result.now ≡ spec.sign_at told }
{
    match told {
        Some(Told::Withdrawn) => b"out",
        Some(Told::Closed) => b"told",
        None => b"misuse",
        _ => b"call",
    }
}
