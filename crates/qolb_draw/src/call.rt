//! Writes a command and its answer as text.
ghost use Rattle.std.specs.Prelude.{◌≡◌, ◌++◌, ◌∷◌, [], ◌<◌, ◌≤◌, ◌/◌, ◌%◌, OnOk, IfOk, flat_map, slice_index};
ghost use Rattle.std.specs.List.{All};
ghost use Rattle.qolb_script.specs.Said.{said_words};
ghost use Rattle.qolb_draw.specs.Svg as spec;
ghost use Rattle.qolb_draw.specs.Shapes.{places_in};

use line_lanes::Mask;
use link_core::Told;
use qolb_model::{Enq, Out, Poll};
use qolb_script::{Command, Said, push_said};
use qolb_words::{push_field, verb};
use std::alloc::{AllocError, Allocator};

/// The digits of hex numbers.
const DIGITS: &[u8] = b"0123456789abcdef";

/// Returns the sign of a command with this answer.
pub fn sign(said: &Said) -> &'static [u8]
    ensures { result.now ≡ spec.sign_of said.now }
{
    match *said {
        Said::Out(Out::Withdrawn) => b"out",
        Said::Misuse => b"misuse",
        Said::Enq(Enq::Closed)
        | Said::Poll(Poll::Closed)
        | Said::Out(Out::Closed)
        | Said::Told(Told::Closed) => b"told",
        _ => b"call",
    }
}

/// Returns the places of a line that a mask selects, in ascending order.
pub fn places<A: Allocator>(alloc: A, mask: Mask) -> Result<Vec<u8, A>, AllocError>
    ensures { IfOk result (λ places. places.items ≡ places_in mask.0) }
{
    let mut places = Vec::new(alloc);
    for place in 0..64u8 {
        if (mask.0 >> place) % 2 == 1 {
            places.push(place)?;
        }
    }
    Ok(places)
}

/// Returns the first of these places, or 0 if there is none.
fn first_of(places: &[u8]) -> u8
    ensures { result ≡ slice_index places.now 0 }
{
    places.first().copied().unwrap_or(0)
}

/// Returns the byte at a place of a line.
fn byte_at(bytes: &[u8; 64], place: u8) -> u8
    ensures { result ≡ slice_index bytes.now place }
{
    if place < 64 { bytes[place as usize] } else { 0 }
}

/// Returns the hex digit of a number.
fn digit(number: u8) -> u8
    requires { number < 16 }
    ensures { result ≡ spec.digit_of number }
{
    DIGITS[number as usize]
}

/// Appends the bytes of these places of a line, in hex.
fn push_hex<A: Allocator>(
    text: &mut Vec<u8, A>,
    bytes: &[u8; 64],
    places: &[u8],
) -> Result<(), AllocError>
    ensures { OnOk result (text.new.items ≡ text.old.items ++ spec.hex_of bytes.now places.now) }
{
    for place in places {
        let byte = byte_at(bytes, *place);
        text.extend_from_slice(&[digit(byte / 16), digit(byte % 16)])?;
    }
    Ok(())
}

/// Appends the first two of these bytes, and dots if there are more.
pub fn push_shortened<A: Allocator>(
    text: &mut Vec<u8, A>,
    bytes: &[u8; 64],
    places: &[u8],
) -> Result<(), AllocError>
    ensures { OnOk result (text.new.items ≡ text.old.items ++ spec.shortened bytes.now places.now) }
{
    push_hex(text, bytes, &places[..places.len().min(2)])?;
    if places.len() > 2 {
        text.extend_from_slice(b"&#8230;")?;
    }
    Ok(())
}

/// Appends a command in the notation of a schedule.
pub fn push_command<A: Allocator>(
    alloc: A,
    text: &mut Vec<u8, A>,
    command: &Command,
) -> Result<(), AllocError>
    ensures { OnOk result (text.new.items ≡ text.old.items ++ spec.command_words command.now) }
{
    text.extend_from_slice(verb(command))?;
    push_field(text, b" ", command.node())?;
    push_field(text, b" ", command.line())?;
    push_written(alloc, text, command)?;
    Ok(())
}

/// Appends the offset and the bytes of a write, in the notation of a schedule. Appends nothing for other commands.
pub fn push_written<A: Allocator>(
    alloc: A,
    text: &mut Vec<u8, A>,
    command: &Command,
) -> Result<(), AllocError>
    ensures { OnOk result (text.new.items ≡ text.old.items ++ spec.written_words command.now) }
{
    if let Command::Write { mask, bytes, .. } = *command {
        let places = places(alloc, mask)?;
        push_field(text, b" ", u64::from(first_of(&places)))?;
        text.extend_from_slice(b" ")?;
        push_hex(text, &bytes.bytes, &places)?;
    }
    Ok(())
}

/// Appends the words of an answer.
pub fn push_answer<A: Allocator>(text: &mut Vec<u8, A>, said: &Said) -> Result<(), AllocError>
    ensures { OnOk result (text.new.items ≡ text.old.items ++ said_words said.now) }
{
    push_said(text, said)?;
    // Removes the newline that `push_said` appends.
    text.pop();
    Ok(())
}
