//! Writes a note on each misused call of a schedule. The note names the state of the node and the commands that this
//! state allows.
ghost use Rattle.std.specs.Prelude.{◌≡◌, ◌≤◌, ◌++◌, Ok, IfOk, OnOk};
ghost use Rattle.qolb_model.specs.OneOwner.{OwnerState, opened};
ghost use Rattle.qolb_model.specs.Plain.{Agrees};
ghost use Rattle.qolb_script.specs.Commands.{node_of};
ghost use Rattle.qolb_script.specs.Reply.{config_of};
ghost use Rattle.qolb_words.specs.Words.{is_misuse};
ghost use Rattle.qolb_explain.specs.Notes as spec;

use line_lanes::Line64;
use qolb_model::{LineConfig, PlainLine, PortState};
use qolb_replay::ReplayLine;
use qolb_script::{Command, Said, Schedule, ScriptError, read_schedule};
use qolb_words::{push_field, verb};
use std::alloc::{AllocError, Global};

/// Returns a note, which is a line of text, for each misused command of a schedule.
///
/// A note names the state of the node and the commands that this state allows. The notes are grouped by the lines of
/// the schedule. The text is empty if the script is refused.
pub fn notes_of_schedule(alloc: Global, script: &[u8]) -> Result<Vec<u8>, AllocError>
    ensures { IfOk result (λ notes. notes.items ≡ spec.schedule_notes script.now) }
{
    match read_schedule(alloc, script) {
        Ok(schedule) => notes_on(alloc, &schedule),
        Err(ScriptError::Memory) => Err(AllocError),
        Err(_) => Ok(Vec::new(alloc)),
    }
}

/// Returns the notes on the commands of a schedule.
fn notes_on(alloc: Global, schedule: &Schedule) -> Result<Vec<u8>, AllocError>
    ensures { IfOk result (λ notes. notes.items ≡ spec.script_notes (Ok schedule.now)) }
{
    let mut notes = Vec::new(alloc);
    for line in 0..schedule.lines() {
        push_misuses(&mut notes, schedule, line)?;
    }
    Ok(notes)
}

/// Opens a line as the schedule describes it.
fn open(schedule: &Schedule) -> PlainLine
    ensures nodes { result.nodes ≡ schedule.now.nodes }
    ensures opened { Agrees result (opened (config_of schedule.now)) }
{
    let config = LineConfig {
        nodes: schedule.nodes(),
        opening: Line64::zero(),
        lease: schedule.lease(),
    };
    let Ok(plain) = PlainLine::with_config(config) else {
        unreachable!();
    };
    plain
}

/// Appends the notes on those commands of a schedule that concern one line.
fn push_misuses(notes: &mut Vec<u8>, schedule: &Schedule, line: u64) -> Result<(), AllocError>
    ensures { OnOk result (notes.new.items ≡ notes.old.items
        ++ spec.line_notes schedule.now line) }
{
    let mut plain = open(schedule);
    let mut number = 0;
    for command in schedule.commands() {
        number += 1;
        push_if_misuse(notes, &mut plain, line, number, command)?;
    }
    Ok(())
}

/// Executes a command if it concerns this line, and appends a note if the command is misuse.
fn push_if_misuse(
    notes: &mut Vec<u8>,
    plain: &mut PlainLine,
    line: u64,
    number: u64,
    command: &Command,
) -> Result<(), AllocError>
    requires first { 1 ≤ node_of command.now }
    requires last { node_of command.now ≤ plain.old.nodes }
    ensures nodes { plain.new.nodes ≡ plain.old.nodes }
    ensures agrees { (s : OwnerState) → Agrees plain.old s
        → Agrees plain.new (spec.on_line line s command.now) }
    ensures note { (s : OwnerState) → Agrees plain.old s → OnOk result
        (notes.new.items ≡ notes.old.items ++ spec.note_on line number s command.now) }
{
    if command.line() != line {
        return Ok(());
    }
    let state = PlainLine::state(plain, command.node());
    if is_misuse(plain.answer(command)) {
        push_misuse(notes, number, command, state)?;
    }
    Ok(())
}

/// Returns `true` if this answer says that the command was misuse.
fn is_misuse(said: Said) -> bool
    ensures { result ≡ is_misuse said }
{
    matches!(said, Said::Misuse)
}

/// Appends the note on a command of a node in this state.
fn push_misuse(
    notes: &mut Vec<u8>,
    number: u64,
    command: &Command,
    state: PortState,
) -> Result<(), AllocError>
    ensures { OnOk result (notes.new.items ≡ notes.old.items
        ++ spec.misuse_text number command.now state) }
{
    push_field(notes, b"command ", number)?;
    notes.extend_from_slice(b", ")?;
    notes.extend_from_slice(verb(command))?;
    push_field(notes, b" ", command.node())?;
    push_field(notes, b" ", command.line())?;
    push_field(notes, b": node ", command.node())?;
    notes.extend_from_slice(b" ")?;
    notes.extend_from_slice(words_of_state(state))?;
    notes.extend_from_slice(b"\n")?;
    Ok(())
}

/// Returns a description of a state, and the commands that the state allows.
fn words_of_state(state: PortState) -> &'static [u8]
    ensures { result.now ≡ spec.state_words state }
{
    match state {
        PortState::Queued => b"waits, which allows poll, out",
        PortState::Holding => b"holds, which allows write, show, deq, shut",
        PortState::Linking => b"asks, which allows nothing",
        PortState::Idle | PortState::Left | PortState::Rolled | PortState::Shut => {
            b"neither waits nor holds, which allows enq"
        }
    }
}
