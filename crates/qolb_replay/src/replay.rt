//! Replays schedules. The reply consists of an answer to each command, followed by the counts of requests for each
//! line.
ghost use Rattle.std.specs.Prelude.{◌≡◌, ℕ, List, length, Ok, Err, IfOk, IfErr};
ghost use Rattle.qolb_script.specs.Script.{IsBegun};
ghost use Rattle.qolb_script.specs.Reply.{config_of, replay_start, reply_of, reply_to};
ghost use Rattle.qolb_model.specs.Opening.{MayOpen};
ghost use Rattle.qolb_model.specs.Plain.{PlainView, Agrees};
ghost use Rattle.qolb_model.specs.OneOwner.{OwnerState};
ghost use Rattle.qolb_model.specs.Whole.{ViewAndTurn, AreSynced};
ghost use Rattle.qolb_replay.specs.Tallies.{AreLinesOf};
ghost use Rattle.qolb_replay.specs.declared.replay.ReplayError.TheVariants.{Memory, Write};
ghost use Rattle.qolb_replay.specs.Outcome.{IsReply, ReplayMayFail, HasNoReply, Runs, script_error};

use crate::input::read_all;
use crate::line::{CountingLine, PortedLine, ReplayLine};
use line_lanes::Line64;
use qolb_model::{Free, LineConfig, OpenLine, PlainLine};
use qolb_script::{Fault, Schedule, ScriptError, Watched, push_said, read_schedule};
use std::alloc::{AllocError, Allocator, Global};
use std::io::{Read, Write};
use thiserror::Error;

/// The error of a script that could not be replayed.
#[derive(Clone, Copy, Debug, PartialEq, Eq, Error)]
pub enum ReplayError {
    /// An allocation failed.
    #[error("out of memory")]
    Memory,
    /// The reader failed.
    #[error("read fault")]
    Read,
    /// The input has more bytes than a script may have.
    #[error("script too long")]
    Long,
    /// The input is not a script of the expected kind.
    #[error(transparent)]
    Script(ScriptError),
    /// The writer failed, or did not take any byte.
    #[error("write fault")]
    Write,
}

impl ReplayError {
    /// Returns the number of the error.
    pub fn number(&self) -> u8
        ensures memory { self.now ≡ ReplayError.Memory → result ≡ 1 }
        ensures read { self.now ≡ ReplayError.Read → result ≡ 2 }
        ensures long { self.now ≡ ReplayError.Long → result ≡ 3 }
        ensures script { (fault : ScriptError) → self.now ≡ ReplayError.Script fault → result ≡ 4 }
        ensures write { self.now ≡ ReplayError.Write → result ≡ 5 }
    {
        match self {
            ReplayError::Memory => 1,
            ReplayError::Read => 2,
            ReplayError::Long => 3,
            ReplayError::Script(_) => 4,
            ReplayError::Write => 5,
        }
    }
}

impl From<AllocError> for ReplayError {
    ghost from_gives = { λ _ error. error ≡ Memory };

    fn from(_error: AllocError) -> ReplayError {
        ReplayError::Memory
    }
}

impl From<ScriptError> for ReplayError {
    ghost from_gives = { λ fault error. error ≡ script_error fault };

    fn from(error: ScriptError) -> ReplayError {
        match error {
            ScriptError::Memory => ReplayError::Memory,
            error => ReplayError::Script(error),
        }
    }
}

impl From<Fault> for ReplayError {
    ghost from_gives = { λ _ error. error ≡ Write };

    fn from(_fault: Fault) -> ReplayError {
        ReplayError::Write
    }
}

/// Replays the schedule from the reader on shared lines of this type, and writes the reply.
///
/// The reply is the same for every type of line. The function reads the whole input first, and builds the whole reply
/// before it writes the first byte. Therefore nothing was written unless the call succeeds or returns the error
/// `Write`.
pub fn run_schedule_over<L: OpenLine<Free> + Drop, R: Read, W: Write>(
    alloc: Global,
    reader: &mut Watched<R>,
    writer: &mut Watched<W>,
) -> Result<(), ReplayError>
where
    L::Port: Drop,
    ensures { Runs R.remaining W.contents IsReply ReplayMayFail
        reader.old reader.new writer.old writer.new result }
{
    let input = read_all(alloc, reader)?;
    let text = answered_over::<Global, L>(alloc, alloc, input.as_slice())?;
    writer.write_all(text.as_slice())?;
    Ok(())
}

/// The parameters with which the lines of a schedule are opened.
fn config_for<A: Allocator>(schedule: &Schedule<A>) -> LineConfig
    ensures { result ≡ config_of schedule.now }
{
    LineConfig {
        nodes: schedule.nodes(),
        opening: Line64::zero(),
        lease: schedule.lease(),
    }
}

/// Returns the reply to the schedule in the input, replayed on plain lines.
pub fn answered_plainly<A: Allocator + Copy>(
    alloc: A,
    input: &[u8],
) -> Result<Vec<u8, A>, ReplayError>
    ensures ok { IfOk result (λ text. reply_to input.now ≡ Ok text.items) }
    ensures refused { IfErr result (HasNoReply input.now) }
    ensures memory { result ≡ Err ReplayError.Memory → IsBegun input.now }
{
    let schedule = read_schedule(alloc, input)?;
    let lines = open_lines(alloc, &config_for(&schedule), schedule.lines())?;
    Ok(reply(alloc, &schedule, lines)?)
}

/// Returns the reply to the schedule in the input.
///
/// Shared lines and their ports are allocated from `shared`, and everything else is allocated from `alloc`.
pub fn answered_over<A: Allocator + Copy, L: OpenLine<Free> + Drop>(
    alloc: A,
    shared: Global,
    input: &[u8],
) -> Result<Vec<u8, A>, ReplayError>
where
    L::Port: Drop,
    ensures ok { IfOk result (λ text. reply_to input.now ≡ Ok text.items) }
    ensures refused { IfErr result (HasNoReply input.now) }
    ensures memory { result ≡ Err ReplayError.Memory → IsBegun input.now }
{
    let schedule = read_schedule(alloc, input)?;
    let lines = open_ported::<A, L>(alloc, shared, &config_for(&schedule), schedule.lines())?;
    Ok(reply(alloc, &schedule, lines)?)
}

/// Returns the reply to a schedule, replayed on these lines, which have not answered any command yet.
fn reply<A: Allocator, R: ReplayLine + Drop>(
    alloc: A,
    schedule: &Schedule<A>,
    lines: Vec<CountingLine<R>, A>,
) -> Result<Vec<u8, A>, AllocError>
    requires { AreLinesOf R.represents R.nodes_of schedule.now.nodes
        (replay_start (config_of schedule.now) schedule.now.lines) lines.items }
    ensures { IfOk result (λ text. text.items ≡ reply_of schedule.now) }
{
    let nodes = schedule.nodes();
    let mut lines = lines;
    let mut text = Vec::new(alloc);
    for command in schedule.commands() {
        let said = lines[command.line() as usize].take(command);
        push_said(&mut text, &said)?;
    }
    for (number, line) in lines.iter().enumerate() {
        push_said(&mut text, &line.summary(number as u64, nodes))?;
    }
    Ok(text)
}

/// Returns plain lines that were opened with these parameters and have not answered any command yet.
fn open_lines<A: Allocator>(
    alloc: A,
    config: &LineConfig,
    lines: u64,
) -> Result<Vec<CountingLine<PlainLine>, A>, AllocError>
    requires bytes { length config.now.opening.bytes ≡ 64 }
    requires may_open { MayOpen config.now }
    ensures { IfOk result (λ all. AreLinesOf Agrees (λ (line : PlainView).
        line.nodes) config.now.nodes (replay_start config.now lines) all.items) }
{
    let mut all = Vec::with_capacity(alloc, lines as usize)?;
    for _ in 0..lines {
        let Ok(line) = PlainLine::with_config(*config) else {
            unreachable!();
        };
        all.push(CountingLine::new(line))?;
    }
    Ok(all)
}

/// Returns shared lines that were opened with these parameters and have not answered any command yet.
fn open_ported<A: Allocator, L: OpenLine<Free> + Drop>(
    alloc: A,
    shared: Global,
    config: &LineConfig,
    lines: u64,
) -> Result<Vec<CountingLine<PortedLine<L>>, A>, AllocError>
where
    L::Port: Drop,
    requires bytes { length config.now.opening.bytes ≡ 64 }
    requires may_open { MayOpen config.now }
    ensures { IfOk result (λ all. AreLinesOf (λ (ports : List ViewAndTurn) (s : OwnerState).
        AreSynced s ports) (λ (ports : List ViewAndTurn). length ports) config.now.nodes
        (replay_start config.now lines) all.items) }
{
    let mut all = Vec::with_capacity(alloc, lines as usize)?;
    for number in 0..lines {
        let Ok((line, ports)) = L::open_with(shared, number, *config) else {
            return Err(AllocError);
        };
        all.push(CountingLine::new(PortedLine::new(line, ports)))?;
    }
    Ok(all)
}
