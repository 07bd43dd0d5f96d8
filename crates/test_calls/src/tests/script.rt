//! Reads calls from text. A step consists of a node, a call and its answer, for example `2 enq queued`, and semicolons
//! separate the steps.

use crate::checked_line::{CheckedLine, Instrumented};
use crate::tests::did::{CallOutcome, answered};
use crate::tests::rows::expect_eq;
use line_lanes::Line64;
use qolb_model::{Enq, FinishError, LineConfig, Out, Poll, PortState};
use std::alloc::Global;
use std::process::Abort;
use std::test::Fail;

/// The meaning of a call and its answer.
static SAID: [(&str, &str, CallOutcome); 20] = [
    ("enq", "granted", CallOutcome::Ask(Enq::Granted)),
    ("enq", "queued", CallOutcome::Ask(Enq::Queued)),
    ("enq", "busy", CallOutcome::Ask(Enq::Busy)),
    ("enq", "closed", CallOutcome::Ask(Enq::Closed)),
    ("poll", "granted", CallOutcome::Poll(Poll::Granted)),
    ("poll", "waiting", CallOutcome::Poll(Poll::Waiting)),
    ("poll", "closed", CallOutcome::Poll(Poll::Closed)),
    ("out", "granted", CallOutcome::Withdraw(Out::Granted)),
    ("out", "withdrawn", CallOutcome::Withdraw(Out::Withdrawn)),
    ("out", "closed", CallOutcome::Withdraw(Out::Closed)),
    ("clear", "yes", CallOutcome::Clear(true)),
    ("clear", "no", CallOutcome::Clear(false)),
    ("deq", "done", CallOutcome::Release),
    ("shut", "done", CallOutcome::Shut),
    ("is", "idle", CallOutcome::State(PortState::Idle)),
    ("is", "queued", CallOutcome::State(PortState::Queued)),
    ("is", "holding", CallOutcome::State(PortState::Holding)),
    ("is", "rolled", CallOutcome::State(PortState::Rolled)),
    ("is", "shut", CallOutcome::State(PortState::Shut)),
    ("turns", "endless", CallOutcome::TurnsLeft(None)),
];

/// The meaning of a call whose answer is a number.
fn counted(call: &str, number: u64) -> Option<CallOutcome> {
    match call {
        "steps" => Some(CallOutcome::Steps(number)),
        "turns" => Some(CallOutcome::TurnsLeft(Some(number))),
        "write" => Some(CallOutcome::Write(u8::try_from(number).ok()?)),
        "sees" => Some(CallOutcome::Sees(u8::try_from(number).ok()?)),
        _ => None,
    }
}

/// The call with its answer.
fn said(call: &str, answer: &str) -> Option<CallOutcome> {
    match answer.parse::<u64>() {
        Ok(number) => counted(call, number),
        Err(_) => {
            let found = SAID.iter().find(|it| it.0 == call && it.1 == answer)?;
            Some(found.2)
        }
    }
}

/// The node and the call of a step.
fn step(text: &str) -> Option<(u64, CallOutcome)> {
    let mut words = text.split_whitespace();
    let node = words.next()?.parse::<u64>().ok()?;
    let call = words.next()?;
    let answer = words.next()?;
    Some((node, said(call, answer)?))
}

/// The first step, counted from 0, whose answer differs from the text or that cannot be read.
fn first_difference<L: Instrumented + Drop>(row: &mut CheckedLine<L>, script: &str) -> Option<usize>
where
    L::Port: Drop,
{
    if script.is_empty() {
        return None;
    }
    for (at, text) in script.split(';').enumerate() {
        let Some((node, wanted)) = step(text) else {
            return Some(at);
        };
        if answered(row, node, wanted) != Some(wanted) {
            return Some(at);
        }
    }
    None
}

/// The outcome of a script: the first step that differs, why the line did not finish after the calls, and its bytes at
/// the end.
#[derive(Clone, Copy, Debug, PartialEq)]
struct Outcome {
    differs: Option<usize>,
    refused: Option<FinishError>,
    end: Option<[u8; 64]>,
}

/// The nodes of a line, its lease, the calls, and the calls after `finish` was refused; why `finish` was refused, and
/// byte 0 at the end (the other bytes are 0).
type Script = (
    u64,
    Option<u64>,
    &'static str,
    &'static str,
    Option<FinishError>,
    Option<u8>,
);

static SCRIPTS: [Script; 8] = [
    // a node is busy until the release that passes it
    (
        3,
        None,
        "2 steps 0; 1 enq granted; 2 enq queued; 3 enq queued; 2 out withdrawn; 2 enq busy; 1 deq done; 2 enq queued; 3 poll granted; 3 deq done; 2 poll granted",
        "2 deq done",
        Some(FinishError::Unquiet(2)),
        Some(0),
    ),
    // a node that withdrew is not clear until a release passes it, which `is_clear` finds by one step; any other port
    // that may ask is clear without a step
    (
        3,
        None,
        "1 clear yes; 1 enq granted; 2 enq queued; 3 enq queued; 2 out withdrawn; 2 clear no; 2 steps 1; 2 enq busy; 1 deq done; 1 clear yes; 1 steps 0; 2 clear yes; 2 steps 1; 2 enq queued; 3 poll granted; 3 shut done; 3 clear yes; 2 poll closed; 2 clear yes; 2 is shut",
        "",
        None,
        Some(0),
    ),
    // a node withdraws after a release granted it the line
    (
        2,
        None,
        "1 enq granted; 2 enq queued; 1 deq done; 2 out granted; 2 deq done",
        "",
        None,
        Some(0),
    ),
    // two wait when the line is closed, and are told in turn; a node that asks then is told at once
    (
        3,
        None,
        "1 enq granted; 2 enq queued; 3 enq queued; 1 shut done; 3 poll waiting; 2 poll closed; 3 poll closed; 1 enq closed; 2 enq closed",
        "",
        None,
        Some(0),
    ),
    // two turns, and no more
    (
        2,
        Some(2),
        "1 enq granted; 1 turns 2; 1 write 7; 2 enq queued; 1 deq done; 1 is idle; 2 poll granted; 2 turns 1; 1 enq queued; 2 deq done; 2 is shut; 1 poll closed; 2 enq closed",
        "",
        None,
        Some(7),
    ),
    // a turn at a line without a lease
    (
        1,
        None,
        "1 enq granted; 1 turns endless",
        "",
        Some(FinishError::Unquiet(1)),
        None,
    ),
    // four ask, and are served in the order in which they asked
    (
        4,
        None,
        "4 enq granted; 3 enq queued; 1 enq queued; 2 enq queued; 4 deq done; 1 poll waiting; 3 poll granted; 3 deq done; 2 poll waiting; 1 poll granted; 1 deq done; 2 poll granted",
        "2 deq done",
        Some(FinishError::Unquiet(2)),
        Some(0),
    ),
    // one holds and one waits; then both have had their turn
    (
        2,
        None,
        "1 enq granted; 1 write 7; 2 enq queued",
        "1 deq done; 2 poll granted; 2 deq done",
        Some(FinishError::Unquiet(1)),
        Some(7),
    ),
];

/// Runs the script over a line of this type.
fn ran<L: Instrumented + Drop>(alloc: Global, script: &Script) -> Option<Outcome>
where
    L::Port: Drop,
{
    let (nodes, lease, calls, then, _, _) = *script;
    let config = LineConfig {
        nodes,
        opening: Line64::zero(),
        lease,
    };
    let mut row = CheckedLine::<L>::open(alloc, 7, config).ok()?;
    let differs = first_difference(&mut row, calls);
    match row.finish(alloc) {
        Ok(line) => Some(Outcome {
            differs,
            refused: None,
            end: Some(line.to_bytes()),
        }),
        Err((why, back)) => Some(went_on(alloc, back, differs, why, then)),
    }
}

/// Makes the calls that follow a refused `finish`, and finishes the line.
fn went_on<L: Instrumented + Drop>(
    alloc: Global,
    row: CheckedLine<L>,
    differs: Option<usize>,
    why: FinishError,
    then: &str,
) -> Outcome
where
    L::Port: Drop,
{
    let mut row = row;
    let later = first_difference(&mut row, then);
    Outcome {
        differs: differs.or(later),
        refused: Some(why),
        end: row.finish(alloc).ok().map(|line| line.to_bytes()),
    }
}

/// A line of zeros except for byte 0.
fn written_first(byte: u8) -> [u8; 64] {
    let mut bytes = [0; 64];
    bytes[0] = byte;
    bytes
}

/// Runs each script.
pub(super) fn each_script<R: Abort, L: Instrumented + Drop>(rt: &R, alloc: Global)
where
    L::Port: Drop,
{
    for script in &SCRIPTS {
        let want = Outcome {
            differs: None,
            refused: script.4,
            end: script.5.map(written_first),
        };
        expect_eq(rt, script.2, ran::<L>(alloc, script), Some(want));
    }
}
