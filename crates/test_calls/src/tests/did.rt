//! Tables of calls. Each row names a node, the call that it makes, and the expected outcome.

use crate::checked_line::{CheckedLine, Instrumented, SplitCalls};
use crate::tests::rows::expect_at;
use line_lanes::{Line64, Mask};
use qolb_model::{Enq, Out, Poll, PortState, Prep};
use std::process::Abort;

/// A call, with its outcome.
#[derive(Clone, Copy, Debug, PartialEq)]
pub(super) enum CallOutcome {
    Ask(Enq),
    Prepend(Prep),
    Link(Enq),
    Poll(Poll),
    Withdraw(Out),
    /// Whether the node's last request is clear.
    Clear(bool),
    Release,
    Shut,
    /// A write to byte 0.
    Write(u8),
    /// The holder reads this byte 0.
    Sees(u8),
    TurnsLeft(Option<u64>),
    /// No call: the port's state.
    State(PortState),
    /// No call: the atomic steps of the last call.
    Steps(u64),
}

/// Makes a call of this kind for the node, and returns its outcome. Returns `None` if there is no port, or if its state
/// forbids the call.
pub(super) fn answered<L: Instrumented + Drop>(
    row: &mut CheckedLine<L>,
    node: u64,
    call: CallOutcome,
) -> Option<CallOutcome>
where
    L::Port: Drop,
{
    match call {
        CallOutcome::Ask(_) => row.ask(node).map(CallOutcome::Ask),
        CallOutcome::Poll(_) => row.poll(node).map(CallOutcome::Poll),
        CallOutcome::Withdraw(_) => row.withdraw(node).map(CallOutcome::Withdraw),
        CallOutcome::Clear(_) => row.is_clear(node).map(CallOutcome::Clear),
        CallOutcome::TurnsLeft(_) => row.turns_left(node).map(CallOutcome::TurnsLeft),
        CallOutcome::State(_) => row.state(node).map(CallOutcome::State),
        CallOutcome::Steps(_) => row.steps(node).map(CallOutcome::Steps),
        CallOutcome::Sees(_) => row.bytes(node).map(|bytes| CallOutcome::Sees(bytes[0])),
        CallOutcome::Release => only_if(row.release(node), call),
        CallOutcome::Shut => only_if(row.shut(node), call),
        CallOutcome::Write(byte) => {
            let bytes = Line64::from_bytes([byte; 64]);
            only_if(row.write(node, Mask(1), &bytes), call)
        }
        CallOutcome::Prepend(_) | CallOutcome::Link(_) => None,
    }
}

/// Returns the call if its node held the line.
fn only_if(held: Option<bool>, call: CallOutcome) -> Option<CallOutcome> {
    match held {
        Some(true) => Some(call),
        _ => None,
    }
}

/// Makes a call as `answered` does, on a line on which a node can also ask by two calls.
fn answered_by_halves<L: SplitCalls + Drop>(
    row: &mut CheckedLine<L>,
    node: u64,
    call: CallOutcome,
) -> Option<CallOutcome>
where
    L::Port: Drop,
{
    match call {
        CallOutcome::Prepend(_) => row.prepend(node).map(CallOutcome::Prepend),
        CallOutcome::Link(_) => row.link(node).map(CallOutcome::Link),
        _ => answered(row, node, call),
    }
}

/// Makes the calls one after another, and expects these outcomes.
pub(super) fn expect<R: Abort, L: Instrumented + Drop>(
    rt: &R,
    row: &mut CheckedLine<L>,
    calls: &[(u64, CallOutcome)],
)
where
    L::Port: Drop,
{
    for (at, (node, wanted)) in calls.iter().enumerate() {
        let found = answered(row, *node, *wanted);
        expect_at(rt, &at, found, Some(*wanted));
    }
}

/// Does so on a line on which a node can also ask by two calls.
pub(super) fn expect_by_halves<R: Abort, L: SplitCalls + Drop>(
    rt: &R,
    row: &mut CheckedLine<L>,
    calls: &[(u64, CallOutcome)],
)
where
    L::Port: Drop,
{
    for (at, (node, wanted)) in calls.iter().enumerate() {
        let found = answered_by_halves(row, *node, *wanted);
        expect_at(rt, &at, found, Some(*wanted));
    }
}
