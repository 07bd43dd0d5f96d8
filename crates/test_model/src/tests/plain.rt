//! Tests the plain line, call by call, and the configurations with which a line can be opened.
ghost use Rattle.std.specs.Prelude.{◌≡◌};

use crate::tests::rows::{expect, expect_at};
use line_lanes::{Line64, Mask};
use qolb_model::{Enq, LineConfig, OpenError, Out, PlainLine, Poll, PortState, Write};
use std::process::Abort;
use std::test::Fail;

/// A call, together with its outcome.
#[derive(Clone, Copy, Debug, PartialEq)]
enum CallOutcome {
    Enq(Enq),
    Poll(Poll),
    Out(Out),
    /// A query whether the node's last request is clear.
    Clear(bool),
    Deq,
    Shut,
    /// A write to bytes 0 and 1.
    Wrote(u8, u8),
    /// A read by the holder, which finds these values in bytes 0, 1 and 2.
    Sees(u8, u8, u8),
    TurnsLeft(Option<u64>),
    /// A look at the state of the node, without a call.
    State(PortState),
}

/// Makes a call of this kind for the node, and returns the outcome.
fn done(line: &mut PlainLine, nodes: u64, node: u64, call: CallOutcome) -> CallOutcome
    requires { line.old.nodes ≡ nodes }
    ensures { line.new.nodes ≡ nodes }
{
    let state = line.state(node);
    match (call, state) {
        (CallOutcome::Enq(_), _) if state.may_ask() && 1 <= node && node <= nodes => {
            CallOutcome::Enq(line.enqolb(node))
        }
        (CallOutcome::Clear(_), _) if state.may_ask() && 1 <= node && node <= nodes => {
            CallOutcome::Clear(line.is_clear(node))
        }
        (CallOutcome::Poll(_), PortState::Queued) => CallOutcome::Poll(line.poll(node)),
        (CallOutcome::Out(_), PortState::Queued) => CallOutcome::Out(line.withdraw(node)),
        (CallOutcome::Deq, PortState::Holding) => {
            line.deqolb(node);
            CallOutcome::Deq
        }
        (CallOutcome::Shut, PortState::Holding) => {
            line.shut(node);
            CallOutcome::Shut
        }
        (CallOutcome::Wrote(first, second), PortState::Holding) => {
            let mut bytes = [0xff; 64];
            bytes[0] = first;
            bytes[1] = second;
            line.write(node, Mask(0b11), &Line64::from_bytes(bytes));
            CallOutcome::Wrote(first, second)
        }
        (CallOutcome::Sees(..), PortState::Holding) => {
            let seen = line.bytes(node).to_bytes();
            CallOutcome::Sees(seen[0], seen[1], seen[2])
        }
        (CallOutcome::TurnsLeft(_), PortState::Holding) => CallOutcome::TurnsLeft(line.turns_left(
            node,
        )),
        _ => CallOutcome::State(state),
    }
}

/// Makes the calls one after another on a line of zeros, and expects these outcomes.
fn expect_run<R: Abort>(
    rt: &R,
    nodes: u64,
    lease: Option<u64>,
    rows: &[(u64, CallOutcome)],
) -> Result<(), Fail> {
    let opening = Line64::zero();
    let mut line = PlainLine::with_config(LineConfig {
        nodes,
        opening,
        lease,
    })?;
    for (node, wanted) in rows {
        let found = done(&mut line, nodes, *node, *wanted);
        expect_at(rt, node, found, *wanted);
    }
    Ok(())
}

/// The number of nodes of a line, its lease, and calls with their outcomes.
static RUNS: [(u64, Option<u64>, &[(u64, CallOutcome)]); 6] = [
    // a node receives the line that another node wrote to
    (
        2,
        None,
        &[
            (1, CallOutcome::State(PortState::Idle)),
            (1, CallOutcome::Enq(Enq::Granted)),
            (1, CallOutcome::State(PortState::Holding)),
            (2, CallOutcome::State(PortState::Idle)),
            (2, CallOutcome::Enq(Enq::Queued)),
            (1, CallOutcome::Wrote(0xa1, 0xb2)),
            (2, CallOutcome::Poll(Poll::Waiting)),
            (1, CallOutcome::Deq),
            (2, CallOutcome::State(PortState::Queued)),
            (2, CallOutcome::Poll(Poll::Granted)),
            (2, CallOutcome::State(PortState::Holding)),
            (2, CallOutcome::Sees(0xa1, 0xb2, 0)),
        ],
    ),
    // a node withdraws, is therefore busy and not clear until a release skips it, and makes a new request
    (
        3,
        None,
        &[
            (1, CallOutcome::Clear(true)),
            (1, CallOutcome::Enq(Enq::Granted)),
            (2, CallOutcome::Enq(Enq::Queued)),
            (3, CallOutcome::Enq(Enq::Queued)),
            (2, CallOutcome::Out(Out::Withdrawn)),
            (2, CallOutcome::State(PortState::Rolled)),
            (2, CallOutcome::Clear(false)),
            (2, CallOutcome::Enq(Enq::Busy)),
            (1, CallOutcome::Deq),
            (1, CallOutcome::Clear(true)),
            (3, CallOutcome::Poll(Poll::Granted)),
            (2, CallOutcome::Clear(true)),
            (2, CallOutcome::State(PortState::Idle)),
            (2, CallOutcome::Enq(Enq::Queued)),
        ],
    ),
    // a node closes the line while another node waits
    (
        2,
        None,
        &[
            (1, CallOutcome::Enq(Enq::Granted)),
            (2, CallOutcome::Enq(Enq::Queued)),
            (1, CallOutcome::Shut),
            (2, CallOutcome::Poll(Poll::Closed)),
            (1, CallOutcome::State(PortState::Shut)),
            (1, CallOutcome::Clear(true)),
            (2, CallOutcome::Clear(true)),
            (1, CallOutcome::Enq(Enq::Closed)),
        ],
    ),
    // a lease of two acquisitions allows no third
    (
        2,
        Some(2),
        &[
            (1, CallOutcome::Enq(Enq::Granted)),
            (1, CallOutcome::Wrote(0x07, 0)),
            (2, CallOutcome::Enq(Enq::Queued)),
            (1, CallOutcome::TurnsLeft(Some(2))),
            (1, CallOutcome::Deq),
            (2, CallOutcome::Poll(Poll::Granted)),
            (2, CallOutcome::TurnsLeft(Some(1))),
            (2, CallOutcome::Sees(0x07, 0, 0)),
            (1, CallOutcome::Enq(Enq::Queued)),
            (2, CallOutcome::Deq),
            (1, CallOutcome::Poll(Poll::Closed)),
            (2, CallOutcome::State(PortState::Shut)),
            (2, CallOutcome::Enq(Enq::Closed)),
        ],
    ),
    // a withdrawal between the two acquisitions of a lease
    (
        3,
        Some(2),
        &[
            (1, CallOutcome::Enq(Enq::Granted)),
            (2, CallOutcome::Enq(Enq::Queued)),
            (3, CallOutcome::Enq(Enq::Queued)),
            (2, CallOutcome::Out(Out::Withdrawn)),
            (1, CallOutcome::Deq),
            (3, CallOutcome::Poll(Poll::Granted)),
            (3, CallOutcome::TurnsLeft(Some(1))),
        ],
    ),
    // a line without a lease does not count acquisitions
    (
        33,
        None,
        &[
            (33, CallOutcome::Enq(Enq::Granted)),
            (33, CallOutcome::TurnsLeft(None)),
            (34, CallOutcome::State(PortState::Idle)),
        ],
    ),
];

#[test]
fn calls_have_their_outcomes(rt: HostRuntime) -> Result<(), Fail> {
    for (nodes, lease, calls) in &RUNS {
        expect_run(&rt, *nodes, *lease, *calls)?;
    }
    Ok(())
}

#[test]
fn lines_have_one_to_200_nodes(rt: HostRuntime) {
    for (nodes, wanted) in [
        (0, Some(OpenError::Nodes)),
        (1, None),
        (33, None),
        (200, None),
        (201, Some(OpenError::Nodes)),
    ] {
        let refused = PlainLine::open(nodes, Line64::zero()).err();
        expect_at(&rt, &nodes, refused, wanted);
    }
}

#[test]
fn nodes_are_refused_before_the_lease(rt: HostRuntime) {
    for (nodes, lease, wanted) in [
        (0, 0, Some(OpenError::Nodes)),
        (1, 0, Some(OpenError::Lease)),
        (201, 1, Some(OpenError::Nodes)),
        (1, 1, None),
        (200, u64::MAX, None),
    ] {
        let refused = PlainLine::open_leased(nodes, Line64::zero(), lease).err();
        expect_at(&rt, &(nodes, lease), refused, wanted);
    }
}

#[test]
fn a_write_has_a_mask_and_bytes(rt: HostRuntime) {
    let Write { mask, bytes } = Write {
        mask: Mask(1),
        bytes: Line64::zero(),
    };
    let wanted = (Mask(1), Line64::zero());
    expect(&rt, "mask and bytes", (mask, bytes), wanted);
}
