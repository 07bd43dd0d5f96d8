//! Tests the answers of the link line, where a node can make a request with two calls. A release must not wait for the
//! second call.

use crate::checked_line::{CheckedLine, SplitCalls};
use crate::tests::did::{CallOutcome, expect_by_halves};
use crate::tests::rows::{expect_at, expect_eq};
use line_kinds::LinkLine;
use line_lanes::Line64;
use qolb_model::{Enq, FinishError, Free, LineConfig, Out, Poll, PortState, Prep};
use std::alloc::Global;
use std::process::Abort;
use std::test::Fail;

/// The nodes of a line, and calls with their outcomes.
static RUNS: [(u64, &[(u64, CallOutcome)]); 5] = [
    // node 2 links after the release, which left the line in the mailbox before it
    (
        2,
        &[
            (1, CallOutcome::Ask(Enq::Granted)),
            (1, CallOutcome::Write(0xab)),
            (2, CallOutcome::Prepend(Prep::Linking)),
            (1, CallOutcome::Release),
            (1, CallOutcome::State(PortState::Left)),
            (1, CallOutcome::Clear(false)),
            (1, CallOutcome::Ask(Enq::Busy)),
            (2, CallOutcome::Link(Enq::Granted)),
            (2, CallOutcome::Sees(0xab)),
            (1, CallOutcome::Clear(true)),
            (1, CallOutcome::State(PortState::Idle)),
            (1, CallOutcome::Ask(Enq::Queued)),
        ],
    ),
    // node 1 has left, and asks again once its entry has become clear, without a look at it
    (
        2,
        &[
            (1, CallOutcome::Ask(Enq::Granted)),
            (1, CallOutcome::Write(0xab)),
            (2, CallOutcome::Prepend(Prep::Linking)),
            (1, CallOutcome::Release),
            (1, CallOutcome::Ask(Enq::Busy)),
            (2, CallOutcome::Link(Enq::Granted)),
            (2, CallOutcome::Sees(0xab)),
            (1, CallOutcome::State(PortState::Left)),
            (1, CallOutcome::Ask(Enq::Queued)),
        ],
    ),
    // node 3 asks behind node 2, which links last
    (
        3,
        &[
            (1, CallOutcome::Ask(Enq::Granted)),
            (2, CallOutcome::Prepend(Prep::Linking)),
            (3, CallOutcome::Ask(Enq::Queued)),
            (1, CallOutcome::Release),
            (1, CallOutcome::State(PortState::Left)),
            (3, CallOutcome::Poll(Poll::Waiting)),
            (2, CallOutcome::Link(Enq::Granted)),
            (2, CallOutcome::Release),
            (2, CallOutcome::State(PortState::Idle)),
            (3, CallOutcome::Poll(Poll::Granted)),
        ],
    ),
    // node 2 links before the release, and is granted the line by it
    (
        2,
        &[
            (1, CallOutcome::Prepend(Prep::Granted)),
            (2, CallOutcome::Prepend(Prep::Linking)),
            (2, CallOutcome::State(PortState::Linking)),
            (2, CallOutcome::Link(Enq::Queued)),
            (1, CallOutcome::Release),
            (1, CallOutcome::State(PortState::Idle)),
            (2, CallOutcome::Poll(Poll::Granted)),
        ],
    ),
    // two nodes withdraw before one that links last
    (
        4,
        &[
            (1, CallOutcome::Ask(Enq::Granted)),
            (2, CallOutcome::Ask(Enq::Queued)),
            (3, CallOutcome::Ask(Enq::Queued)),
            (2, CallOutcome::Withdraw(Out::Withdrawn)),
            (3, CallOutcome::Withdraw(Out::Withdrawn)),
            (4, CallOutcome::Prepend(Prep::Linking)),
            (1, CallOutcome::Release),
            (1, CallOutcome::Steps(10)),
            (1, CallOutcome::State(PortState::Idle)),
            (3, CallOutcome::Ask(Enq::Busy)),
            (2, CallOutcome::Ask(Enq::Queued)),
            (4, CallOutcome::Link(Enq::Granted)),
            (3, CallOutcome::Ask(Enq::Queued)),
            (4, CallOutcome::Release),
            (2, CallOutcome::Poll(Poll::Granted)),
        ],
    ),
];

fn each_run<R: Abort, L: SplitCalls + Drop>(rt: &R, alloc: Global) -> Result<(), Fail>
where
    L::Port: Drop,
{
    for (nodes, calls) in &RUNS {
        let mut row = CheckedLine::<L>::of_zeros(alloc, *nodes)?;
        expect_by_halves(rt, &mut row, *calls);
    }
    Ok(())
}

/// A line that node 1 left behind for node 2, which has not linked yet; node 3 is idle.
fn left_behind<L: SplitCalls + Drop>(alloc: Global) -> Option<CheckedLine<L>>
where
    L::Port: Drop,
{
    let mut row = CheckedLine::<L>::of_zeros(alloc, 3).ok()?;
    row.ask(1);
    row.prepend(2);
    row.release(1);
    Some(row)
}

/// Node 1 has left the line, and node 2 has still to link.
static LEFT: [(u64, CallOutcome); 2] = [
    (1, CallOutcome::State(PortState::Left)),
    (2, CallOutcome::State(PortState::Linking)),
];

/// Node 2 links, and releases the line.
static AT_REST: [(u64, CallOutcome); 2] = [
    (2, CallOutcome::Link(Enq::Granted)),
    (2, CallOutcome::Release),
];

fn finish_waits_for_a_late_linker<R: Abort, L: SplitCalls + Drop>(
    rt: &R,
    alloc: Global,
) -> Result<(), Fail>
where
    L::Port: Drop,
{
    let mut row = left_behind::<L>(alloc).ok_or("opened")?;
    expect_by_halves(rt, &mut row, &LEFT);
    let (why, mut row) = row.finish(alloc).err().ok_or("one is linking")?;
    expect_eq(rt, "linking", why, FinishError::Unquiet(2));
    expect_by_halves(rt, &mut row, &AT_REST);
    expect_eq(rt, "finished", row.finish(alloc).is_ok(), true);
    Ok(())
}

/// Puts a port of another line in. Returns `None` if this line owns it.
fn put_a_stranger<L: SplitCalls + Drop>(alloc: Global, row: &mut CheckedLine<L>) -> Option<bool>
where
    L::Port: Drop,
{
    let config = LineConfig {
        nodes: 3,
        opening: Line64::zero(),
        lease: None,
    };
    let mut other = CheckedLine::<L>::open(alloc, 8, config).ok()?;
    let stranger = other.take(1)?;
    if row.owns(&stranger) {
        return None;
    }
    Some(row.put(stranger))
}

/// The ports that `finish` returns, place by place, with one of another line: the node, its state, and whether the port
/// is the line's.
static BESIDE: [(u64, PortState, bool); 3] = [
    (1, PortState::Left, true),
    (2, PortState::Linking, true),
    (1, PortState::Idle, false),
];

fn finish_names_the_first_cause<R: Abort, L: SplitCalls + Drop>(
    rt: &R,
    alloc: Global,
) -> Result<(), Fail>
where
    L::Port: Drop,
{
    let mut row = left_behind::<L>(alloc).ok_or("opened")?;
    let three = row.take(3).ok_or("a port of node 3")?;
    drop(three);
    let (why, mut row) = row.finish(alloc).err().ok_or("node 3 has no port")?;
    expect_eq(rt, "missing", why, FinishError::Missing(3));
    expect_eq(
        rt,
        "a stranger",
        put_a_stranger(alloc, &mut row),
        Some(true),
    );
    let (why, mut row) = row.finish(alloc).err().ok_or("one is a stranger")?;
    expect_eq(rt, "not the line's", why, FinishError::Missing(0));
    for (place, port) in BESIDE.iter().enumerate() {
        expect_at(rt, &place, row.at(place), Some(*port));
    }
    expect_eq(rt, "no fourth", row.at(3), None);
    expect_by_halves(rt, &mut row, &AT_REST);
    Ok(())
}

/// Runs each of these tests over lines of this type.
fn each_half<R: Abort, L: SplitCalls + Drop>(rt: &R, alloc: Global) -> Result<(), Fail>
where
    L::Port: Drop,
{
    each_run::<R, L>(rt, alloc)?;
    finish_waits_for_a_late_linker::<R, L>(rt, alloc)?;
    finish_names_the_first_cause::<R, L>(rt, alloc)
}

#[test]
fn a_list_is_asked_by_two_calls(rt: HostRuntime) -> Result<(), Fail> {
    each_half::<_, LinkLine<Free>>(&rt, rt.alloc())
}
