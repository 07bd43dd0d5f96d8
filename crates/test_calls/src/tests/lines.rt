//! Tests the answers of the calls on each kind of line. One thread makes the calls for all nodes.

use crate::checked_line::{CheckedLine, Instrumented};
use crate::tests::did::{CallOutcome, expect};
use crate::tests::rows::{expect_at, expect_eq};
use line_lanes::{Line64, Mask, changed, lane, placed, with_lane};
use linked_list_allocator::LocalHeap;
use qolb_model::{Enq, FinishError, Free, LineConfig, OpenError, Out, Poll};
use std::alloc::Global;
use std::process::Abort;
use std::test::Fail;
use test_programs::fixtures::{open_zeros, with_two};
use test_programs::handoff::hand_over;
use test_support::{GRAIN, MemoryLimit};

/// Opening refuses a wrong number of nodes first, and then a lease without a turn.
pub(super) fn lines_have_nodes_and_turns<R: Abort, L: Instrumented + Drop>(rt: &R, alloc: Global)
where
    L::Port: Drop,
{
    for (nodes, lease, want) in [
        (0, None, Some(OpenError::Nodes)),
        (1, None, None),
        (33, None, None),
        (200, None, None),
        (201, None, Some(OpenError::Nodes)),
        (0, Some(0), Some(OpenError::Nodes)),
        (1, Some(0), Some(OpenError::Lease)),
        (201, Some(1), Some(OpenError::Nodes)),
        (1, Some(1), None),
    ] {
        let config = LineConfig {
            nodes,
            opening: Line64::zero(),
            lease,
        };
        let refused = CheckedLine::<L>::open(alloc, 7, config).err();
        expect_at(rt, &(nodes, lease), refused, want);
    }
}

/// Two nodes withdraw, and a release passes both.
static TWO_PASSED: [(u64, CallOutcome); 6] = [
    (1, CallOutcome::Ask(Enq::Granted)),
    (2, CallOutcome::Ask(Enq::Queued)),
    (3, CallOutcome::Ask(Enq::Queued)),
    (2, CallOutcome::Withdraw(Out::Withdrawn)),
    (3, CallOutcome::Withdraw(Out::Withdrawn)),
    (1, CallOutcome::Release),
];

pub(super) fn a_release_passes_those_who_withdrew<R: Abort, L: Instrumented + Drop>(
    rt: &R,
    alloc: Global,
    steps: u64,
) -> Result<(), Fail>
where
    L::Port: Drop,
{
    let mut row = CheckedLine::<L>::of_zeros(alloc, 3)?;
    expect(rt, &mut row, &TWO_PASSED);
    let last = [
        (1, CallOutcome::Steps(steps)),
        (3, CallOutcome::Ask(Enq::Granted)),
    ];
    expect(rt, &mut row, last.as_slice());
    Ok(())
}

/// Node 1 asks, adds 1 to the first lane, and releases.
fn turn<L: Instrumented + Drop>(row: &mut CheckedLine<L>) -> Option<bool>
where
    L::Port: Drop,
{
    if row.ask(1)? != Enq::Granted {
        return None;
    }
    let held = Line64::from_bytes(row.bytes(1)?);
    let credited = with_lane(&held, 0, lane(&held, 0).wrapping_add(1));
    row.write(1, changed(&held, &credited), &credited);
    row.release(1)
}

/// Returns how many of 300 turns node 1 had, and the first lane at the end.
fn turns<L: Instrumented + Drop>(alloc: Global) -> Option<(u32, u64)>
where
    L::Port: Drop,
{
    let mut row = CheckedLine::<L>::of_zeros(alloc, 1).ok()?;
    let mut had = 0u32;
    for _ in 0..300u32 {
        if turn(&mut row) == Some(true) {
            had = had.saturating_add(1);
        }
    }
    let line = row.finish(alloc).ok()?;
    Some((had, lane(&line, 0)))
}

pub(super) fn one_node_takes_300_turns<R: Abort, L: Instrumented + Drop>(
    rt: &R,
    alloc: Global,
) -> Result<(), Fail>
where
    L::Port: Drop,
{
    expect_eq(rt, "turns", turns::<L>(alloc), Some((300, 300)));
    Ok(())
}

pub(super) fn a_release_passes_all_other_nodes_of_200<R: Abort, L: Instrumented + Drop>(
    rt: &R,
    alloc: Global,
    steps: u64,
) -> Result<(), Fail>
where
    L::Port: Drop,
{
    let mut row = CheckedLine::<L>::of_zeros(alloc, 200)?;
    expect(
        rt,
        &mut row,
        [(1, CallOutcome::Ask(Enq::Granted))].as_slice(),
    );
    for node in 2..201u64 {
        expect(
            rt,
            &mut row,
            [(node, CallOutcome::Ask(Enq::Queued))].as_slice(),
        );
    }
    for node in 2..201u64 {
        expect(
            rt,
            &mut row,
            [(node, CallOutcome::Withdraw(Out::Withdrawn))].as_slice(),
        );
    }
    let last = [(1, CallOutcome::Release), (1, CallOutcome::Steps(steps))];
    expect(rt, &mut row, last.as_slice());
    let line = row.finish(alloc).ok().ok_or("200 ports do not finish")?;
    expect_eq(rt, "the bytes", line.to_bytes(), [0; 64]);
    Ok(())
}

/// Returns why a line of two nodes does not finish without the second port, and its bytes when it finishes with that
/// port.
fn without_a_port<L: Instrumented + Drop>(alloc: Global) -> Option<(FinishError, [u8; 64])>
where
    L::Port: Drop,
{
    let config = LineConfig {
        nodes: 2,
        opening: Line64::from_bytes([7; 64]),
        lease: None,
    };
    let mut row = CheckedLine::<L>::open(alloc, 7, config).ok()?;
    let two = row.take(2)?;
    let (why, mut row) = row.finish(alloc).err()?;
    row.put(two);
    let line = row.finish(alloc).ok()?;
    Some((why, line.to_bytes()))
}

pub(super) fn finish_wants_a_port_of_each_node<R: Abort, L: Instrumented + Drop>(
    rt: &R,
    alloc: Global,
)
where
    L::Port: Drop,
{
    let want = Some((FinishError::Missing(2), [7; 64]));
    expect_eq(rt, "without a port", without_a_port::<L>(alloc), want);
}

/// Returns why a line of two nodes does not finish with a port of another line, and whether it finishes without that
/// port. Returns `None` if the line owned that port.
fn beside_a_stranger<L: Instrumented + Drop>(alloc: Global) -> Option<(FinishError, bool)>
where
    L::Port: Drop,
{
    let mut row = CheckedLine::<L>::of_zeros(alloc, 2).ok()?;
    let config = LineConfig {
        nodes: 3,
        opening: Line64::zero(),
        lease: None,
    };
    let mut other = CheckedLine::<L>::open(alloc, 8, config).ok()?;
    let three = other.take(3)?;
    if row.owns(&three) {
        drop(three);
        return None;
    }
    row.put(three);
    let (why, mut row) = row.finish(alloc).err()?;
    let back = row.take(3)?;
    drop(back);
    Some((why, row.finish(alloc).is_ok()))
}

pub(super) fn finish_wants_no_other_port<R: Abort, L: Instrumented + Drop>(rt: &R, alloc: Global)
where
    L::Port: Drop,
{
    let want = Some((FinishError::Missing(0), true));
    expect_eq(rt, "a stranger", beside_a_stranger::<L>(alloc), want);
}

/// A line of four nodes, of which the third has had a turn and written two bytes.
fn written<L: Instrumented + Drop>(alloc: Global) -> Option<CheckedLine<L>>
where
    L::Port: Drop,
{
    let mut row = CheckedLine::<L>::of_zeros(alloc, 4).ok()?;
    row.ask(3);
    row.write(3, Mask(0b110), &Line64::from_bytes([9; 64]));
    row.release(3);
    Some(row)
}

/// Finishes the line on this heap. Returns `false` with its bytes; if memory was refused, `true` with the bytes that it
/// finished with elsewhere.
fn finished_on<L: Instrumented + Drop>(alloc: Global, heap: &LocalHeap) -> Option<(bool, [u8; 64])>
where
    L::Port: Drop,
{
    match written::<L>(alloc)?.finish_in(heap) {
        Ok(line) => Some((false, line.to_bytes())),
        Err((FinishError::Memory, back)) => {
            let line = back.finish(alloc).ok()?;
            Some((true, line.to_bytes()))
        }
        Err(_) => None,
    }
}

/// Finishes the line on a heap of `bytes` bytes. Also returns the bytes of the heap that are in use afterwards.
fn finished_within<L: Instrumented + Drop>(
    alloc: Global,
    bytes: usize,
) -> Option<(bool, [u8; 64], usize)>
where
    L::Port: Drop,
{
    let heap = LocalHeap::new(alloc, bytes).ok()?;
    let (refused, line) = finished_on::<L>(alloc, &heap)?;
    Some((refused, line, heap.used()))
}

pub(super) fn each_growth_of_finish_is_refused<R: Abort, L: Instrumented + Drop>(
    rt: &R,
    alloc: Global,
) -> Result<(), Fail>
where
    L::Port: Drop,
{
    let mut want = [0; 64];
    want[1] = 9;
    want[2] = 9;
    let mut refusals = 0usize;
    for step in 1..40usize {
        let is_refused = step == refusals.saturating_add(1)
            && finished_within::<L>(alloc, 64 * step) == Some((true, want, 0));
        if is_refused {
            refusals = step;
        } else {
            let found = finished_within::<L>(alloc, 64 * step);
            expect_at(rt, &step, found, Some((false, want, 0)));
        }
    }
    expect_eq(rt, "refusals", refusals > 0 && refusals < 39, true);
    Ok(())
}

/// Node 2 waits for the line, and node 1 hands it over.
static HAND_OVER: [(u64, CallOutcome); 4] = [
    (2, CallOutcome::Ask(Enq::Queued)),
    (2, CallOutcome::Poll(Poll::Waiting)),
    (1, CallOutcome::Release),
    (2, CallOutcome::Poll(Poll::Granted)),
];

pub(super) fn a_line_is_handed_over_with_its_bytes<R: Abort, L: Instrumented + Drop>(
    rt: &R,
    alloc: Global,
) -> Result<(), Fail>
where
    L::Port: Drop,
{
    let mut row = CheckedLine::<L>::of_zeros(alloc, 2)?;
    expect(
        rt,
        &mut row,
        [(1, CallOutcome::Ask(Enq::Granted))].as_slice(),
    );
    let (mask, bytes) = placed(0, &[0xa1, 0xb2]).ok_or("placed")?;
    expect_eq(rt, "written", row.write(1, mask, &bytes), Some(true));
    expect(rt, &mut row, &HAND_OVER);
    let mut want = [0; 64];
    want[0] = 0xa1;
    want[1] = 0xb2;
    expect_eq(rt, "the bytes", row.bytes(2), Some(want));
    expect(rt, &mut row, [(2, CallOutcome::Release)].as_slice());
    Ok(())
}

/// Opens a line of four nodes in a room of `bytes` bytes. Returns its bytes after `finish`, or the error.
fn opened_in<L: Instrumented + Drop>(
    alloc: Global,
    limit: &MemoryLimit,
    bytes: usize,
) -> Option<Result<[u8; 64], OpenError>>
where
    L::Port: Drop,
{
    let config = LineConfig {
        nodes: 4,
        opening: Line64::from_bytes([3; 64]),
        lease: None,
    };
    let rest = limit.leave(alloc, bytes).ok()?;
    let opened = CheckedLine::<L>::open(alloc, 7, config);
    drop(rest);
    match opened {
        Ok(row) => Some(Ok(row.finish(alloc).ok()?.to_bytes())),
        Err(why) => Some(Err(why)),
    }
}

/// The bytes of a port.
const PORT: usize = 128;

/// Opens a line in a room that grows by the heap's grain. Opening is refused for lack of memory until the room holds
/// all that it allocates, so each of its allocations is refused once. These are the table of the line, two copies of it
/// for a moment, and the ports of the line, and little else.
pub(super) fn each_allocation_of_opening_is_refused<R: Abort, L: Instrumented + Drop>(
    rt: &R,
    alloc: Global,
    table: usize,
) -> Result<(), Fail>
where
    L::Port: Drop,
{
    let limit = MemoryLimit::begin(alloc, 1 << 20)?;
    let mut refused = 0u32;
    for grains in 2..20_000usize {
        match opened_in::<L>(alloc, &limit, GRAIN * grains).ok_or("a room, or finished")? {
            Ok(bytes) => {
                let besides = (GRAIN * grains).saturating_sub(table);
                expect_eq(rt, "the bytes", bytes, [3; 64]);
                expect_eq(rt, "refused", refused > 0, true);
                expect_at(rt, &besides, besides >= 4 * PORT, true);
                let is_little = besides.saturating_sub(table) <= 8 * PORT + 512;
                expect_at(rt, &besides, is_little, true);
                return Ok(());
            }
            Err(why) => expect_at(rt, &grains, why, OpenError::Memory),
        }
        refused = refused.saturating_add(1);
    }
    Err(Fail::from("no room was large enough"))
}

/// Hands a line of two nodes over. Returns what one node releases and what the next one sees, or `None` if the line was
/// not handed over.
fn handed<L: Instrumented + Drop>(alloc: Global) -> Option<(Line64, Line64)>
where
    L::Port: Drop,
{
    let opened = open_zeros::<Free, L>(alloc, 2, None)?;
    let (line, mut one, mut two) = with_two::<Free, L>(opened)?;
    let fives = Line64::from_bytes([5; 64]);
    hand_over(&line, &mut two, &mut one, Mask(0b1000), &fives)
}

/// A generic function hands the bytes from one node to another.
pub(super) fn any_line_is_handed_over<R: Abort, L: Instrumented + Drop>(
    rt: &R,
    alloc: Global,
) -> Result<(), Fail>
where
    L::Port: Drop,
{
    let (released, seen) = handed::<L>(alloc).ok_or("handed over")?;
    let mut want = [0; 64];
    want[3] = 5;
    expect_eq(rt, "released", released.to_bytes(), want);
    expect_eq(rt, "seen", seen.to_bytes(), want);
    Ok(())
}
