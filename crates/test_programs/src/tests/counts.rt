//! Tests threads that count together in a line.

use crate::counts::{race, raise_all};
use crate::fixtures::{open_zeros, with_two};
use crate::tests::rows::expect;
use line_lanes::lane;
use qolb_model::{Free, OpenLine};
use std::alloc::Global;
use std::process::Abort;
use std::sync::Wait;
use std::test::Fail;
use std::thread::Threads;

/// Four threads add 1 to the lane 1,000 times each. No addition is lost, and no other byte is written.
pub(super) fn four_threads_raise_one_count<
    R: Threads + Wait + Sync + Abort,
    L: OpenLine<Free> + Sync + Drop,
>(rt: &R, alloc: Global) -> Result<(), Fail>
where
    L::Port: Send + Drop,
{
    let (line, ports) = open_zeros::<Free, L>(alloc, 4, None).ok_or("opened")?;
    let last = raise_all(rt, alloc, line, ports, 1_000).ok_or("raised")?;
    // 4,000 is 15 * 256 + 160.
    let mut count = [0; 64];
    count[0] = 160;
    count[1] = 15;
    expect(rt, "the count", last.bytes, count);
    Ok(())
}

/// In 10,000 rounds a node withdraws while another releases. The count is one for each round, and one for each
/// withdrawal that returned `Granted`.
pub(super) fn a_withdrawal_and_a_release_race<
    R: Threads + Wait + Sync + Abort,
    L: OpenLine<Free> + Sync + Drop,
>(rt: &R, alloc: Global) -> Result<(), Fail>
where
    L::Port: Send + Drop,
{
    const ROUNDS: u64 = 10_000;
    let opened = open_zeros::<Free, L>(alloc, 2, None).ok_or("opened")?;
    let (line, one, two) = with_two::<Free, L>(opened).ok_or("two ports")?;
    let raced = race(rt, alloc, line, one, two, ROUNDS).ok_or("raced")?;
    let wanted = raced.granted.saturating_add(ROUNDS);
    expect(rt, "the count", lane(&raced.last, 0), wanted);
    Ok(())
}
