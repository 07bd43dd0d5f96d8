//! Tests, for each kind of line, that the line no longer counts a waiter that has woken up.

use crate::checked_line::Instrumented;
use crate::tests::rows::expect_eq;
use line_lanes::Line64;
use qolb_model::{Enq, Free, LineConfig, ParkingLine};
use std::alloc::Global;
use std::process::Abort;
use std::sync::Wait;
use std::time::Duration;

/// Counts the sleepers after the only waiter has slept for all of its time, and after it was at its turn and so did not
/// sleep.
fn counted_after_a_sleep<R: Wait, L: Instrumented + ParkingLine<Free> + Drop>(
    rt: &R,
    alloc: Global,
) -> Option<(u64, u64)>
where
    L::Port: Drop,
{
    let config = LineConfig {
        nodes: 2,
        opening: Line64::zero(),
        lease: None,
    };
    let (line, ports) = L::open_with(alloc, 1, config).ok()?;
    let mut ports = ports;
    let mut two = ports.pop()?;
    let mut one = ports.pop()?;
    let Enq::Granted = line.enqolb(&mut one) else {
        return None;
    };
    let Enq::Queued = line.enqolb(&mut two) else {
        return None;
    };
    line.sleep(rt, &two, Duration::from_millis(2));
    let after_its_time = line.sleepers();
    line.deqolb(&mut one);
    line.sleep(rt, &two, Duration::from_secs(20));
    Some((after_its_time, line.sleepers()))
}

/// The waiter is not counted after either sleep.
pub(super) fn a_waiter_that_has_slept_is_counted_no_more<
    R: Wait + Abort,
    L: Instrumented + ParkingLine<Free> + Drop,
>(rt: &R, alloc: Global)
where
    L::Port: Drop,
{
    expect_eq(
        rt,
        "sleepers",
        counted_after_a_sleep::<R, L>(rt, alloc),
        Some((0, 0)),
    );
}
