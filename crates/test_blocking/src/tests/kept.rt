//! Tests the example programs. The mailbox must not change other lanes, each addition must acquire the line once, and
//! values must arrive in order.
use crate::tests::held::{SleepLine, expect, finish_one, open_one};
use example_line::{counter, mailbox};
use line_lanes::{Line64, lane, with_lane};
use qolb_model::{Free, Keep, OpenLine, ParkingLine};
use std::alloc::Global;
use std::process::Abort;
use std::sync::Wait;
use std::sync::atomic::{AtomicU64, Ordering};
use std::thread::{Threads, yield_now};
use test_support::{HookedLine, Hooks};

/// The first bytes of a line: 7 in each, except for the first lane, which is 0.
fn opening() -> Line64 {
    with_lane(&Line64::from_bytes([7; 64]), 0, 0)
}

/// Makes ten additions under a lease of three turns. Returns the last bytes.
fn add_ten<R: Wait, L: OpenLine<Free> + Drop>(rt: &R, alloc: Global) -> Option<Line64>
where
    L::Port: Drop,
{
    let (line, mut port) = open_one::<L>(alloc, opening(), Some(3))?;
    counter::add(rt, &line, &mut port, 10);
    finish_one(alloc, line, port)
}

/// Ten additions under a lease of three turns add three, and leave the other lanes.
pub(super) fn each_addition_is_a_turn<R: Wait + Abort, L: OpenLine<Free> + Drop>(
    rt: &R,
    alloc: Global,
)
where
    L::Port: Drop,
{
    let wanted = Some(with_lane(&opening(), 0, 3));
    expect(rt, "three turns", add_ten::<R, L>(rt, alloc), wanted);
}

/// Puts a value, takes it if `takes`, and finishes the line. Returns whether a value was put, whether one was taken,
/// and the last bytes.
fn put_and_taken<L: OpenLine<Free> + Drop>(
    alloc: Global,
    takes: bool,
) -> Option<(bool, bool, Line64)>
where
    L::Port: Drop,
{
    let (line, mut port) = open_one::<L>(alloc, opening(), None)?;
    let put = mailbox::try_put(&line, &mut port, 5);
    let taken = takes && mailbox::try_take(&line, &mut port).is_some();
    let last = finish_one(alloc, line, port)?;
    Some((put, taken, last))
}

/// `try_put` writes to the first lane, `try_take` leaves 0 there, and the other lanes stay.
pub(super) fn a_value_lies_in_its_lane<R: Abort, L: OpenLine<Free> + Drop>(rt: &R, alloc: Global)
where
    L::Port: Drop,
{
    for (takes, lies) in &[(false, 5), (true, 0)] {
        let wanted = Some((true, *takes, with_lane(&opening(), 0, *lies)));
        expect(
            rt,
            "put, taken, what lies there",
            put_and_taken::<L>(alloc, *takes),
            wanted,
        );
    }
}

/// Hooks that check the order of values. A holder waits for ever if it would release the line with a value that is
/// neither the last one nor its successor, so the test then does not end.
#[derive(Drop)]
struct InOrder {
    last: AtomicU64,
}

impl Default for InOrder {
    fn default() -> InOrder {
        InOrder {
            last: AtomicU64::new(0),
        }
    }
}

impl Hooks for InOrder {
    fn on_release<K: Keep, L: ParkingLine<K>>(&self, _line: &L, port: &L::Port) {
        let value = lane(L::bytes(port), 0);
        let last = self.last.load(Ordering::SeqCst);
        if value == 0 || value == last {
            return;
        }
        if value == last.wrapping_add(1) {
            self.last.store(value, Ordering::SeqCst);
            return;
        }
        for _ in 0..u64::MAX {
            yield_now();
        }
    }
}

/// The values 1 to 1,500 are handed over in their order; their sum is 1,125,750.
pub(super) fn each_value_is_taken_up<R: Threads + Wait + Abort + Sync, L: SleepLine + Sync>(
    rt: &R,
    alloc: Global,
)
where
    L::Port: Send + Drop,
{
    let sum = mailbox::hand_over::<R, HookedLine<InOrder, L>>(rt, alloc, 1_500);
    expect(rt, "the sum", sum, Some(1_125_750));
}
