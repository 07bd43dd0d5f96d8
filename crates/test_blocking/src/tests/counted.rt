//! Tests, on all kinds of lines, that a line counts a waiter as a sleeper exactly while the waiter sleeps.
use crate::tests::held::{Scene, SleepLine, all_see, expect, for_nodes};
use line_blocking::{Got, acquire_parking};
use line_generic::{Discipline, Line};
use qolb_model::{Free, OpenError};
use std::alloc::Global;
use std::process::Abort;
use std::sync::Wait;
use std::sync::atomic::{AtomicU64, Ordering};
use std::thread::{Threads, yield_now};

/// A line that counts its sleepers.
pub(super) trait Counting: SleepLine {
    /// The number of waiters that sleep or are about to.
    fn sleepers(&self) -> u64;

    /// The number of sleepers that are counted in the group of `word`.
    fn sleepers_near(&self, word: usize) -> u64;
}

impl<Q: Discipline<Free>> Counting for Line<Free, Q> {
    fn sleepers(&self) -> u64 {
        Line::<Free, Q>::sleepers(self)
    }

    fn sleepers_near(&self, word: usize) -> u64 {
        Line::<Free, Q>::sleepers_near(self, word)
    }
}

/// The most nodes that a line can have.
const NODES: u64 = 200;

/// A word of each group.
static WORDS: [usize; 16] = [
    8, 24, 40, 56, 72, 88, 104, 120, 136, 152, 168, 184, 200, 216, 232, 248,
];

/// The number of groups in which at least `least` and at most `most` sleepers are counted.
fn groups_with<L: Counting>(line: &L, least: u64, most: u64) -> u64 {
    let mut groups = 0u64;
    for word in &WORDS {
        let near = line.sleepers_near(*word);
        if near >= least && near <= most {
            groups = groups.wrapping_add(1);
        }
    }
    groups
}

/// One node holds the line until all other nodes, which wait for it, are counted as sleepers. Then each has a turn.
#[derive(Drop)]
struct Counted {
    /// The number of groups that counted 12 or 13 of the 199 sleepers while all slept.
    even: AtomicU64,
}

impl<R: Wait, L: Counting> Scene<R, L> for Counted {
    fn keep(&self, rt: &R, line: &L) -> bool {
        for _ in rt.forever() {
            if line.sleepers() == NODES - 1 {
                self.even.store(groups_with(line, 12, 13), Ordering::SeqCst);
                break;
            }
            yield_now();
        }
        false
    }

    fn behind(&self, rt: &R, line: &L, port: &mut L::Port) -> bool {
        let got = acquire_parking(rt, line, port);
        if got == Got::Granted {
            line.deqolb(port);
        }
        got == Got::Granted
    }
}

/// The counts of one run:
/// - whether each node had a turn;
/// - the groups that counted 12 or 13 while all others slept;
/// - the sleepers counted at the end, and the groups that counted none at the end.
#[derive(Clone, Copy, Debug, PartialEq, Eq)]
struct Counts {
    had: bool,
    even: u64,
    left: u64,
    empty: u64,
}

/// Runs the scene on a new line and returns the counts.
fn count_sleepers<R: Threads + Wait + Sync, L: Counting + Sync>(
    rt: &R,
    alloc: Global,
) -> Result<Counts, OpenError>
where
    L::Port: Send + Drop,
{
    let (line, ports) = L::open_with(alloc, 1, for_nodes(NODES))?;
    let scene = Counted {
        even: AtomicU64::new(0),
    };
    let had = all_see(rt, alloc, &line, ports, &scene, &AtomicU64::new(0));
    Ok(Counts {
        had,
        even: scene.even.load(Ordering::SeqCst),
        left: line.sleepers(),
        empty: groups_with(&line, 0, 0),
    })
}

/// Sleepers are counted while they sleep, and none afterwards: in all, and in each group. The words are spread evenly
/// over the groups.
pub(super) fn sleepers_are_counted<R: Threads + Wait + Abort + Sync, L: Counting + Sync>(
    rt: &R,
    alloc: Global,
)
where
    L::Port: Send + Drop,
{
    let wanted = Counts {
        had: true,
        even: 16,
        left: 0,
        empty: 16,
    };
    expect(
        rt,
        "sleepers",
        count_sleepers::<R, L>(rt, alloc),
        Ok(wanted),
    );
}
