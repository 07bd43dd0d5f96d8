//! Tests the messages about the progress of the work, and when they appear.
use crate::tests::rows::{expect, expect_at};
use line_blocking::scoped::{ScopedTask, run_scoped};
use qolb_run::{Gate, Progress};
use std::alloc::Global;
use std::fmt::Display;
use std::hint::spin_loop;
use std::io;
use std::rt::Clock;
use std::sync::Wait;
use std::sync::atomic::{AtomicBool, AtomicU64, Ordering};
use std::test::Fail;
use std::thread::{Threads, yield_now};
use std::time::Duration;

/// A clock whose time is set by the test, and a standard error that expects the given lines in the given order.
#[derive(Drop)]
struct Console<'a> {
    alloc: Global,
    second: AtomicU64,
    expected: &'a [&'a str],
    /// The number of expected lines that were written. `others` is the number of all other lines.
    came: AtomicU64,
    others: AtomicU64,
}

impl Clock for Console<'_> {
    fn monotonic(&self) -> io::Result<Duration> {
        Ok(Duration::from_secs(self.second.load(Ordering::SeqCst)))
    }

    fn since_1970(&self) -> io::Result<Duration> {
        self.monotonic()
    }
}

impl Eprint for Console<'_> {
    fn eprint<D: Display + Drop>(&self, _value: D) -> io::Result<()> {
        self.others.fetch_add(1, Ordering::SeqCst);
        Ok(())
    }

    fn eprintln<D: Display + Drop>(&self, value: D) -> io::Result<()> {
        let at = self.came.load(Ordering::SeqCst) as usize;
        let is_expected = match (format!(in self.alloc; "{value}"), self.expected.get(at)) {
            (Ok(line), Some(expected)) => line.as_str() == *expected,
            _ => false,
        };
        let count = if is_expected {
            &self.came
        } else {
            &self.others
        };
        count.fetch_add(1, Ordering::SeqCst);
        Ok(())
    }
}

impl Console<'_> {
    /// Returns the number of expected lines that were written, and the number of other lines.
    fn lines(&self) -> (u64, u64) {
        (
            self.came.load(Ordering::SeqCst),
            self.others.load(Ordering::SeqCst),
        )
    }
}

/// Makes a console at second 0 that expects these lines.
fn expecting<'a>(alloc: Global, expected: &'a [&'a str]) -> Console<'a> {
    Console {
        alloc,
        second: AtomicU64::new(0),
        expected,
        came: AtomicU64::new(0),
        others: AtomicU64::new(0),
    }
}

/// The number of seconds in which two workers meet. `PAIRS` says how often two new workers start, because on a busy
/// machine only some of the pairs get two processors at the same time.
const SECONDS: u64 = 200;

const PAIRS: u32 = 30;

/// One worker continues later than the other by fewer pauses than this number.
const PAUSES: u64 = 64;

/// A clock at which two workers meet. Each reading waits for the reading of the other worker, and the n-th reading of
/// each worker returns n seconds. Before the workers meet, the clock reads 0 seconds. The clock also counts the printed
/// lines.
///
/// The worker that comes last to a meeting could continue a few steps before the other worker, which has to notice it
/// first. Therefore the last worker pauses, a little longer in each second. In some seconds, both workers then continue
/// at the same time.
#[derive(Drop)]
struct Meeting {
    meets: AtomicBool,
    readings: AtomicU64,
    lines: AtomicU64,
}

impl Clock for Meeting {
    fn monotonic(&self) -> io::Result<Duration> {
        if !self.meets.load(Ordering::SeqCst) {
            return Ok(Duration::ZERO);
        }
        let reading = self.readings.fetch_add(1, Ordering::SeqCst);
        let second = reading / 2;
        if reading % 2 == 0 {
            self.wait_for_the_other(second);
        } else {
            for _ in 0..second % PAUSES {
                spin_loop();
            }
        }
        Ok(Duration::from_secs(second.saturating_add(1)))
    }

    fn since_1970(&self) -> io::Result<Duration> {
        self.monotonic()
    }
}

impl Meeting {
    /// Waits until both workers have read the clock in this second. The loop spins at first, so that it notices the
    /// other worker at once, and yields later.
    fn wait_for_the_other(&self, second: u64) {
        for waits in 0..u64::MAX {
            if self.readings.load(Ordering::SeqCst) / 2 > second {
                return;
            }
            if waits < 1_000 {
                spin_loop();
            } else {
                yield_now();
            }
        }
    }
}

impl Eprint for Meeting {
    fn eprint<D: Display + Drop>(&self, _value: D) -> io::Result<()> {
        Ok(())
    }

    fn eprintln<D: Display + Drop>(&self, _value: D) -> io::Result<()> {
        self.lines.fetch_add(1, Ordering::SeqCst);
        Ok(())
    }
}

/// A task that asks the gate this many times, as a worker does before each job except its first. With the clock at
/// which two workers meet, it asks once in each second.
#[derive(Drop)]
struct Asking {
    times: u64,
}

impl<R: Wait, G: Gate> ScopedTask<R, G, u64> for Asking {
    type Output = bool;

    ghost pre = { λ _ _ _ _. Unit {0} };

    ghost post = { λ _ _ _ _. Unit {0} };

    fn work(&self, _rt: &R, gate: &G, _place: usize, worker: u64) -> bool {
        let mut may = true;
        for at in 0..self.times {
            may = may && gate.may(worker, at + 1);
        }
        may
    }
}

/// Returns the number of lines that two workers print if they meet in each second. Returns `None` if a thread was
/// refused or if a worker was not allowed a job.
fn said_by_two<T: Threads + Wait + Sync>(rt: &T, alloc: Global) -> Option<u64> {
    let clock = Meeting {
        meets: AtomicBool::new(false),
        readings: AtomicU64::new(0),
        lines: AtomicU64::new(0),
    };
    let gate = Progress::new(&clock).ok()?;
    gate.begins(1_000);
    clock.meets.store(true, Ordering::SeqCst);
    let workers = vec![in alloc; 1, 2].ok()?;
    let asked = run_scoped(rt, alloc, &Asking { times: SECONDS }, &gate, workers)?;
    if asked.iter().all(|may| *may) {
        Some(clock.lines.load(Ordering::SeqCst))
    } else {
        None
    }
}

#[test]
fn two_workers_say_each_second_once(rt: HostRuntime) -> Result<(), Fail> {
    for _ in 0..PAIRS {
        let said = said_by_two(&rt, rt.alloc());
        expect(&rt, "two workers", said, Some(SECONDS));
    }
    Ok(())
}

/// A clock that holds up the first worker that reads it until another worker has printed a line. The line is printed in
/// the first second, and the worker that was held up continues in the second one.
#[derive(Drop)]
struct HoldingUp<'a> {
    console: Console<'a>,
    /// The number of readings since the start of the clock.
    readings: AtomicU64,
    has_begun: AtomicBool,
}

impl Clock for HoldingUp<'_> {
    fn monotonic(&self) -> io::Result<Duration> {
        if !self.has_begun.swap(true, Ordering::SeqCst) {
            return Ok(Duration::ZERO);
        }
        if self.readings.fetch_add(1, Ordering::SeqCst) > 0 {
            return Ok(Duration::from_secs(1));
        }
        for _ in 0..u64::MAX {
            if self.console.lines() != (0, 0) {
                break;
            }
            yield_now();
        }
        Ok(Duration::from_secs(2))
    }

    fn since_1970(&self) -> io::Result<Duration> {
        self.monotonic()
    }
}

impl Eprint for HoldingUp<'_> {
    fn eprint<D: Display + Drop>(&self, value: D) -> io::Result<()> {
        self.console.eprint(value)
    }

    fn eprintln<D: Display + Drop>(&self, value: D) -> io::Result<()> {
        self.console.eprintln(value)
    }
}

#[test]
fn a_worker_that_was_held_up_says_no_less(rt: HostRuntime) -> Result<(), Fail> {
    let expected = ["2 of 5 jobs done", "2 of 5 jobs done"];
    let clock = HoldingUp {
        console: expecting(rt.alloc(), expected.as_slice()),
        readings: AtomicU64::new(0),
        has_begun: AtomicBool::new(false),
    };
    let gate = Progress::new(&clock)?;
    gate.begins(5);
    let workers = vec![in rt.alloc(); 1, 2]?;
    let asked = run_scoped(&rt, rt.alloc(), &Asking { times: 1 }, &gate, workers);
    let all = asked.map(|asked| asked.iter().all(|may| *may));
    let found = (all, clock.console.lines());
    expect(&rt, "held up", found, (Some(true), (2, 0)));
    Ok(())
}

/// The number of jobs of each of four workers.
const JOBS: u64 = 20_000;

/// Returns `Some(true)` if the gate allowed every job of four workers, and `None` if a thread was refused.
fn asked_by_four<T: Threads + Wait + Sync, G: Gate + Sync>(
    rt: &T,
    alloc: Global,
    gate: &G,
) -> Option<bool> {
    let workers = vec![in alloc; 1, 2, 3, 4].ok()?;
    let asked = run_scoped(rt, alloc, &Asking { times: JOBS }, gate, workers)?;
    Some(asked.iter().all(|may| *may))
}

#[test]
fn no_job_of_four_workers_is_forgotten(rt: HostRuntime) -> Result<(), Fail> {
    let expected = ["80001 of 100000 jobs done"];
    let console = expecting(rt.alloc(), expected.as_slice());
    let gate = Progress::new(&console)?;
    gate.begins(100_000);
    let asked = asked_by_four(&rt, rt.alloc(), &gate);
    console.second.store(1, Ordering::SeqCst);
    let may = gate.may(1, 1);
    let found = (asked, may, console.lines());
    expect(&rt, "four workers", found, (Some(true), true, (1, 0)));
    Ok(())
}

#[test]
fn progress_is_said_once_a_second(rt: HostRuntime) -> Result<(), Fail> {
    let expected = ["2 of 5 jobs done", "4 of 5 jobs done"];
    let console = expecting(rt.alloc(), expected.as_slice());
    let gate = Progress::new(&console)?;
    gate.begins(5);
    // Each row has the second, the worker, the number of the job that the worker asks for, and the number of lines that
    // have been printed after the question.
    let rows = [
        (0, 1, 0, 0),
        (0, 1, 1, 0),
        (1, 2, 0, 0),
        (1, 2, 1, 1),
        (1, 1, 2, 1),
        (3, 1, 3, 2),
        (3, 2, 2, 2),
    ];
    for (second, worker, at, lines) in rows {
        console.second.store(second, Ordering::SeqCst);
        let may = gate.may(worker, at);
        let row = (second, worker, at);
        expect_at(&rt, &row, (may, console.lines()), (true, (lines, 0)));
    }
    Ok(())
}

#[test]
fn progress_is_said_after_hours(rt: HostRuntime) -> Result<(), Fail> {
    let expected = [
        "1 of 9 jobs done",
        "2 of 9 jobs done",
        "3 of 9 jobs done",
        "5 of 9 jobs done",
    ];
    let console = expecting(rt.alloc(), expected.as_slice());
    let gate = Progress::new(&console)?;
    gate.begins(9);
    // Each row has the second, and the number of lines that have been printed after a worker has asked for its next
    // job. The rows lie at one hour, just before and at two hours, and at two days.
    let rows = [(3_600, 1), (7_199, 2), (7_200, 3), (7_200, 3), (172_800, 4)];
    for (second, lines) in rows {
        console.second.store(second, Ordering::SeqCst);
        let may = gate.may(1, 1);
        expect_at(&rt, &second, (may, console.lines()), (true, (lines, 0)));
    }
    Ok(())
}
