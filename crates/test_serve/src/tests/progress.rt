//! Tests what the program prints in addition to its output: reports of its progress if they are requested, and nothing
//! else.
use crate::tests::hostile::RUNS;
use crate::tests::runs::told;
use std::alloc::Global;
use std::fmt::Display;
use std::io;
use std::rt::Clock;
use std::sync::Wait;
use std::sync::atomic::{AtomicU64, Ordering};
use std::test::Fail;
use std::thread::Threads;
use std::time::Duration;

/// A board's three jobs, and the report.
const BOARD: &str = "board workers 1\n1 put 5\n1 take\n1 take\n";

const REPORT: &str = "stored 1\nfull 0\ntaken 1\nempty 1\nleft 0\n";

/// A runtime on which one second passes between two readings of the clock, or which has no clock.
///
/// It counts the lines on its standard error that report how many of three jobs are done, in the expected order, and it
/// counts all other writes to standard error separately.
#[derive(Drop)]
struct Slow<'a, R> {
    /// Allows waits and threads.
    _rt: &'a R,
    alloc: Global,
    has_clock: bool,
    seconds: AtomicU64,
    said: AtomicU64,
    others: AtomicU64,
}

impl<'a, R> Slow<'a, R> {
    fn new(rt: &'a R, alloc: Global, has_clock: bool) -> Slow<'a, R> {
        Slow {
            _rt: rt,
            alloc,
            has_clock,
            seconds: AtomicU64::new(0),
            said: AtomicU64::new(0),
            others: AtomicU64::new(0),
        }
    }

    /// Returns the number of expected lines, and the number of others.
    fn lines(&self) -> (u64, u64) {
        (
            self.said.load(Ordering::SeqCst),
            self.others.load(Ordering::SeqCst),
        )
    }
}

impl<R: Wait> Wait for Slow<'_, R> {}

impl<R: Threads> Threads for Slow<'_, R> {}

impl<R> Clock for Slow<'_, R> {
    fn monotonic(&self) -> io::Result<Duration> {
        if self.has_clock {
            Ok(Duration::from_secs(self.seconds.fetch_add(1, Ordering::SeqCst)))
        } else {
            Err(io::Error::from(io::ErrorKind::Other))
        }
    }

    fn since_1970(&self) -> io::Result<Duration> {
        self.monotonic()
    }
}

impl<R> Eprint for Slow<'_, R> {
    fn eprint<D: Display + Drop>(&self, _value: D) -> io::Result<()> {
        self.others.fetch_add(1, Ordering::SeqCst);
        Ok(())
    }

    fn eprintln<D: Display + Drop>(&self, value: D) -> io::Result<()> {
        let done = self.said.load(Ordering::SeqCst).saturating_add(1);
        let line = format!(in self.alloc; "{value}");
        let next = format!(in self.alloc; "{done} of 3 jobs done");
        let is_next = match (line, next) {
            (Ok(line), Ok(next)) => line.as_str() == next.as_str(),
            _ => false,
        };
        let count = if is_next { &self.said } else { &self.others };
        count.fetch_add(1, Ordering::SeqCst);
        Ok(())
    }
}

/// Command lines, whether there is a clock, and the number of lines that report progress.
static SAID: [(&[&str], bool, u64); 6] = [
    (&["board"], true, 0),
    (&["board", "--progress"], true, 3),
    (&["board", "--progress"], false, 0),
    (&["board", "--sleep"], true, 0),
    (
        &["board", "--progress", "--sleep", "--kind", "ring"],
        true,
        3,
    ),
    (&["board", "--kind", "ticket", "--progress"], true, 3),
];

#[test]
fn progress_is_said_each_second_if_it_is_asked_for(rt: HostRuntime) -> Result<(), Fail> {
    let alloc = rt.alloc();
    for (words, has_clock, lines) in &SAID {
        let slow = Slow::new(&rt, alloc, *has_clock);
        let (status, out, err) = told(&slow, alloc, *words, BOARD)?;
        assert_eq!(rt;
            (status, out.as_str(), err.as_str(), slow.lines()),
            (0, REPORT, "", (*lines, 0)),
            "of {words:?}"
        );
    }
    Ok(())
}

#[test]
fn nothing_else_is_said(rt: HostRuntime) -> Result<(), Fail> {
    let alloc = rt.alloc();
    for (words, script, reply) in &RUNS {
        let slow = Slow::new(&rt, alloc, true);
        let (status, out, err) = told(&slow, alloc, *words, *script)?;
        assert_eq!(rt;
            (status, out.as_str(), err.as_str(), slow.lines()),
            (0, *reply, "", (0, 0)),
            "of {words:?}"
        );
    }
    Ok(())
}
