//! A gate that lets every worker start the next job at once, and reports how many jobs are finished.
use crate::gate::Gate;
use std::io;
use std::rt::Clock;
use std::sync::atomic::{AtomicBool, AtomicU64, Ordering};
use std::time::Instant;

/// A gate that refuses no worker, and writes the number of finished jobs to standard error, at most once a second.
///
/// A worker that asks the gate after a job writes the message, unless another worker has already written one in that
/// second. While all workers wait, no message is written.
#[derive(Drop)]
pub struct Progress<'a, R> {
    rt: &'a R,
    start: Instant,
    jobs: AtomicU64,
    done: AtomicU64,
    /// The last second, counted from `start`, in which a worker wrote a message.
    said: AtomicU64,
    /// This is `true` while a worker writes a message.
    ///
    /// Meanwhile, no other worker writes. Therefore the number in a message is never smaller than the number in the
    /// message before.
    writing: AtomicBool,
}

impl<'a, R: Clock + Eprint> Progress<'a, R> {
    /// Makes a gate, and starts its clock.
    ///
    /// # Errors
    ///
    /// Returns the error of the clock if the clock cannot be read.
    pub fn new(rt: &'a R) -> io::Result<Progress<'a, R>> {
        Ok(Progress {
            rt,
            start: Instant::now(rt)?,
            jobs: AtomicU64::new(0),
            done: AtomicU64::new(0),
            said: AtomicU64::new(0),
            writing: AtomicBool::new(false),
        })
    }

    /// Writes how many jobs are done.
    ///
    /// Does nothing if another worker is writing, or if a worker has already written in this second. A failed write is
    /// ignored.
    fn say(&self) {
        let Ok(time) = self.start.elapsed(self.rt) else {
            return;
        };
        let second = time.as_secs();
        if !self.is_due(second) || self.writing.swap(true, Ordering::SeqCst) {
            return;
        }
        // Another worker may have written meanwhile.
        if self.is_due(second) {
            self.said.store(second, Ordering::SeqCst);
            let done = self.done.load(Ordering::SeqCst);
            let jobs = self.jobs.load(Ordering::SeqCst);
            let _ = eprintln!(self.rt; "{done} of {jobs} jobs done");
        }
        self.writing.store(false, Ordering::SeqCst);
    }

    /// Returns `true` if no worker has written in this second.
    fn is_due(&self, second: u64) -> bool {
        second > self.said.load(Ordering::SeqCst)
    }
}

impl<R: Clock + Eprint> Gate for Progress<'_, R> {
    ghost may_refuse = { λ gate worker. ⊥ };

    fn begins(&self, jobs: usize) {
        self.jobs.store(jobs as u64, Ordering::SeqCst);
    }

    fn may(&self, _worker: u64, at: u64) -> bool {
        // A worker that asks for its next job has finished the job before.
        if at > 0 {
            self.done.fetch_add(1, Ordering::SeqCst);
            self.say();
        }
        true
    }
}
