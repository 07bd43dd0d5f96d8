//! Waits for a line by polling, with pauses between the polls. The wait ends when the line is granted or closed.
ghost use Rattle.std.specs.Prelude.{◌≡◌, IsTrue};
ghost use Rattle.qolb_model.specs.PortStates.{may_ask};
ghost use Rattle.line_blocking.specs.Acquiring.{Acquires, ComesSoon, EndsWait};

use crate::strategy::{WaitStrategy, wait_by};
use crossbeam_utils::Backoff;
use qolb_model::{Enq, Keep, LineSync, PortState};
use std::sync::Wait;
use std::thread::yield_now;

/// How many single pauses a waiter makes before it yields its processor or sleeps.
pub(crate) const SPIN_LIMIT: u32 = 256;

/// How many pauses a waiter makes between two polls. They take some 90 ns, on most processors.
const PAUSES_A_POLL: u32 = 8;

/// How many polls, each with pauses behind it, a waiter makes before it yields its processor or sleeps.
pub(crate) const SPIN_POLLS: u32 = SPIN_LIMIT / PAUSES_A_POLL;

/// How a wait without a timeout ended.
#[derive(Clone, Copy, Debug, PartialEq, Eq)]
pub enum Got {
    /// The node holds the line.
    Granted,
    /// The line is closed, and the node was notified of this.
    Closed,
}

/// The pauses that a waiter makes between two polls.
#[derive(Drop)]
struct Pauses {
    polls: u32,
}

impl Pauses {
    fn new() -> Pauses {
        Pauses { polls: SPIN_POLLS }
    }

    /// Pauses by `pause_between_polls` the first `SPIN_POLLS` times, and afterwards by a yield to other threads.
    fn pause(&mut self) {
        if self.polls > 0 {
            self.polls -= 1;
            pause_between_polls();
        } else {
            yield_now();
        }
    }
}

impl<K: Keep, L: LineSync<K>> WaitStrategy<K, L> for Pauses {
    fn on_waiting<R: Wait>(&mut self, _rt: &R, _line: &L, _port: &L::Port) {
        self.pause();
    }
}

/// Makes a single pause of the processor.
pub(crate) fn short_pause() {
    // A fresh backoff pauses once. A backoff that is kept pauses twice as long each time, which costs a third of the
    // speed.
    Backoff::new().spin();
}

/// Makes the pauses between two polls. A poll immediately after another would take the word's cache line from the
/// thread that is about to write it.
pub(crate) fn pause_between_polls() {
    for _ in 0..PAUSES_A_POLL {
        short_pause();
    }
}

/// Acquires the line. The call requests the line until the port is not busy, and then polls until the request ends. It
/// blocks: the caller pauses between two polls, and after 256 pauses yields its processor. It does not allocate.
///
/// Returns `Granted` if the port holds the line, and `Closed` if the line is closed.
pub fn acquire<R: Wait, K: Keep, L: LineSync<K>>(rt: &R, line: &L, port: &mut L::Port) -> Got
    requires belongs { L.belongs line.now port.old }
    requires state { IsTrue (may_ask (L.view port.old).state) }
    ensures belongs { L.belongs line.now port.new }
    ensures acquires { Acquires K.allows (L.view port.old) (L.view port.new)
        (L.turn port.new) result }
    ensures soon { result ≡ Got.Granted → ComesSoon L.view L.counters port.old port.new }
{
    let mut pauses = Pauses::new();
    for _ in rt.forever() {
        match line.enqolb(port) {
            Enq::Granted => return Got::Granted,
            Enq::Closed => return Got::Closed,
            Enq::Queued => return wait(rt, line, port),
            Enq::Busy => pauses.pause(),
        }
    }
    unreachable!()
}

/// Polls until the line is granted to the port, or the port is notified that the line is closed. This is the wait of
/// `acquire`, for a port that has already made its request. Blocks, and does not allocate.
///
/// Returns `Granted` if the port holds the line, and `Closed` if the line is closed.
pub fn wait<R: Wait, K: Keep, L: LineSync<K>>(rt: &R, line: &L, port: &mut L::Port) -> Got
    requires belongs { L.belongs line.now port.old }
    requires state { (L.view port.old).state ≡ PortState.Queued }
    ensures belongs { L.belongs line.now port.new }
    ensures ends_wait { EndsWait K.allows (L.view port.old) (L.view port.new)
        (L.turn port.new) result }
{
    wait_by(rt, line, port, &mut Pauses::new())
}
