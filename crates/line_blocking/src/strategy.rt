//! Waits, without a timeout, for a line that the port has already requested. A strategy decides what the waiter does
//! between two polls.
ghost use Rattle.std.specs.Prelude.{◌≡◌};
ghost use Rattle.line_blocking.specs.Acquiring.{EndsWait};

use crate::spin::Got;
use qolb_model::{Keep, LineSync, Poll, PortState};
use std::sync::Wait;

/// What a waiter does between two polls.
pub trait WaitStrategy<K: Keep, L: LineSync<K>> {
    /// Waits after a `poll` that answered `Waiting`; `wait_by` calls it once after each such poll. The call may return
    /// early, for no reason.
    fn on_waiting<R: Wait>(&mut self, rt: &R, line: &L, port: &L::Port)
        requires belongs { L.belongs line.now port.now }
        requires state { (L.view port.now).state ≡ PortState.Queued };
}

/// Polls until the line is granted to the port, or the port is notified that the line is closed. Between two polls,
/// `strategy` decides how the caller waits. Blocks, and allocates no more than `strategy` does.
///
/// Returns `Granted` if the port holds the line, and `Closed` if the line is closed.
pub fn wait_by<R: Wait, K: Keep, L: LineSync<K>, W: WaitStrategy<K, L>>(
    rt: &R,
    line: &L,
    port: &mut L::Port,
    strategy: &mut W,
) -> Got
    requires belongs { L.belongs line.now port.old }
    requires state { (L.view port.old).state ≡ PortState.Queued }
    ensures belongs { L.belongs line.now port.new }
    ensures ends_wait { EndsWait K.allows (L.view port.old) (L.view port.new)
        (L.turn port.new) result }
{
    for _ in rt.forever() {
        match line.poll(port) {
            Poll::Granted => return Got::Granted,
            Poll::Closed => return Got::Closed,
            Poll::Waiting => strategy.on_waiting(rt, line, port),
        }
    }
    unreachable!()
}
