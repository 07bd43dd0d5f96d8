//! Acquires a line with a limit on the number of polls.
ghost use Rattle.std.specs.Prelude.{◌≡◌, ◌≤◌, ◌+◌, IsTrue};
ghost use Rattle.qolb_model.specs.PortStates.{may_ask};
ghost use Rattle.qolb_model.specs.Calls.{Withdraws};
ghost use Rattle.qolb_model.specs.Acquiring.{AcquiresBounded};
ghost use Rattle.qolb_model.specs.Counting.{IsWithinCalls};

use crate::answer::{Enq, Out, Poll, PortState};
use crate::keep::Keep;
use crate::sync::LineSync;

/// What `acquire_bounded` answers.
#[derive(Clone, Copy, Debug, PartialEq, Eq)]
pub enum Acquired {
    /// The node holds the line.
    Granted,
    /// The node used all its polls, and its request is withdrawn.
    Late,
    /// The line is closed, and the request has ended.
    Closed,
    /// The node made no request, because its last one is not clear yet.
    Busy,
}

/// Requests the line, polls at most `patience` times, and then withdraws the request if it still waits. Does not
/// allocate.
///
/// The call takes the atomic steps of its polls and of at most two more calls.
pub fn acquire_bounded<K: Keep, L: LineSync<K>>(
    line: &L,
    port: &mut L::Port,
    patience: u64,
) -> Acquired
    requires belongs { L.belongs line.now port.old }
    requires state { IsTrue (may_ask (L.view port.old).state) }
    ensures belongs { L.belongs line.now port.new }
    ensures acquires { AcquiresBounded K.allows (L.view port.old) (L.view port.new)
        (L.turn port.new) result }
    ensures patient { (L.counters port.new).poll_count
        ≤ (L.counters port.old).poll_count + patience }
    ensures late { result ≡ Acquired.Late → (L.counters port.new).poll_count
        ≡ (L.counters port.old).poll_count + patience }
    ensures steps { IsWithinCalls (L.max_steps line.now) 2 (L.counters port.old)
        (L.counters port.new) }
{
    match line.enqolb(port) {
        Enq::Granted => Acquired::Granted,
        Enq::Closed => Acquired::Closed,
        Enq::Busy => Acquired::Busy,
        Enq::Queued => match wait_bounded(line, port, patience) {
            Out::Granted => Acquired::Granted,
            Out::Closed => Acquired::Closed,
            Out::Withdrawn => Acquired::Late,
        },
    }
}

/// Polls at most `patience` times while the request waits, and then withdraws it.
fn wait_bounded<K: Keep, L: LineSync<K>>(line: &L, port: &mut L::Port, patience: u64) -> Out
    requires belongs { L.belongs line.now port.old }
    requires state { (L.view port.old).state ≡ PortState.Queued }
    ensures belongs { L.belongs line.now port.new }
    ensures withdraws { Withdraws K.allows (L.view port.old) (L.view port.new)
        (L.turn port.new) result }
    ensures patient { (L.counters port.new).poll_count
        ≤ (L.counters port.old).poll_count + patience }
    ensures late { result ≡ Out.Withdrawn → (L.counters port.new).poll_count
        ≡ (L.counters port.old).poll_count + patience }
    ensures steps { IsWithinCalls (L.max_steps line.now) 1 (L.counters port.old)
        (L.counters port.new) }
{
    for _ in 0..patience {
        match line.poll(port) {
            Poll::Waiting => {}
            Poll::Granted => return Out::Granted,
            Poll::Closed => return Out::Closed,
        }
    }
    // The request may have reached its turn since the last poll. Then it is granted or told that the line is closed,
    // and not withdrawn.
    line.withdraw(port)
}
