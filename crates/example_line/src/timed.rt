//! A thread acquires a line with a timeout. If the wait times out, the request of its node is withdrawn, and the node
//! may request the line again later.
ghost use Rattle.std.specs.Prelude.{◌≡◌, ◌≢◌, IsTrue};
ghost use Rattle.qolb_model.specs.PortStates.{may_ask};
ghost use Rattle.qolb_model.specs.Enqueueing.{Asks};
ghost use Rattle.qolb_model.specs.Releasing.{IsTold};
ghost use Rattle.qolb_model.specs.Sums.{KnowsOwnPlaces};
ghost use Rattle.line_blocking.specs.Acquiring.{IsLate};
ghost use Rattle.example_line.specs.Counter.{AddsJust};

use crate::counter::add_one;
use line_blocking::{TimedAcquire, acquire_timeout};
use qolb_model::{Free, ParkingLine};
use std::rt::Clock;
use std::sync::Wait;
use std::time::Duration;

/// Adds 1 to the first lane, in a turn that is granted within `at_most`.
///
/// On `TimedOut` nothing is added, and the port does not hold the line.
pub fn add_within<R: Wait + Clock, L: ParkingLine<Free>>(
    rt: &R,
    line: &L,
    port: &mut L::Port,
    at_most: Duration,
) -> TimedAcquire
    requires belongs { L.belongs line.now port.old }
    requires state { IsTrue (may_ask (L.view port.old).state) }
    ensures belongs { L.belongs line.now port.new }
    ensures state { IsTrue (may_ask (L.view port.new).state) }
    ensures asks { result ≢ TimedAcquire.TimedOut → Asks (L.view port.old) (L.view port.new) }
    ensures told { result ≡ TimedAcquire.Closed → IsTold (L.view port.new) }
    ensures late { result ≡ TimedAcquire.TimedOut → IsLate (L.view port.old) (L.view port.new) }
    ensures adds { result ≡ TimedAcquire.Granted → KnowsOwnPlaces (L.view port.old)
        → AddsJust 1 (L.view port.old) (L.view port.new) }
    ensures adds_nothing { result ≢ TimedAcquire.Granted → KnowsOwnPlaces (L.view port.old)
        → AddsJust 0 (L.view port.old) (L.view port.new) }
{
    let got = acquire_timeout(rt, line, port, at_most);
    if let TimedAcquire::Granted = got {
        add_one::<L>(port);
        line.deqolb(port);
    }
    got
}
