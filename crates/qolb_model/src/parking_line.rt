//! The trait `ParkingLine` for lines on which a waiting thread can park.
ghost use Rattle.std.specs.Prelude.{◌≡◌};

use crate::answer::PortState;
use crate::keep::Keep;
use crate::sync::LineSync;
use std::sync::Wait;
use std::time::Duration;

/// A line on which a waiter can park until its turn may have come.
///
/// Parking changes no port and tells the waiter nothing: the next `poll` says whether its turn has come. A release
/// unparks the next holder.
pub trait ParkingLine<K: Keep>: LineSync<K> {
    /// Parks until the request's turn may have come, or until `at_most` is over. The call may return early, for no
    /// reason.
    ///
    /// It blocks, and calls the system.
    fn sleep<R: Wait>(&self, rt: &R, port: &Self::Port, at_most: Duration)
        requires belongs { Self.belongs self.now port.now }
        requires state { (Self.view port.now).state ≡ PortState.Queued };
}
