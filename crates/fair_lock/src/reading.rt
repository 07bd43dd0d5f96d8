//! A reading of the clock. Only the function in this file creates readings, and a reading cannot be copied. Therefore a
//! caller that presents a reading has read the clock.
ghost use Rattle.std.specs.Prelude.{◌≡◌};

use std::rt::Clock;
use std::time::Instant;

/// What the clock showed, or `None` if it could not be read.
#[derive(Drop)]
pub(crate) struct Reading {
    at: Option<Instant>,
}

impl Reading {
    /// Reads the clock.
    pub(crate) fn now<R: Clock>(rt: &R) -> Reading {
        Reading {
            at: Instant::now(rt).ok(),
        }
    }

    /// The time that was read.
    pub(crate) fn at(&self) -> Option<Instant>
        ensures { result ≡ self.now.at }
    {
        self.at
    }
}
