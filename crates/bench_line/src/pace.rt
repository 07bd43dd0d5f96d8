//! Computes and prints the time of one round. In a round, a thread acquires and releases a lock once.
ghost use Rattle.std.specs.Prelude.{◌≡◌, ◌*◌, ◌/◌, max};
ghost use Rattle.std.specs.Duration.{as_nanos};

use std::time::Duration;

/// The number of rounds, and the time of each. The time is rounded down.
#[derive(Clone, Copy)]
pub struct Pace {
    pub rounds: u128,
    /// The time of a round, in tenths of a nanosecond.
    pub tenths: u128,
}

impl Pace {
    /// Returns the speed of `rounds` rounds with each of `threads` threads in `time`.
    pub fn of(threads: u64, rounds: u64, time: Duration) -> Pace
        ensures rounds { result.rounds ≡ threads * rounds }
        ensures tenths { result.tenths ≡ as_nanos time * 10 / max result.rounds 1 }
    {
        let all = u128::from(threads) * u128::from(rounds);
        let nanos = time.as_nanos();
        Pace {
            rounds: all,
            tenths: nanos * 10 / all.max(1),
        }
    }
}
