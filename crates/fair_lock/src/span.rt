//! A span of time, measured between two readings of the clock.
ghost use Rattle.std.specs.Prelude.{◌≡◌, ◌<◌, IfOk, IfErr};
ghost use Rattle.std.specs.Duration.{as_nanos};
ghost use Rattle.fair_lock.specs.Spans.{nanos_left};

use crate::reading::Reading;
use std::rt::Clock;
use std::time::{Duration, Instant};

/// A span of time. If the clock could not be read, the span counts as over.
#[derive(Drop)]
pub(crate) struct Span {
    since: Reading,
    at_most: Duration,
}

/// Shows that a span of `at_most` was over. Only `Span::left` makes one, from a reading of its own.
#[derive(Drop)]
pub(crate) struct Over {
    since: Option<Instant>,
    at_most: Duration,
    by: Reading,
    ghost whole: { nanos_left since at_most by.at ≡ 0 },
}

/// What was left of a span that was not over. Only `Span::left` makes one, from a reading of its own.
#[derive(Drop)]
pub(crate) struct Rest {
    since: Option<Instant>,
    at_most: Duration,
    by: Reading,
    left: Duration,
    ghost exact: { as_nanos left ≡ nanos_left since at_most by.at },
    ghost some: { 0 < as_nanos left },
}

impl Span {
    ghost use Rattle.fair_lock.specs.Timeouts.{IsRestOf};

    /// Begins a span, and reads the clock for it.
    pub(crate) fn begin<R: Clock>(rt: &R, at_most: Duration) -> Span
        ensures { result.at_most ≡ at_most }
    {
        Span {
            since: Reading::now(rt),
            at_most,
        }
    }

    /// Returns what is left of the span, unless it is over.
    pub(crate) fn left<R: Clock>(&self, rt: &R) -> Result<Rest, Over>
        ensures over { IfErr result (λ over. over.at_most ≡ self.now.at_most) }
        ensures since { IfErr result (λ over. over.since ≡ self.now.since.at) }
        ensures left { IfOk result (IsRestOf self.now) }
    {
        let (since, at_most) = (self.since.at(), self.at_most);
        let by = Reading::now(rt);
        let left = left_at(since, at_most, by.at());
        if left.as_nanos() > 0 {
            return Ok(Rest {
                since,
                at_most,
                by,
                left,
            });
        }
        Err(Over { since, at_most, by })
    }
}

impl Rest {
    /// Returns how much time was left.
    pub(crate) fn left(&self) -> Duration
        ensures { result ≡ self.now.left }
    {
        self.left
    }
}

/// Returns what is left of `at_most` between the two readings, or nothing if either reading failed.
#[tactic(auto, unfolding(crate::specs::Spans::nanos_left))]
fn left_at(since: Option<Instant>, at_most: Duration, now: Option<Instant>) -> Duration
    ensures { as_nanos result ≡ nanos_left since at_most now }
{
    let (Some(since), Some(now)) = (since, now) else {
        return Duration::ZERO;
    };
    at_most.saturating_sub(now.duration_since(since))
}
