//! How the first waiter in the queue of a barging lock watches the lock word. The waiter lets other threads barge for a
//! while, and then requests a handoff. After this request, the next thread that leaves the lock word reserves the word
//! for the waiter.
ghost use Rattle.std.specs.Prelude.{◌≡◌, ◌≢◌, ◌+◌, ◌≤◌, Some, false};
ghost use Rattle.lock_core.specs.Answers.{IfSeenHeld, IfSeenFree, IfSeenForHead};

use crate::policy::{HEAD_LOOKS, REQUEST_PART, pause_as_head};
use lock_core::LockWordState;

/// What the queue head does after a look at the lock word.
#[derive(Clone, Copy, Debug, PartialEq, Eq)]
pub(crate) enum Next {
    /// The queue head takes the lock word, if the word is still as it was seen.
    Take,
    /// The queue head pauses, and looks again.
    Look,
    /// The queue head requests a handoff, and looks again.
    Request,
    /// The queue head requests a handoff, and sleeps until it is woken.
    Sleep,
}

/// What the queue head has seen of the lock word.
#[derive(Drop)]
pub(crate) struct Watch {
    /// The number of threads that may barge before the queue head requests a handoff.
    patience: u64,
    /// How many newcomers, which are threads that barged, the lock word counted when the queue head first saw it held.
    first: Option<u64>,
    /// The same number at the queue head's last look.
    last: Option<u64>,
    looks: u32,
    requested: bool,
}

impl Watch {
    /// Begins a watch. The queue head has not looked yet at the lock with this barging limit.
    pub(crate) fn new(barging_limit: u64) -> Watch {
        Watch {
            patience: barging_limit / REQUEST_PART,
            first: None,
            last: None,
            looks: 0,
            requested: false,
        }
    }

    /// Returns what the queue head does after this look. It takes the word if the word is reserved for it, or if it
    /// sees the word free with no acquisition since its last look.
    pub(crate) fn next(&mut self, seen: LockWordState) -> Next
        ensures for_head { IfSeenForHead seen (result ≡ Next.Take) }
        ensures free { IfSeenFree seen (λ n. result ≡ Next.Take → self.old.last ≡ Some n) }
        ensures takes { IfSeenFree seen (λ n. self.old.last ≡ Some n → result ≡ Next.Take) }
        ensures noted { IfSeenFree seen (λ n. self.new.last ≡ Some n) }
        ensures held { IfSeenHeld seen (λ n _. (result ≢ Next.Take) × (self.new.last ≡ Some n)) }
        ensures requests { IfSeenHeld seen (λ _ requested.
            result ≡ Next.Request → requested ≡ false) }
        ensures patient { result ≡ Next.Sleep → 100 ≤ self.old.looks }
        ensures sleeps { 100 ≤ self.old.looks → result ≢ Next.Look }
    {
        match seen {
            LockWordState::ForHead => Next::Take,
            LockWordState::Free { newcomers } => {
                if self.last.replace(newcomers) == Some(newcomers) {
                    Next::Take
                } else {
                    self.look_or_sleep()
                }
            }
            LockWordState::Held {
                newcomers,
                requested,
            } => {
                self.last = Some(newcomers);
                let first = *self.first.get_or_insert(newcomers);
                self.requested = requested;
                if !requested && newcomers.saturating_sub(first) > self.patience {
                    Next::Request
                } else {
                    self.look_or_sleep()
                }
            }
        }
    }

    fn look_or_sleep(&mut self) -> Next
        ensures last { self.new.last ≡ self.old.last }
        ensures looks { result ≢ Next.Take }
        ensures keeps { result ≢ Next.Request }
        ensures patient { result ≡ Next.Sleep → 100 ≤ self.old.looks }
        ensures sleeps { 100 ≤ self.old.looks → result ≡ Next.Sleep }
        ensures counts { result ≡ Next.Look → self.new.looks ≡ self.old.looks + 1 }
    {
        if self.looks >= HEAD_LOOKS {
            return Next::Sleep;
        }
        self.looks += 1;
        Next::Look
    }

    /// Pauses before the next look, for a shorter time once a handoff is requested.
    pub(crate) fn pause(&self) {
        pause_as_head(self.requested);
    }
}
