//! Zero-sized proof tokens. Each token records what a thread's last steps on the lock found. Only the function in this
//! file creates tokens, so a caller cannot claim to have found something that it has not found.
ghost use Rattle.std.specs.Prelude.{◌≡◌, ◌<◌, ◌≤◌, ◌⊎◌};
ghost use Rattle.lock_core.specs.Views.{InTime};
ghost use Rattle.fair_lock.specs.Closing.{IsOut};
ghost use Rattle.fair_lock.specs.Found.{ShowsTaken};

use lock_core::ValueSeat;

/// The lock was taken: another thread was served, waited, or drew a ticket at that moment. The caller itself was
/// outside.
#[derive(Drop)]
pub(crate) struct FoundTaken(());

impl FoundTaken {
    /// Makes the token from the last steps of the seat.
    pub(crate) fn by<T>(seat: &ValueSeat<T>) -> FoundTaken
        requires taken { ShowsTaken seat.now }
        requires out { InTime seat.now IsOut }
    {
        let _ = seat;
        FoundTaken(())
    }
}
