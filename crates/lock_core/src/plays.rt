//! The kinds of atomic steps, and what a caller learns from each kind. An operation on the lock's table takes the kind
//! of its step as a type argument.
ghost use Rattle.lock_core.specs.Views as views;
ghost use Rattle.lock_core.specs.Slots as slots;
ghost use Rattle.lock_core.specs.Steps as steps;
ghost use Rattle.lock_core.specs.Meets as meets;

use crate::view::View;
use atomic_table::{Join, Play, Split};

/// A new caller gets its seat.
pub(crate) struct Come;

impl<T> Play<T, View> for Come {
    ghost then = { slots.with_slot steps.comes };
}

/// A caller draws the next ticket.
pub(crate) struct Draw;

impl<T> Play<T, View> for Draw {
    ghost then = { slots.with_slot (steps.noting steps.added_word steps.draws) };
}

/// A caller reads the tail.
pub(crate) struct ReadTail;

impl<T> Play<T, View> for ReadTail {
    ghost then = { slots.with_slot (steps.noting steps.kept_word steps.reads) };
}

/// A caller that has read the tail reads the cell of the next ticket.
pub(crate) struct ReadCell;

impl<T> Play<T, View> for ReadCell {
    ghost then = { slots.with_slot (steps.noting steps.kept_word steps.reads_cell) };
}

/// A caller that has read that cell draws the ticket, which is at its turn.
pub(crate) struct DrawGranted;

impl<T> Play<T, View> for DrawGranted {
    ghost then = { slots.with_slot (steps.noting steps.exchanged_word steps.draws_granted) };
}

/// A caller that has read that cell draws the ticket, which is near its turn or at it.
pub(crate) struct DrawNear;

impl<T> Play<T, View> for DrawNear {
    ghost then = { slots.with_slot (steps.noting steps.exchanged_word steps.draws_near) };
}

/// A waiter reads its cell, or takes its count back.
pub(crate) struct Look;

impl<T> Play<T, View> for Look {
    ghost then = { slots.with_slot (steps.noting steps.subtracted_word steps.looks) };
}

/// A waiter counts itself at its cell.
pub(crate) struct AnnounceSleep;

impl<T> Play<T, View> for AnnounceSleep {
    ghost then = { slots.with_slot (steps.noting steps.exchanged_word steps.announces_sleep) };
}

/// A waiter marks its request as withdrawn in its cell.
pub(crate) struct SetWithdrawn;

impl<T> Play<T, View> for SetWithdrawn {
    ghost then = { slots.with_slot (steps.noting steps.added_word steps.sets_withdrawn) };
}

/// The caller at its turn grants the next ticket.
pub(crate) struct Grant;

impl<T> Play<T, View> for Grant {
    ghost then = { slots.with_slot (steps.noting steps.added_word steps.grants) };
}

/// The caller that has the turn of a withdrawn request clears its mark.
pub(crate) struct ClearWithdrawn;

impl<T> Play<T, View> for ClearWithdrawn {
    ghost then = { slots.with_slot (steps.noting steps.subtracted_word steps.clears_withdrawn) };
}

/// A caller reads the lock word.
pub(crate) struct ReadLockWord;

impl<T> Play<T, View> for ReadLockWord {
    ghost then = { slots.with_slot (steps.noting steps.kept_word steps.reads_lock_word) };
}

/// A thread barges: it takes the lock word without a ticket.
pub(crate) struct Barge;

impl<T> Play<T, View> for Barge {
    ghost then = { slots.with_slot (steps.noting steps.exchanged_word steps.barges) };
}

/// The queue head takes the lock word.
pub(crate) struct TakeLockWord;

impl<T> Play<T, View> for TakeLockWord {
    ghost then = { slots.with_slot (steps.noting steps.exchanged_word steps.takes_lock_word) };
}

/// The caller inside leaves the lock word.
pub(crate) struct Leave;

impl<T> Play<T, View> for Leave {
    ghost then = { slots.with_slot (steps.noting steps.exchanged_word steps.leaves) };
}

/// The caller at its turn in a strict lock reads whether the lock is open.
pub(crate) struct CheckOpen;

impl<T> Play<T, View> for CheckOpen {
    ghost then = { slots.with_slot (steps.noting steps.kept_word steps.checks_open) };
}

/// The caller that is served shuts the lock.
pub(crate) struct Shut;

impl<T> Play<T, View> for Shut {
    ghost then = { slots.with_slot (steps.noting steps.added_word steps.shuts) };
}

/// The caller at its turn reopens the lock.
pub(crate) struct Reopen;

impl<T> Play<T, View> for Reopen {
    ghost then = { slots.with_slot (steps.noting steps.subtracted_word steps.reopens) };
}

/// The queue head announces its sleep at the lock word.
pub(crate) struct AnnounceHeadSleep;

impl<T> Play<T, View> for AnnounceHeadSleep {
    ghost then = { slots.with_slot (steps.noting steps.exchanged_word steps.announces_head_sleep) };
}

/// The queue head requests a handoff.
pub(crate) struct RequestHandoff;

impl<T> Play<T, View> for RequestHandoff {
    ghost then = { slots.with_slot (steps.noting steps.exchanged_word steps.requests_handoff) };
}

/// Two callers meet.
pub(crate) struct Meet;

impl Join<View> for Meet {
    ghost both = { meets.meet };

    ghost spent = { views.initial_view 0 };
}

impl<T> Play<T, View> for Meet {
    ghost then = { slots.with_slot meets.tells_of_two };
}

/// A caller tells another one what it knows.
pub(crate) struct Tell;

impl Split<View> for Tell {
    ghost left = { λ v. v };

    ghost right = { meets.told_of };
}

/// A caller learns what another one knows.
pub(crate) struct Learn;

impl Join<View> for Learn {
    ghost both = { meets.learns };

    ghost spent = { views.initial_view 0 };
}

/// A caller at its turn learns which requests have ended.
pub(crate) struct LearnEnded;

impl Join<View> for LearnEnded {
    ghost both = { meets.learns_ended };

    ghost spent = { views.initial_view 0 };
}

/// A caller at its turn is told that the requests that it knows to have ended are before its own.
pub(crate) struct TellOrder;

impl<T> Play<T, View> for TellOrder {
    ghost then = { slots.with_slot meets.tells_order };
}
