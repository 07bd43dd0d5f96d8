//! The core of a ticket lock for any number of threads. A strict lock serves its callers in the order of their tickets.
//! A barging lock also lets threads without a ticket overtake the queue, which is called *barging*.
//!
//! The crate contains the atomic steps of the lock, the contract of each step, and the invariant that all steps
//! preserve. No call waits, because the callers implement spinning, sleeping and waking themselves. `fair_lock` and
//! `qolb_locks` call these functions.
#![tactic(auto)]

mod barging;
mod drawing;
mod head;
mod invariant;
pub mod layout;
mod meets;
mod opening;
mod plays;
mod releasing;
mod shutting;
mod view;
mod waiting;
mod withdrawing;

pub use barging::{BargeResult, barge, barge_if};
pub use drawing::{DrawNearResult, DrawWithinResult, draw, draw_near, draw_within, try_draw};
pub use head::{
    HeadSleepResult, LockWordState, TakeResult, announce_head_sleep, read_lock_word,
    request_handoff, take_lock_word,
};
pub use invariant::{
    LockInvariant, SharedTable, SharedValue, TicketSeat, TicketTable, ValueSeat, ValueTable,
};
pub use meets::{
    drawn_while_open, first_come, learn, learn_order, never_two, never_two_heads, no_lost_wake,
    no_lost_wake_at_lock_word, none_left_at_reopening, none_served_after_shut, places_differ, tell,
};
pub use opening::{
    LockKind, OpenError, OpenValueError, WORDS, check_kind, new_seat, open, open_value,
};
pub use releasing::{LeaveResult, ReleaseResult, leave_lock_word, leave_lock_word_if, release};
pub use shutting::{check_open, reopen, shut};
pub use view::{Looks, Phase, View};
pub use waiting::{SleepResult, announce_sleep, poll, retract_sleep};
pub use withdrawing::withdraw;
