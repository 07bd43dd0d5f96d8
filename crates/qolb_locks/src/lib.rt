//! A static library with which C code uses the locks of the crate `lock_core`. Each caller has a reference to the lock
//! and a ticket of its own. `exports.rt` exports the calls to C.
//!
//! Each call first checks the state of the ticket. If this state does not allow the call, the call changes nothing and
//! answers `Misuse`. Each call takes a bounded number of atomic steps, and no call waits.
#![tactic(auto)]

mod answer;
mod barging;
mod claim;
mod drawing;
mod exports;
mod head;
mod layout;
mod lock;
mod lock_ref;
mod meets;
mod opening;
mod releasing;
mod shutting;
mod ticket;
mod waiting;
mod withdrawing;

/// The most requests that may be open when a call with a timeout, or a task, draws a ticket.
///
/// C abandons the ticket of such a call if the window of withdrawal does not reach it, and one release has to pass all
/// abandoned tickets. A release passes this number of them in some 2 ms.
pub const MAX_OPEN_WITH_TIMEOUT: u64 = 12_288;

pub use answer::Answer;
pub use barging::barge;
pub use claim::Claim;
pub use drawing::{draw, draw_and_check, draw_near, try_draw};
pub use head::{announce_head_sleep, request_handoff, take_lock_word};
pub use lock::Lock;
pub use lock_ref::LockRef;
pub use meets::{
    drawn_while_open, first_come, never_two, never_two_at_turn, no_lost_wake,
    no_lost_wake_at_lock_word, none_left_at_reopening, none_served_after_shut, places_differ,
};
pub use opening::open;
pub use releasing::{leave_lock_word, release};
pub use shutting::{check_open, reopen, shut};
pub use ticket::{State, Ticket};
pub use waiting::{announce_sleep, poll, retract_sleep};
pub use withdrawing::withdraw;
