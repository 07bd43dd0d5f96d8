//! Small example programs that work on any kind of line and can be copied: a shared counter, a mailbox, an addition
//! with a timeout, and a program with a data invariant of its own.
#![tactic(auto)]

pub mod capacity;
pub mod counter;
pub mod fair;
pub mod mailbox;
pub mod timed;
