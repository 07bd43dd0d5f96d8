//! The ticket line is a partitioned ticket lock that hands over a line, which consists of 64 bytes, together with the
//! lock. A node draws a ticket, and waits on a cell until this cell contains the number of the ticket.
//!
//! Several tickets use the same cell, but at most one of them waits at any time. Cells are never cleared, so a release
//! takes only one swap if no successor has withdrawn.
#![tactic(auto)]

mod discipline;
mod invariant;
mod layout;
mod plays;
mod release;
mod slots;
mod steps;

pub use invariant::{Port, TicketLine, TicketQueue};
