//! The ring is an array lock that hands over a line, which consists of 64 bytes, together with the lock. A node draws a
//! ticket, and waits on a cell of its own.
//!
//! To release the line, the holder clears its cell and then grants the next cell. A node that withdraws its request
//! writes its number into its cell, where a later release finds the number.
#![tactic(auto)]

mod discipline;
mod invariant;
mod layout;
mod plays;
mod release;
mod steps;

pub use invariant::{Port, RingLine, RingQueue};
pub use release::passed_nodes_have_room;
