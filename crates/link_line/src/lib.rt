//! The link line is a queue lock whose waiting nodes form a linked list. The line is handed over from node to node
//! along this list. Each node links itself to the node before it.
//!
//! A release never waits for a missing link. Instead, the releasing node leaves the line in its own entry, and the node
//! that links later takes the line from there.
#![tactic(auto)]

mod discipline;
mod enqueue;
mod invariant;
mod layout;
mod local;
mod plays;
mod release;
mod steps;

pub use invariant::{LinkLine, LinkQueue, Port};
pub use layout::{ENTRY_STRIDE, GRANTED, LINK_UNIT, no_word_is_none, word_count, words_are_apart};
pub use local::LinkLocal;
pub use qolb_model::Prep;
pub use release::passed_nodes_have_room;
