//! The code that the two array locks, `ring_line` and `ticket_line`, share. The nodes of an array lock draw tickets,
//! and wait on the cells of an array.
#![tactic(auto)]

mod layout;
mod local;
mod plays;

pub use layout::{
    CELLS, STRIDE, TICKET_WORD, WORDS, cell_count, cell_word, is_freed, no_word_is_none, node_word,
    word_count, words_are_apart,
};
pub use local::{Local, Point};
pub use plays::{FreeNode, LoadNode, NodeGhosts, Reset, TakeTicket};
