//! The places where the line can be: at home (no node has it), in a node's mailbox (waiting to be taken), or in a
//! node's hand (the node has it).

/// The place of the line.
#[derive(Clone, Copy, Debug, PartialEq, Eq)]
pub enum Place {
    Home,
    Mailbox(u64),
    Hand(u64),
}
