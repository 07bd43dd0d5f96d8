//! The record that the history keeps of one critical section.

/// What a turn found, and what it left.
#[derive(Clone, Copy)]
pub struct Turn {
    pub found: u64,
    pub left: u64,
}
