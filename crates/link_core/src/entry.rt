//! The entry of a node, which is the word on which the node waits.

/// An entry word, as a record of its fields. Each field is added at most once between two resets of the entry.
#[derive(Clone, Copy, Debug, PartialEq, Eq)]
pub struct Entry {
    pub granted: bool,
    pub rolled: bool,
    pub done: bool,
    pub freed: bool,
    /// The node that prepended next, or 0 while that is not known.
    pub link: u64,
}

/// An entry just after its reset.
pub const EMPTY: Entry = Entry {
    granted: false,
    rolled: false,
    done: false,
    freed: false,
    link: 0,
};
