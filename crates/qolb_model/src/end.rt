//! The ways in which a request can end.
use crate::write::Write;

/// The end of a request.
#[derive(Clone, Copy, Debug, PartialEq, Eq)]
pub enum End {
    /// The request was served. The values are what its turn wrote, and whether its turn closed the line.
    Served(Write, bool),
    /// The request was withdrawn, and a release passed it.
    Gone,
    /// The request was told that the line is closed.
    Told,
}
