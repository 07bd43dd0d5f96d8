//! The masked writes of a line, which change only the bytes in a mask.
use line_lanes::{Line64, Mask};

/// A masked write of a line: bytes, and the mask of the places that they are written to.
#[derive(Clone, Copy, Debug, PartialEq, Eq)]
pub struct Write {
    pub mask: Mask,
    pub bytes: Line64,
}
