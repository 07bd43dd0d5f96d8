//! Defines lines of 64 bytes, masks (sets of a line's bytes), and functions on lines and masks. The functions process a
//! line as two vectors of 32 bytes.
#![tactic(auto)]

mod compare;
mod half;
mod lanes;
mod line;
mod write;

pub use compare::{agrees, changed};
pub use lanes::{add_lanes, lane, lane_sum, set_lane, with_lane};
pub use line::{Line64, Mask};
pub use write::{merge, placed};
