//! The core of `link_line`, a queue lock in which each node links itself to its predecessor. The core is a state
//! machine, whose states and events are plain values, without threads or shared memory.
//!
//! Each atomic step of `link_line` corresponds to the event of the same name.
#![tactic(auto)]

mod asking;
mod entry;
mod event;
mod holding;
pub mod laws;
mod machine;
mod place;
mod point;
mod rank;
mod releasing;
mod replaying;
mod seat;
mod state;
mod steps;
mod told;
mod waiting;

pub use entry::Entry;
pub use event::Event;
pub use machine::Core;
pub use place::Place;
pub use point::Point;
pub use replaying::replay;
pub use seat::{NodeCall, Passed, ReleaseCause};
pub use told::{NotEnabled, Told};
