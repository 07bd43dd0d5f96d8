//! The list of the tests of this crate, by subject.

mod pictures;
mod replays;
mod rows;
mod scarce;
mod step_pictures;
mod steps;
mod styles;
