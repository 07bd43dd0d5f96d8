//! The list of the tests of this crate, by subject.

mod answers;
mod asleep;
mod eight;
mod errors;
mod gates;
mod progress;
mod rows;
mod runs;
mod scarce;
mod work;
