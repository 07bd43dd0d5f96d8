//! Tests of sleeping, wake-ups, timeouts and fairness, and tests of the example programs on each kind of line.
//!
//! Each module of this crate is compiled only for the tests, because otherwise it would be proved twice.
#![tactic(auto)]

#[cfg(test)]
mod tests;
