//! Tests of the calls on each kind of line. One thread makes the calls for all nodes.
//!
//! Each module of this crate is compiled only for the tests, because otherwise it would be proved twice.
#![tactic(auto)]

#[cfg(test)]
mod checked_line;
#[cfg(test)]
mod tests;
