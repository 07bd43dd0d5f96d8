//! Tests of task boards, of accounts, and of programs with threads, on any kind of line. The crate also contains the
//! functions that make the calls for these tests. The tests assume of a line only that it can be opened.
//!
//! Modules that only the tests of this crate call are compiled only for the tests, because otherwise they would be
//! proved twice.
#![tactic(auto)]

#[cfg(test)]
mod boards;
#[cfg(test)]
mod counts;
#[cfg(test)]
mod desks;
pub mod fixtures;
pub mod handoff;
#[cfg(test)]
mod producers;
#[cfg(test)]
mod tests;
#[cfg(test)]
mod transfers;
#[cfg(test)]
mod tries;
