//! Tests of the fair lock: each answer of its calls, timeouts, closing the lock, and threads that share a value.
//!
//! Each module of this crate is compiled only for the tests, because otherwise it would be proved twice.
#![tactic(auto)]

#[cfg(test)]
mod tests;
