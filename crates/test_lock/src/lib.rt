//! Tests of a lock's core. In some tests several threads share a lock; in others, a few callers in one thread get each
//! possible answer.
//!
//! Each module of this crate is compiled only for the tests, because otherwise it would be proved twice.
#![tactic(auto)]

#[cfg(test)]
mod barging;
#[cfg(test)]
mod counts;
#[cfg(test)]
mod dice;
#[cfg(test)]
mod field;
#[cfg(test)]
mod strict;
#[cfg(test)]
mod tests;
