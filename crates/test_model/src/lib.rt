//! Tests of the code that runs without threads. They cover the bytes of a line, the plain line, the core of the link
//! line, the format of a board, the readers of scripts, and the text of each answer, step and report. The tests are in
//! a crate of their own, because a crate that contains tests is proved twice.
#![tactic(auto)]

#[cfg(test)]
mod tests;
