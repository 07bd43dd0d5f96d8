//! The list of the tests of the lock's core.

mod answers;
mod lock_word;
mod memory;
mod opening;
mod threads;
