//! Tests of the program qolb. Each test calls the program with the words of a command line. The tests cover exit
//! statuses, outputs, help texts, faults, and running out of memory.
#![tactic(auto)]

#[cfg(test)]
mod tests;
