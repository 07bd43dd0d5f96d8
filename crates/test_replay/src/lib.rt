//! Tests of replays, which execute a script, and of the pictures that are drawn from scripts. The events of a script
//! are either calls or atomic steps.
#![tactic(auto)]

#[cfg(test)]
mod tests;
