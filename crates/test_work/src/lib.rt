//! Tests of workers that share lines, of progress messages, and of the texts that users see for each variant and error.
#![tactic(auto)]

#[cfg(test)]
mod tests;
