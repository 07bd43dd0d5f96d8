//! An executed command, together with its number in the script and the change that the command made.
use crate::symbol::Change;
use qolb_script::Command;

/// A command, with its number in the script, counted from 1, and its change.
#[derive(Clone, Copy)]
pub struct Event {
    pub number: u64,
    pub command: Command,
    pub change: Change,
}
