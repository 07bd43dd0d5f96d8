//! Explains why a script was refused, and what an answer `misuse` or `refused` means. An explanation can also say which
//! words, commands or events would have been allowed.
#![tactic(auto)]

mod complaint;
mod near;
mod notes;
mod step_notes;

pub use complaint::{Complaint, complaint_about};
pub use notes::notes_of_schedule;
pub use step_notes::notes_of_steps;
