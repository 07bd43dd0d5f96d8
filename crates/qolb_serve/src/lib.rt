//! The program `qolb` as a function. The function takes the words of a command line, does what they request, and
//! returns the exit status.
#![tactic(auto)]

mod command_line;
mod process;
mod program;

pub use command_line::{Args, Subcommand, parse_args};
pub use process::run;
pub use program::{fail, refuse_words, serve};
