//! Parses the three kinds of scripts (schedules, step scripts and work scripts) and writes the answers to them as text.
//! The crate also wraps readers and writers so that they remember whether an operation has failed.
#![tactic(auto)]

mod command;
mod command_reader;
mod error;
mod event_reader;
mod header;
mod job;
mod job_reader;
mod reason;
mod reply_text;
mod report;
mod schedule;
mod step;
mod steps;
mod text;
mod watched;
mod work;

pub use command::Command;
pub use error::ScriptError;
pub use job::{Job, WorkKind};
pub use reason::{Allowed, Form, Reason, Refusal, ScriptKind};
pub use reply_text::{Said, push_ranked, push_said};
pub use report::{Report, write_report};
pub use schedule::{Schedule, parse_schedule, read_schedule};
pub use steps::{Steps, parse_steps, read_steps};
pub use text::{NumberedLines, Words};
pub use watched::{Fault, Watched};
pub use work::{Work, parse_work, read_work};
