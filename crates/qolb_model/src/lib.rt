//! The specification of a queued line, which is a block of 64 bytes that nodes share and queue for. Every kind of line
//! is proved to satisfy this specification.
//!
//! The crate defines requests, the ways in which requests end, and the bytes of the line after each end. The crate also
//! defines the queue as a state machine, and a plain line, which has one owner and executes this machine. The trait
//! `LineSync` declares the calls of a shared line. The contracts of the trait state what each call guarantees to the
//! calling node.
#![tactic(auto)]

mod acquire;
mod answer;
mod config;
mod end;
mod finish;
mod keep;
pub mod laws;
mod opening;
mod parking_line;
mod plain;
mod poll_count;
mod request;
mod sync;
mod unfinished;
mod view;
mod waiter;
mod write;

pub use acquire::{Acquired, acquire_bounded};
pub use answer::{Enq, OpenError, Out, Poll, PortState, Prep};
pub use config::{LineConfig, MAX_NODES};
pub use end::End;
pub use finish::{LinePort, refusal, sort_by_node};
pub use keep::{Free, Keep};
pub use opening::OpenLine;
pub use parking_line::ParkingLine;
pub use plain::PlainLine;
pub use poll_count::PollCount;
pub use request::Request;
pub use sync::LineSync;
pub use unfinished::{FinishError, Unfinished};
pub use view::View;
pub use waiter::Waiter;
pub use write::Write;
