//! A task board, which is a queue of at most seven tasks in the 64 bytes of a line. Each put and each take requests the
//! line once. No task is lost, duplicated or overtaken.
#![tactic(auto)]

mod answer;
mod board;
mod law;
pub mod laws;
mod put_task;
mod take_task;
mod turn;

pub use answer::{Put, Take};
pub use board::{MAX_TASKS, Tasks, decode, encode};
pub use law::BoardLaw;
pub use put_task::put;
pub use take_task::take;
