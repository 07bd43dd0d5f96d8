//! Accounts that are distributed over several lines. No money is lost, in whatever order the threads run.
#![tactic(auto)]

mod answer;
mod ask;
mod balance;
mod between_lines;
mod desk;
mod desks;
mod law;
mod pair;
mod settlement;
mod turn;

pub use answer::{OpenDesksError, Reply, SettleError};
pub use desk::{Desk, deposit, take_out, transfer};
pub use desks::open_desks;
pub use law::{AccountLaw, MAX_BALANCE};
pub use settlement::{Unsettled, settle};
