//! A queue lock that is built from atomic words. This crate contains the code that all kinds of lines share. It is
//! generic over the queue algorithm (`Discipline`).
#![tactic(auto)]

mod accept;
mod calls;
mod discipline;
mod elsewhere;
mod finish;
mod line;
mod meeting;
mod open;
mod plays;
mod port;
mod single_slot;
mod sleepers;
mod split_enqueue;
mod table;
mod turn_mask;
mod wake;

pub use discipline::{
    Discipline, DisciplineInvariant, DisciplineSpec, EnqueueResult, Enqueued, Released, Rested,
    SplitEnqueue,
};
pub use elsewhere::{NO_WORD, SleepersElsewhere, WentTo};
pub use line::{Line, TableWidth};
pub use port::Port;
pub use single_slot::{load_from_slot, store_to_slot, take_from_closed};
pub use sleepers::{Parking, UnparkHandle};
pub use table::{LineSeat, LineTable, LocalCopy, NodeGhost, Payload, Rule, SharedTable, TableKey};
pub use turn_mask::TurnMask;
pub use wake::{SpinOnly, WakePolicy};
