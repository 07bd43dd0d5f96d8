//! Defines the table of a lock's atomic words, the seats through which callers use the table, and the invariant of the
//! table.
ghost use Rattle.lock_core.specs.Views.{max_newcomers_of, initial_view};
ghost use Rattle.lock_core.specs.Slots.{Slotted};

use crate::view::View;
use atomic_table::{Seat, Shared, Table, TableRule};
use std::alloc::Global;

/// The invariant of a lock's table. The table's key is the barging limit, which is 1 in a strict lock.
pub struct LockInvariant;

impl<T> TableRule<T, View, u64> for LockInvariant {
    ghost holds = { λ barging_limit s. Slotted (max_newcomers_of barging_limit) s };

    ghost first = { λ barging_limit. initial_view (max_newcomers_of barging_limit) };
}

/// A lock without a value, as its callers share it.
pub type SharedTable = Shared<u64, View, u64, LockInvariant>;

/// A lock without a value, as its owner has it.
pub type TicketTable = Table<u64, View, u64, LockInvariant, Global>;

/// The seat with which one caller takes atomic steps on a lock without a value.
pub type TicketSeat = Seat<u64, View>;

/// A lock, possibly with a value in the table's slot, as its callers share it.
pub type SharedValue<T> = Shared<T, View, u64, LockInvariant>;

/// A lock with a value, as its owner has it.
pub type ValueTable<T> = Table<T, View, u64, LockInvariant, Global>;

/// The seat with which one caller takes atomic steps on a lock with a value. The seat has the value while its caller is
/// served.
pub type ValueSeat<T> = Seat<T, View>;
