//! The type of a lock that several callers share.
ghost use Rattle.std.specs.Prelude.{◌≡◌};
ghost use Rattle.lock_core.specs.Layout.{IsLockTable};

use lock_core::TicketTable;

/// A lock, its barging limit, and the label by which the lock recognizes its own tickets.
#[derive(Drop)]
pub struct Lock {
    pub table: TicketTable,
    pub barging_limit: u64,
    pub label: u64,
    ghost sized: { IsLockTable table.shared.table_id },
    ghost bound: { table.shared.key ≡ barging_limit },
}

impl Lock {
    /// Returns the lock that has this table.
    pub fn new(table: TicketTable, barging_limit: u64, label: u64) -> Lock
        requires sized { IsLockTable table.shared.table_id }
        requires bound { table.shared.key ≡ barging_limit }
        ensures table { result.table ≡ table }
        ensures barging_limit { result.barging_limit ≡ barging_limit }
        ensures label { result.label ≡ label }
    {
        Lock {
            table,
            barging_limit,
            label,
        }
    }
}
