//! The list of the kinds of lines, with their names. Code that supports every kind of line takes the list from this
//! crate.
//!
//! The section "Another kind of line" of docs/CHANGING.md lists the other files that name each kind.
#![tactic(auto)]

ghost use Rattle.std.specs.Prelude.{◌≡◌, ◌+◌, ◌*◌};
ghost use Rattle.qolb_model.specs.Opening.{AreNodes};
ghost use Rattle.line_kinds.specs.Locks.{lock_named, words_of, slots_of, bytes_of};

use line_cells::{CELLS, cell_count, word_count};
use line_generic::Payload;
pub use link_line::{LinkLine, LinkQueue};
pub use ring_line::{RingLine, RingQueue};
pub use ticket_line::{TicketLine, TicketQueue};

/// A kind of line, which is the kind of lock through which nodes share the line.
#[derive(Clone, Copy, Debug, PartialEq, Eq)]
pub enum Lock {
    /// Rings. The queue is an array of cells, and nodes draw tickets.
    Ring,
    /// Link lines. The queue is a linked list, in which each node links itself to its predecessor.
    Link,
    /// Ticket lines. Nodes draw tickets, and a grant writes the ticket's number into a cell.
    Ticket,
}

/// The number of bytes of a word of a table.
const WORD: u64 = size_of::<u64>() as u64;

/// The number of bytes of a slot of a table.
const SLOT: u64 = size_of::<Payload>() as u64;

/// The number of locks.
pub const LOCKS: usize = 3;

/// All locks.
pub static ALL: [Lock; LOCKS] = [Lock::Ring, Lock::Link, Lock::Ticket];

/// Expands to the names of the kinds on command lines, in the order of `ALL`, after other texts. `lock_names!(array,
/// "plain")` is an array of four names, and `lock_names!(text, "kinds: ")` is a text in which commas separate the
/// names.
#[macro_export]
macro_rules! lock_names {
    (@array [$($before:literal),*] $($name:literal),*) => { [$($before,)* $($name),*] };
    (@text [$($before:literal),*] $first:literal $(, $name:literal)*) => { concat!($($before,)* $first $(, ", ", $name)*) };
    ($form:ident $(, $before:literal)*) => { $crate::lock_names!(@$form [$($before),*] "ring", "link", "ticket") };
}

/// The names of the kinds on command lines, in the order of `ALL`.
pub static NAMES: [&str; LOCKS] = lock_names!(array);

impl Lock {
    /// Returns the kind that has this name, or `None` if there is no such kind.
    pub fn named(name: &str) -> Option<Lock>
        ensures { result ≡ lock_named name.now }
    {
        match name {
            "ring" => Some(Lock::Ring),
            "link" => Some(Lock::Link),
            "ticket" => Some(Lock::Ticket),
            _ => None,
        }
    }

    /// Returns the number of bytes that the words and slots of a table for `nodes` nodes take.
    ///
    /// A port takes 128 bytes more. While a line is opened, the table's bytes are needed twice for a moment.
    pub fn bytes_for(self, nodes: u64) -> u64
        requires { AreNodes nodes }
        ensures bytes { result ≡ bytes_of self nodes }
        ensures parts { result ≡ WORD * words_of self nodes + SLOT * slots_of self nodes }
    {
        match self {
            Lock::Ring => WORD * word_count(CELLS) as u64 + SLOT,
            Lock::Link => WORD * link_line::word_count(nodes) as u64 + SLOT,
            Lock::Ticket => {
                let cells = cell_count(nodes);
                WORD * word_count(cells) as u64 + SLOT * cells
            }
        }
    }
}

/// Calls a generic function with a lock's queue discipline.
///
/// The discipline is its last type parameter: `for_kind!(lock, f, [R], (a, b))` is `f::<R, RingQueue>(a, b)` if `lock` is `Ring`. In such an
/// `f` a line is `Line<K, Q>`, for any law `K`. So the prover sees once that it is a line, and not once for each lock; if `f` starts threads,
/// `Q` is also `Send` and `Sync`.
#[macro_export]
macro_rules! for_kind {
    ($lock:expr, $work:ident, [$($other:ty),*], $given:tt) => {
        match $lock {
            $crate::Lock::Ring => $work::<$($other,)* $crate::RingQueue> $given,
            $crate::Lock::Link => $work::<$($other,)* $crate::LinkQueue> $given,
            $crate::Lock::Ticket => $work::<$($other,)* $crate::TicketQueue> $given,
        }
    };
}
