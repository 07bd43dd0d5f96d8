//! The table of a line. A table consists of atomic words and of slots. While no node holds the line, the line's bytes
//! are in a slot.
ghost use Rattle.std.specs.Prelude.{◌≡◌, ⊤};

use crate::discipline::{DisciplineInvariant, DisciplineSpec};
use crate::turn_mask::TurnMask;
use atomic_table::{Seat, Shared, Table, TableRule};
use line_lanes::Line64;
use qolb_model::{Keep, LineConfig, View};
use std::alloc::{AllocError, Global};
use std::collections::LinkedList;
use std::marker::PhantomData;

/// The key of a line's table: its label and its configuration.
#[derive(Drop)]
pub struct TableKey {
    pub label: u64,
    pub config: LineConfig,
}

/// The contents of a slot: the line's bytes, the last holder's mask, the turns left and the closed flag.
///
/// `bytes` is the first field, so that the bytes are copied from an aligned place. `padding` fills a slot to 128 bytes,
/// and only `again` copies it.
#[derive(Drop)]
pub struct Payload {
    pub bytes: Line64,
    pub mask: TurnMask,
    pub turns_left: Option<u64>,
    pub closed: bool,
    pub padding: [u64; 5],
}

impl Payload {
    /// Returns the same contents again.
    #[inline]
    pub fn again(&self) -> Payload
        ensures { result ≡ self.now }
    {
        Payload {
            bytes: self.bytes,
            mask: self.mask.same(),
            turns_left: self.turns_left,
            closed: self.closed,
            padding: self.padding,
        }
    }
}

impl Clone for Payload {
    ghost is_clone = { λ x y. y ≡ x };

    ghost is_infallible = { λ _. ⊤ };

    fn clone(&self) -> Result<Payload, AllocError> {
        Ok(self.again())
    }
}

/// A port's own copy of the line, which consists of the bytes that a holder writes and of the other fields of a slot.
#[derive(Drop)]
pub struct LocalCopy {
    pub bytes: Line64,
    pub mask: TurnMask,
    pub turns_left: Option<u64>,
    pub closed: bool,
}

/// What the table's invariant records about a node. It is ghost state, and the program makes no value of this type.
pub struct NodeGhost<O> {
    /// The view of the node's port.
    pub view: View,
    /// The ghost state that the queue algorithm defines for the node.
    pub own: O,
    /// The number of atomic steps that the node has taken in all its calls.
    pub steps: u64,
}

/// The rule for the table of a line with the data invariant `K`. It is the invariant that the queue algorithm defines.
pub struct Rule<K, Q> {
    law: PhantomData<(K, Q)>,
}

impl<K: Keep, Q: DisciplineInvariant<K>> TableRule<
    Payload,
    LinkedList<NodeGhost<Q::Local>>,
    TableKey,
> for Rule<K, Q> {
    ghost use Rattle.line_generic.specs.NodeGhosts.{initial_nodes};

    ghost holds = { Q.holds };

    ghost first = { initial_nodes Q.phases.initial };
}

/// The table of a line, as all its nodes share it.
pub type SharedTable<K, Q> = Shared<
    Payload,
    LinkedList<NodeGhost<<Q as DisciplineSpec>::Local>>,
    TableKey,
    Rule<K, Q>,
>;

/// The table of a line, as the line owns it.
pub type LineTable<K, Q> = Table<
    Payload,
    LinkedList<NodeGhost<<Q as DisciplineSpec>::Local>>,
    TableKey,
    Rule<K, Q>,
    Global,
>;

/// A seat of the table. Each port has one.
pub type LineSeat<O> = Seat<Payload, LinkedList<NodeGhost<O>>>;
