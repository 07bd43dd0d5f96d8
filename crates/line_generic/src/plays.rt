//! Operations on seats that change only ghost state. They split a seat, join two seats, merge the views of two ports,
//! or return slots to the table.
ghost use Rattle.std.specs.Prelude.{[], ◌++◌};
ghost use Rattle.qolb_model.specs.Entries.{front, behind};
ghost use Rattle.line_generic.specs.Steps.{after_meet, slots_returned};

use crate::discipline::DisciplineSpec;
use crate::table::{NodeGhost, Payload};
use atomic_table::{Join, Play, Split};
use qolb_model::Keep;
use std::collections::LinkedList;
use std::marker::PhantomData;

/// Keeps the first node, and moves the others to a new seat.
pub(crate) struct SplitFirst;

impl<O> Split<LinkedList<NodeGhost<O>>> for SplitFirst {
    ghost left = { front };

    ghost right = { behind };
}

/// Joins the nodes of another seat to one.
pub(crate) struct Concat;

impl<O> Join<LinkedList<NodeGhost<O>>> for Concat {
    ghost both = { λ es fs. es ++ fs };

    ghost spent = { [] };
}

/// Splits off a new seat without nodes.
pub(crate) struct SplitEmpty;

impl<O> Split<LinkedList<NodeGhost<O>>> for SplitEmpty {
    ghost left = { λ es. es };

    ghost right = { λ es. [] };
}

/// Merges the views of two ports in one seat.
pub(crate) struct Meet<K, Q> {
    law: PhantomData<(K, Q)>,
}

impl<K: Keep, Q: DisciplineSpec> Play<Payload, LinkedList<NodeGhost<Q::Local>>> for Meet<K, Q> {
    ghost then = { after_meet K.allows Q.phases.initial };
}

/// Returns a holder's slots to the table.
pub(crate) struct ReturnSlots;

impl<O> Play<Payload, LinkedList<NodeGhost<O>>> for ReturnSlots {
    ghost then = { slots_returned };
}
