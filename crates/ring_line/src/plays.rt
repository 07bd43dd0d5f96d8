//! The kinds of atomic steps on a cell. Each kind determines how the step changes the ghost state.
ghost use Rattle.ring_line.specs.Steps.{loaded, rolled, cleared, granted};

use atomic_table::Play;
use line_cells::NodeGhosts;
use line_generic::Payload;
use qolb_model::Keep;
use std::marker::PhantomData;

/// Loads the node's own cell.
pub(crate) struct Load<K> {
    law: PhantomData<K>,
}

impl<K: Keep> Play<Payload, NodeGhosts> for Load<K> {
    ghost then = { loaded K.allows };
}

/// Adds the node's number to its own cell.
pub(crate) struct Roll<K> {
    law: PhantomData<K>,
}

impl<K: Keep> Play<Payload, NodeGhosts> for Roll<K> {
    ghost then = { rolled K.allows };
}

/// Clears the cell at its turn.
pub(crate) struct Clear;

impl Play<Payload, NodeGhosts> for Clear {
    ghost then = { cleared };
}

/// Grants the next cell.
pub(crate) struct Grant<K> {
    law: PhantomData<K>,
}

impl<K: Keep> Play<Payload, NodeGhosts> for Grant<K> {
    ghost then = { granted K.allows };
}
