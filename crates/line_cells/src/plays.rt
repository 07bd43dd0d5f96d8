//! The kinds of atomic steps on the ticket counter and on the words of nodes. Each kind determines how the step changes
//! the ghost state.
ghost use Rattle.line_cells.specs.Steps.{drawn, freed, loaded_node, reset};

use crate::local::Local;
use atomic_table::Play;
use line_generic::{NodeGhost, Payload};
use qolb_model::Keep;
use std::collections::LinkedList;
use std::marker::PhantomData;

/// The ghost states of a seat's nodes.
pub type NodeGhosts = LinkedList<NodeGhost<Local>>;

/// Takes a ticket.
pub struct TakeTicket<K> {
    law: PhantomData<K>,
}

impl<K: Keep> Play<Payload, NodeGhosts> for TakeTicket<K> {
    ghost then = { drawn K.allows };
}

/// Frees a passed node.
pub struct FreeNode<K> {
    law: PhantomData<K>,
}

impl<K: Keep> Play<Payload, NodeGhosts> for FreeNode<K> {
    ghost then = { freed K.allows };
}

/// Loads the node's own word.
pub struct LoadNode<K> {
    law: PhantomData<K>,
}

impl<K: Keep> Play<Payload, NodeGhosts> for LoadNode<K> {
    ghost then = { loaded_node K.allows };
}

/// Clears the node's own word.
pub struct Reset;

impl Play<Payload, NodeGhosts> for Reset {
    ghost then = { reset };
}
