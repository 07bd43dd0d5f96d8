//! The kinds of atomic steps of a link line. Each kind determines how the step changes the ghost state.
ghost use Rattle.link_line.specs.Steps.{readied, prepended, linked, loaded, loaded_last, homed, marked, granted, rolled, freed};

use crate::invariant::NodeGhosts;
use atomic_table::Play;
use line_generic::Payload;
use qolb_model::Keep;
use std::marker::PhantomData;

/// Clears the node's own entry.
pub(crate) struct Reset<K> {
    law: PhantomData<K>,
}

impl<K: Keep> Play<Payload, NodeGhosts> for Reset<K> {
    ghost then = { readied K.allows };
}

/// Puts the node's number into the home word.
pub(crate) struct Prepend<K> {
    law: PhantomData<K>,
}

impl<K: Keep> Play<Payload, NodeGhosts> for Prepend<K> {
    ghost then = { prepended K.allows };
}

/// Adds the node's number to its predecessor's entry.
pub(crate) struct Link<K> {
    law: PhantomData<K>,
}

impl<K: Keep> Play<Payload, NodeGhosts> for Link<K> {
    ghost then = { linked K.allows };
}

/// Loads the node's own entry while its request waits.
pub(crate) struct Load<K> {
    law: PhantomData<K>,
}

impl<K: Keep> Play<Payload, NodeGhosts> for Load<K> {
    ghost then = { loaded K.allows };
}

/// Loads the node's own entry after its last request has ended or was withdrawn.
pub(crate) struct LoadLast<K> {
    law: PhantomData<K>,
}

impl<K: Keep> Play<Payload, NodeGhosts> for LoadLast<K> {
    ghost then = { loaded_last K.allows };
}

/// Tries to return the line to the home slot, in a release.
pub(crate) struct Home<K> {
    law: PhantomData<K>,
}

impl<K: Keep> Play<Payload, NodeGhosts> for Home<K> {
    ghost then = { homed K.allows };
}

/// Sets the done flag in the entry that a release has reached.
pub(crate) struct Done<K> {
    law: PhantomData<K>,
}

impl<K: Keep> Play<Payload, NodeGhosts> for Done<K> {
    ghost then = { marked K.allows };
}

/// Grants the next entry.
pub(crate) struct Grant<K> {
    law: PhantomData<K>,
}

impl<K: Keep> Play<Payload, NodeGhosts> for Grant<K> {
    ghost then = { granted K.allows };
}

/// Withdraws the request of the node's own entry.
pub(crate) struct Roll<K> {
    law: PhantomData<K>,
}

impl<K: Keep> Play<Payload, NodeGhosts> for Roll<K> {
    ghost then = { rolled K.allows };
}

/// Frees a passed node.
pub(crate) struct FreeNode<K> {
    law: PhantomData<K>,
}

impl<K: Keep> Play<Payload, NodeGhosts> for FreeNode<K> {
    ghost then = { freed K.allows };
}
