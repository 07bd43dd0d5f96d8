//! The handle with which C code refers to a node. A handle is a pointer, which is null if the handle has no node.
ghost use Rattle.std.specs.Prelude.{◌≡◌, true, false};
ghost use Rattle.std.specs.Option.{MatchOption};
ghost use Rattle.std.specs.declared.option.Option.{Option};
ghost use Rattle.std.specs.declared.option.Option.TheVariants.{None, Some};
ghost use Rattle.qolb_model.specs.PortStates.{may_ask};
ghost use Rattle.qolb_nodes.specs.declared.any_node.AnyNode.{AnyNode};
ghost use Rattle.qolb_nodes.specs.Calls.{state_of};
ghost use Rattle.qolb_nodes.specs.Held.{held_coded, handle_owns};

mod parts;

use crate::answer::Answer;
use crate::any_node::AnyNode;
use parts::Parts;
use std::alloc::Global;
use std::marker::Model;
use std::mem;
use std::ptr::null_mut;

/// A handle with which C code refers to a node, or to no node. C code sees one pointer, and a handle of zeros is empty.
#[repr(C)]
#[derive(Drop)]
pub struct Handle {
    at: *mut u8,
    pub ghost held: { Option AnyNode } by { held_coded },
}

impl Model for Handle {
    ghost also_owns = { λ h. handle_owns h.at h.held };
}

impl Handle {
    ghost use Rattle.std.specs.Borrow.{sem};
    ghost use Rattle.qolb_nodes.specs.Lent.{LendsNode};
    ghost use Rattle.qolb_nodes.specs.Closing.{HasClosed};

    /// Returns a handle without a node.
    fn empty() -> Handle
        ensures { result.held ≡ None }
    {
        Handle { at: null_mut() }
    }

    /// Borrows the handle's node, if it has one.
    pub fn get_mut(&mut self) -> Option<&mut AnyNode>
        ensures* writes_back { sem 𝓛 (LendsNode self.entry result) }
        ensures node { MatchOption result (self.old.held ≡ None) (λ node.
            self.old.held ≡ Some node.now) }
    {
        let at = self.at;
        if at.is_null() {
            None
        } else {
            Some(unsafe { &mut *(at as *mut AnyNode) })
        }
    }

    /// Takes the node out of the handle, if it has one.
    pub fn take(&mut self, alloc: Global) -> Option<Box<AnyNode>>
        ensures node { MatchOption result (self.old.held ≡ None) (λ node.
            self.old.held ≡ Some node.value) }
        ensures empty { self.new.held ≡ None }
    {
        match mem::replace(self, Handle::empty()).into_parts(alloc) {
            None => None,
            Some(parts) => Some(parts.into_box()),
        }
    }

    /// Frees the handle's node, if the node neither waits nor holds the line. Otherwise the node stays.
    pub fn close(&mut self, alloc: Global) -> Answer
        ensures { HasClosed self.old.held self.new.held result }
    {
        match self.take(alloc) {
            None => Answer::Misuse,
            Some(taken) => {
                if taken.shown().state.may_ask() {
                    free(taken);
                    Answer::Done
                } else {
                    self.put(taken);
                    Answer::Misuse
                }
            }
        }
    }

    /// Puts a node into an empty handle.
    pub fn put(&mut self, node: Box<AnyNode>)
        requires { self.old.held ≡ None }
        ensures { self.new.held ≡ Some node.value }
    {
        *self = Handle::of_parts(Parts::of(node));
    }

    /// Returns `true` if the handle has no node.
    pub fn is_empty(&mut self) -> bool
        ensures same { self.new.held ≡ self.old.held }
        ensures empty { result ≡ true → self.old.held ≡ None }
        ensures node { result ≡ false → (node : AnyNode) × (self.old.held ≡ Some node) }
    {
        match self.get_mut() {
            None => true,
            Some(_) => false,
        }
    }

    fn of_parts(parts: Parts<AnyNode, Global>) -> Handle
        ensures { result.held ≡ Some parts.value }
    {
        let Parts { ptr, alloc: _ } = parts;
        Handle { at: ptr as *mut u8 }
    }

    fn into_parts(self, alloc: Global) -> Option<Parts<AnyNode, Global>>
        ensures { MatchOption result (self.held ≡ None) (λ p. self.held ≡ Some p.value) }
    {
        let Handle { at } = self;
        if at.is_null() {
            None
        } else {
            Some(Parts {
                ptr: at as *mut AnyNode,
                alloc,
            })
        }
    }
}

/// Frees a node that neither waits nor holds.
fn free(node: Box<AnyNode>)
    requires { may_ask (state_of node.value) ≡ true }
{
    drop(node);
}

// The handle owns a box of a node, which may go to another thread.
unsafe impl Send for Handle {}
