//! The mask that shows which bytes a holder has written since it acquired the line. The mask is ghost state, which
//! exists only in proofs.
ghost use Rattle.std.specs.Prelude.{◌≡◌, ℕ, bit_or};
ghost use Rattle.std.specs.Borrow.{ftrue};

use line_lanes::Mask;
use std::marker::Model;

/// The mask of the bytes that a turn has written. It has no bytes, and its methods do nothing at run time.
#[derive(Drop)]
pub struct TurnMask {
    /// The places written, as the bits of a `Mask`.
    pub ghost bits: { ℕ },
}

impl Model for TurnMask {
    ghost also_owns = { λ _. ftrue };
}

// The mask owns nothing, so it can be sent to another thread.
unsafe impl Send for TurnMask {}

impl TurnMask {
    /// Returns the mask of a turn that has written nothing.
    #[inline(always)]
    pub fn none() -> TurnMask
        ensures { result.bits ≡ 0 }
    {
        TurnMask {}
    }

    /// Returns this mask again.
    #[inline(always)]
    pub fn same(&self) -> TurnMask
        ensures { result.bits ≡ self.now.bits }
    {
        TurnMask {}
    }

    /// Returns the mask with the places of a write added.
    #[inline(always)]
    pub fn with(&self, _mask: &Mask) -> TurnMask
        ensures { result.bits ≡ bit_or self.now.bits _mask.now.0 }
    {
        TurnMask {}
    }
}
