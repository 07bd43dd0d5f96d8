//! A claim is the part of a ticket that owns a seat of the lock's table in the proofs. A caller needs a seat to take
//! atomic steps on the table.
ghost use Rattle.std.specs.Prelude.{◌≡◌, ℕ, List, [], ◌∷◌};
ghost use base.Stored.{coded_list};
ghost use Rattle.atomic_table.specs.Seated.{TableId, table_id_coded};
ghost use Rattle.lock_core.specs.declared.view.View.{View};
ghost use Rattle.qolb_locks.specs.Held.{view_coded, ticket_owns};

use atomic_table::Badge;
use lock_core::{TicketSeat, View};
use std::marker::Model;

/// What the caller knows and owns of the lock. The struct has a byte, because C has no struct without a field.
#[repr(C)]
#[derive(Drop)]
pub struct Claim {
    mark: u8,
    pub ghost table_id: { TableId } by { table_id_coded },
    pub ghost id: { ℕ },
    pub ghost views: { List View } by { coded_list view_coded },
}

impl Model for Claim {
    ghost also_owns = { λ t. ticket_owns t.table_id t.id t.views };
}

impl Claim {
    /// Exchanges what the claim and the badge know. The function has no code.
    #[inline(always)]
    fn exchange(&mut self, badge: &mut Badge<View>)
        ensures { (self.new.table_id ≡ badge.old.table_id) × (self.new.id ≡ badge.old.id)
            × (self.new.views ≡ badge.old.views) × (badge.new.table_id ≡ self.old.table_id)
            × (badge.new.id ≡ self.old.id) × (badge.new.views ≡ self.old.views) }
    {}

    /// Takes the seat out of the claim.
    #[inline(always)]
    pub(crate) fn take(&mut self) -> TicketSeat
        requires { (v : View) × (self.old.views ≡ v ∷ []) }
        ensures table { result.table_id ≡ self.old.table_id }
        ensures view { self.old.views ≡ result.me.0 ∷ [] }
        ensures empty { result.me.1 ≡ [] }
    {
        let mut badge = Badge::blank();
        self.exchange(&mut badge);
        badge.into_seat::<u64>()
    }

    /// Puts a seat into the claim, in place of any other.
    #[inline(always)]
    pub(crate) fn put(&mut self, seat: TicketSeat)
        requires { seat.me.1 ≡ [] }
        ensures table { self.new.table_id ≡ seat.table_id }
        ensures view { self.new.views ≡ seat.me.0 ∷ [] }
    {
        self.exchange(&mut seat.into_badge());
    }
}

unsafe impl Send for Claim {}
