//! Loads and stores the bytes of a line that has only one slot.
//!
//! Rings and link lines have only one slot. A ticket line has one slot for each of its cells.
ghost use Rattle.std.specs.Prelude.{◌≡◌, ◌≢◌, ℕ, Option, [], Some, false};
ghost use mathlib.Core.Option.{some};
ghost use lib.ListN.{get_elem?};
ghost use Rattle.std.specs.Slots.{slots_items, slots_len, IsFull};
ghost use Rattle.qolb_model.specs.Leases.{turns_left};
ghost use Rattle.line_generic.specs.Slots.{in_single_slot, open_in_single_slot, IsCopy};
ghost use Rattle.line_generic.specs.Steps.{IsSameSeat, IsSeatOf, IsOfOneNode, ghost_of, nodes_of};
ghost use Rattle.line_generic.specs.Ports.{IsStored};
ghost use Rattle.line_generic.specs.declared.table.Payload.{Payload};

use crate::discipline::{Discipline, DisciplineInvariant};
use crate::plays::ReturnSlots;
use crate::table::{LineSeat, LocalCopy, Payload, SharedTable};
use crate::turn_mask::TurnMask;
use atomic_table::Closed;
use qolb_model::{Keep, PortState};
use std::alloc::Global;

/// Copies the line from the single slot to `payload`, for a turn that has written nothing yet.
///
/// The call takes no atomic step. It leaves a closed line in the slot for the successor.
#[inline]
pub fn load_from_slot<K: Keep, Q: DisciplineInvariant<K>>(
    table: &SharedTable<K, Q>,
    seat: &mut LineSeat<Q::Local>,
    payload: &mut LocalCopy,
)
    requires table { seat.old.table_id ≡ table.now.table_id }
    requires at_turn { (y : Payload) × in_single_slot 0 y seat.old.me.1 }
    ensures seat { IsSameSeat seat.old seat.new × (seat.new.me.0 ≡ seat.old.me.0) }
    ensures copied { (y : Payload) → in_single_slot 0 y seat.old.me.1 → IsCopy payload.new y }
    ensures kept { (y : Payload) → in_single_slot 0 y seat.old.me.1 → y.closed ≡ false
        → open_in_single_slot 0 y.turns_left seat.new.me.1 }
    ensures stored { (y : Payload) → in_single_slot 0 y seat.old.me.1
        → in_single_slot 0 y seat.new.me.1 }
{
    let slot = seat.slot_mut(table, 0);
    payload.bytes = slot.bytes;
    payload.turns_left = slot.turns_left;
    payload.closed = slot.closed;
    payload.mask = TurnMask::none();
}

/// Copies a holder's payload back to the single slot.
///
/// The call writes the turns left and the flag only if they change. Without a lease it therefore writes only the turn's
/// bytes and mask.
#[inline]
pub fn store_to_slot<K: Keep, Q: DisciplineInvariant<K>>(
    table: &SharedTable<K, Q>,
    seat: &mut LineSeat<Q::Local>,
    payload: &LocalCopy,
    closed: bool,
)
    requires table { seat.old.table_id ≡ table.now.table_id }
    requires kept { open_in_single_slot 0 payload.now.turns_left seat.old.me.1 }
    requires left { payload.now.turns_left ≢ Some 0 }
    ensures seat { IsSameSeat seat.old seat.new × (seat.new.me.0 ≡ seat.old.me.0) }
    ensures stored { (y : Payload) × in_single_slot 0 y seat.new.me.1
        × IsStored payload.now closed y }
{
    let slot = seat.slot_mut(table, 0);
    slot.bytes = payload.bytes;
    slot.mask = payload.mask.same();
    if let Some(turns) = payload.turns_left {
        slot.turns_left = Some(turns - 1);
    }
    if closed {
        slot.closed = true;
    }
}

/// Takes the line out of a closed table with one slot, and frees the table.
pub fn take_from_closed(closed: Closed<Payload, Global>) -> Payload
    requires slots { (slots_len closed.slots ≡ 1) × IsFull closed.slots }
    ensures { get_elem? (slots_items closed.slots) 0 ≡ some result }
{
    let mut closed = closed;
    let payload = closed.take(0);
    closed.free();
    payload
}

/// Returns the holder's slots to the table, because a seat that has slots cannot be joined to another.
///
/// The table takes slots back only as part of an atomic step. This step loads word 0 and ignores the value. The call is
/// reached only in a branch that the proof shows to be dead.
pub(crate) fn return_slots<K: Keep, Q: Discipline<K>>(
    table: &SharedTable<K, Q>,
    seat: &mut LineSeat<Q::Local>,
)
    requires table { IsSeatOf (Q.word_count table.now.key.config.nodes)
        table.now.table_id seat.old }
    requires holding { IsOfOneNode Q.phases.initial seat.old.me
        × ((ghost_of Q.phases.initial seat.old).view.state ≡ PortState.Holding) }
    requires kept { (token : ℕ) × (left : Option ℕ)
        × (left ≡ turns_left (ghost_of Q.phases.initial seat.old).view.config.lease
        (ghost_of Q.phases.initial seat.old).view.ends)
        × Q.phases.slots_in_turn (nodes_of Q.phases.initial seat.old) token left seat.old.me.1 }
    ensures { (seat.new.table_id ≡ seat.old.table_id) × (seat.new.me ≡ (seat.old.me.0, [])) }
{
    table.load::<ReturnSlots>(seat, 0);
}
