//! Copies the line from the slot of a holder's ticket, and takes the line out of the last slot when the line is
//! finished.
ghost use Rattle.std.specs.Prelude.{◌≡◌};
ghost use mathlib.Core.Option.{some};
ghost use lib.ListN.{get_elem?};
ghost use Rattle.std.specs.Slots.{slots_items, slots_len, IsFull};
ghost use Rattle.line_generic.specs.declared.table.Payload.{Payload};
ghost use Rattle.line_cells.specs.Counting.{mask_for};
ghost use Rattle.ticket_line.specs.Layout.{word_count};
ghost use Rattle.ticket_line.specs.Slots.{slot_count, last};
ghost use Rattle.line_generic.specs.Answers.{Takes};
ghost use Rattle.line_generic.specs.Calls.{MayTake};
ghost use Rattle.ticket_line.specs.Calls.{phases};

use crate::invariant::{SharedTable, TicketSeat};
use crate::layout::{slot_count, slot_for, slot_of};
use crate::release::copy_to_next_slot;
use atomic_table::Closed;
use line_cells::TICKET_WORD;
use line_generic::{LocalCopy, Payload, TurnMask};
use qolb_model::Keep;
use std::alloc::Global;

/// Copies the line from the ticket's slot, for a turn that has written nothing yet. Stores a closed line for the
/// successor at once.
#[inline]
pub(crate) fn take<K: Keep>(
    table: &SharedTable<K>,
    seat: &mut TicketSeat,
    cell_mask: u64,
    ticket: u64,
    payload: &mut LocalCopy,
)
    requires { MayTake phases mask_for table.now cell_mask ticket seat.old }
    ensures { Takes phases table.now.key.config.nodes ticket seat.old seat.new payload.new }
{
    let slot = seat.slot_mut(table, slot_of(table, cell_mask, ticket));
    payload.bytes = slot.bytes;
    payload.turns_left = slot.turns_left;
    payload.closed = slot.closed;
    payload.mask = TurnMask::none();
    if payload.closed {
        copy_to_next_slot(table, seat, cell_mask, ticket);
    } else {
        seat.turn();
    }
}

/// Takes the line out of a table that no thread shares any more, and frees the table.
pub(crate) fn take_final(closed: Closed<Payload, Global>, nodes: u64) -> Payload
    requires words { (slots_len closed.words ≡ word_count nodes) × IsFull closed.words }
    requires slots { (slots_len closed.slots ≡ slot_count nodes) × IsFull closed.slots }
    ensures { get_elem? (slots_items closed.slots) (last nodes (slots_items closed.words))
        ≡ some result }
{
    let mut closed = closed;
    let place = slot_for(nodes, closed.word(TICKET_WORD));
    let count = slot_count(nodes);
    let mut line = closed.take(0);
    let mut at = 1;
    while at < count {
        let payload = closed.take(at);
        if at == place {
            line = payload;
        }
        at += 1;
    }
    closed.free();
    line
}
