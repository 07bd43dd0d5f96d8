//! The queue algorithm of the ticket line.
//!
//! This file implements the trait `Discipline` of `line_generic` with the atomic steps of this crate. The calls that
//! all kinds of lines share are built on this trait.
ghost use Rattle.std.specs.Prelude.{◌≡◌};
ghost use Rattle.qolb_model.specs.PortStates as states;
ghost use Rattle.line_cells.specs.Counting.{mask_for};
ghost use Rattle.line_cells.specs.Layout.{ticket_of};
ghost use Rattle.ticket_line.specs.Layout.{word_count};
ghost use Rattle.line_cells.proofs.Seats as seats;
ghost use Rattle.line_cells.proofs.Meets as meeting;
ghost use Rattle.line_cells.proofs.Lasting as lasting;
ghost use Rattle.ticket_line.specs.Layout as layout;
ghost use Rattle.ticket_line.specs.Slots as slots;
ghost use Rattle.ticket_line.specs.Slots.{slot_layout, last};
ghost use Rattle.ticket_line.specs.Ticket.{TicketCells};
ghost use Rattle.ticket_line.specs.Laws.{first_cells, first_slot, enough, holder_returns, is_last};

use crate::invariant::{SharedTable, TicketQueue, TicketSeat};
use crate::layout::{cell_word, first_words, is_granted_half, slot_count, slot_of, ticket_after};
use crate::release::{release, try_reset};
use crate::slots::{take, take_final};
use crate::steps::{load, load_node, roll, take_ticket};
use atomic_table::Closed;
use line_cells::{cell_count, is_freed};
use line_generic::{
    Discipline, EnqueueResult, Enqueued, LocalCopy, Payload, Released, Rested, UnparkHandle,
};
use qolb_model::{Keep, PortState};
use std::alloc::{AllocError, Global};

impl<K: Keep> Discipline<K> for TicketQueue {
    ghost word_count = { word_count };

    ghost are_first = { layout.AreFirst };

    fn first_words(alloc: Global, nodes: u64) -> Result<Vec<u64>, AllocError> {
        first_words(alloc, nodes)
    }

    ghost slot_count = { slots.slot_count };

    ghost last = { last };

    fn slot_count(nodes: u64) -> usize {
        slot_count(nodes)
    }

    ghost cell_mask_for = { mask_for };

    fn cell_mask_for(nodes: u64) -> u64 {
        cell_count(nodes) - 1
    }

    #[inline]
    fn take(
        table: &SharedTable<K>,
        seat: &mut TicketSeat,
        cell_mask: u64,
        token: u64,
        payload: &mut LocalCopy,
    ) {
        take(table, seat, cell_mask, token, payload);
    }

    /// Stores the payload of a turn that is over in the slot of the next ticket.
    #[inline]
    fn put(
        table: &SharedTable<K>,
        seat: &mut TicketSeat,
        cell_mask: u64,
        token: u64,
        payload: &LocalCopy,
        closed: bool,
    ) {
        let slot = seat.slot_mut(table, slot_of(table, cell_mask, ticket_after(token)));
        slot.bytes = payload.bytes;
        slot.mask = payload.mask.same();
        if let Some(turns) = payload.turns_left {
            slot.turns_left = Some(turns - 1);
        }
        if closed {
            slot.closed = true;
        }
    }

    fn take_final(closed: Closed<Payload, Global>, nodes: u64) -> Payload {
        take_final(closed, nodes)
    }

    /// Takes a ticket and loads its cell. Takes two atomic steps, or four after a withdrawal, or one if the node is
    /// busy.
    #[inline]
    fn ask(
        table: &SharedTable<K>,
        seat: &mut TicketSeat,
        cell_mask: u64,
        node: u64,
        state: PortState,
    ) -> EnqueueResult {
        let Some(renewing) = try_reset(table, seat, node, state) else {
            return EnqueueResult {
                answer: Enqueued::Busy,
                token: 0,
                steps: 1,
            };
        };
        let ticket = take_ticket(table, seat);
        let answer = if load(table, seat, cell_mask, ticket) {
            Enqueued::AtTurn
        } else {
            Enqueued::Queued
        };
        EnqueueResult {
            answer,
            token: ticket,
            steps: renewing + 2,
        }
    }

    /// Returns `true` unless the node's last request was withdrawn and has not been passed yet.
    #[inline]
    fn look_at_rest(
        table: &SharedTable<K>,
        seat: &mut TicketSeat,
        node: u64,
        state: PortState,
    ) -> Rested {
        if state != PortState::Rolled {
            return Rested {
                clear: true,
                state,
                steps: 0,
            };
        }
        Rested {
            clear: is_freed(load_node(table, seat, node)),
            state,
            steps: 1,
        }
    }

    #[inline]
    fn look(
        table: &SharedTable<K>,
        seat: &mut TicketSeat,
        cell_mask: u64,
        _node: u64,
        token: u64,
    ) -> bool {
        load(table, seat, cell_mask, token)
    }

    #[inline]
    fn roll(
        table: &SharedTable<K>,
        seat: &mut TicketSeat,
        cell_mask: u64,
        node: u64,
        token: u64,
    ) -> bool {
        roll(table, seat, cell_mask, token, node)
    }

    #[inline]
    fn release(
        table: &SharedTable<K>,
        seat: &mut TicketSeat,
        cell_mask: u64,
        _node: u64,
        token: u64,
        closed: bool,
    ) -> Released {
        let released = release(table, seat, cell_mask, token);
        Released {
            state: state_after(closed),
            steps: released.steps,
            unpark: UnparkHandle::at(
                cell_word(table, cell_mask, released.ticket),
                cell_word(table, cell_mask, ticket_after(released.ticket)),
            ),
        }
    }

    #[inline]
    fn wait_word(table: &SharedTable<K>, cell_mask: u64, _node: u64, token: u64) -> usize {
        cell_word(table, cell_mask, token)
    }

    #[inline]
    fn signals_turn(token: u64, low: u32) -> bool {
        is_granted_half(low, token)
    }

    ghost cuts = { λ key. seats.cuts (TicketCells key.config.nodes)
        (slot_layout key.config.nodes) K.good K.allows key };

    ghost blanks = { λ key. seats.blanks (TicketCells key.config.nodes)
        (slot_layout key.config.nodes) K.good K.allows key };

    ghost joins = { λ key. seats.joins (TicketCells key.config.nodes)
        (slot_layout key.config.nodes) K.good K.allows key };

    ghost slots = { λ key. seats.slot_count (TicketCells key.config.nodes)
        (slot_layout key.config.nodes) K.good K.allows key };

    ghost starts = { λ key. seats.starts (TicketCells key.config.nodes)
        (slot_layout key.config.nodes) K.good K.allows key (layout.granted_word 0) (enough key)
        (first_slot key.config.nodes) (first_cells key.config.nodes) };

    ghost meets = { λ key. meeting.meets_next (TicketCells key.config.nodes)
        (slot_layout key.config.nodes) K.good K.allows key };

    ghost return_slots_law = { λ key id slots i m v token left is holds_open turns kept.
        meeting.return_slots_next (TicketCells key.config.nodes)
        (slot_layout key.config.nodes) K.good K.allows key id slots i m v left turns is holds_open
        (holder_returns key v.view token left m.1 kept) };

    ghost finishes = { λ key es id words xs at_rest.
        lasting.final_line (TicketCells key.config.nodes)
        (slot_layout key.config.nodes) K.good K.allows key es ticket_of at_rest
        (last key.config.nodes) (is_last key.config.nodes) id words xs };
}

/// The state of a port after its turn, depending on whether the turn closed the line.
#[inline]
fn state_after(closed: bool) -> PortState
    ensures { result ≡ states.state_after closed }
{
    if closed {
        PortState::Shut
    } else {
        PortState::Idle
    }
}
