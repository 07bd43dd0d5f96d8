//! The queue algorithm of the ring.
//!
//! This file implements the trait `Discipline` of `line_generic` with the atomic steps of this crate. The calls that
//! all kinds of lines share are built on this trait.
ghost use Rattle.std.specs.Prelude.{◌≡◌};
ghost use Rattle.qolb_model.specs.PortStates as states;
ghost use Rattle.ring_line.specs.Layout.{word_count, cell_of};
ghost use Rattle.line_cells.proofs.Seats as seats;
ghost use Rattle.line_cells.proofs.Meets as meeting;
ghost use Rattle.line_cells.proofs.Lasting as lasting;
ghost use Rattle.ring_line.specs.Layout as layout;
ghost use Rattle.line_cells.specs.SlotLayout.{one_slot};
ghost use Rattle.line_cells.proofs.Slots.{one_returns, one_first, one_last};
ghost use Rattle.ring_line.specs.Ring.{RingCells};
ghost use Rattle.ring_line.specs.Laws.{first_cells, enough};

use crate::invariant::{RingQueue, RingSeat, SharedTable};
use crate::layout::{cell_after, cell_of, first_words, is_granted};
use crate::release::{release, try_reset};
use crate::steps::{load, load_node, roll, take_ticket};
use atomic_table::Closed;
use line_cells::{WORDS, cell_word, is_freed};
use line_generic::{
    Discipline, EnqueueResult, Enqueued, LocalCopy, Payload, Released, Rested, UnparkHandle,
    load_from_slot, store_to_slot, take_from_closed,
};
use qolb_model::{Keep, PortState};
use std::alloc::{AllocError, Global};

impl<K: Keep> Discipline<K> for RingQueue {
    ghost word_count = { λ _. word_count };

    ghost are_first = { λ _. layout.AreFirst };

    fn first_words(alloc: Global, _nodes: u64) -> Result<Vec<u64>, AllocError> {
        first_words(alloc, WORDS)
    }

    ghost slot_count = { λ _. 1 };

    ghost last = { λ _ _. 0 };

    fn slot_count(_nodes: u64) -> usize {
        1
    }

    ghost cell_mask_for = { λ nodes. 0 };

    #[inline]
    fn cell_mask_for(_nodes: u64) -> u64 {
        0
    }

    #[inline]
    fn take(
        table: &SharedTable<K>,
        seat: &mut RingSeat,
        _cell_mask: u64,
        _token: u64,
        payload: &mut LocalCopy,
    ) {
        load_from_slot(table, seat, payload);
    }

    #[inline]
    fn put(
        table: &SharedTable<K>,
        seat: &mut RingSeat,
        _cell_mask: u64,
        _token: u64,
        payload: &LocalCopy,
        closed: bool,
    ) {
        store_to_slot(table, seat, payload, closed);
    }

    fn take_final(closed: Closed<Payload, Global>, _nodes: u64) -> Payload {
        take_from_closed(closed)
    }

    /// Takes a ticket and loads its cell. Takes two atomic steps, or four after a withdrawal, or one if the node is
    /// busy.
    #[inline]
    fn ask(
        table: &SharedTable<K>,
        seat: &mut RingSeat,
        _cell_mask: u64,
        node: u64,
        state: PortState,
    ) -> EnqueueResult {
        let Some(renewing) = try_reset(table, seat, node, state) else {
            return EnqueueResult {
                answer: Enqueued::Busy,
                token: 0,
                steps: 1,
            };
        };
        let cell = take_ticket(table, seat);
        let answer = if load(table, seat, cell) {
            Enqueued::AtTurn
        } else {
            Enqueued::Queued
        };
        EnqueueResult {
            answer,
            token: cell,
            steps: renewing + 2,
        }
    }

    /// Returns `true` unless the node's last request was withdrawn and has not been passed yet.
    #[inline]
    fn look_at_rest(
        table: &SharedTable<K>,
        seat: &mut RingSeat,
        node: u64,
        state: PortState,
    ) -> Rested {
        if state != PortState::Rolled {
            return Rested {
                clear: true,
                state,
                steps: 0,
            };
        }
        Rested {
            clear: is_freed(load_node(table, seat, node)),
            state,
            steps: 1,
        }
    }

    #[inline]
    fn look(
        table: &SharedTable<K>,
        seat: &mut RingSeat,
        _cell_mask: u64,
        _node: u64,
        token: u64,
    ) -> bool {
        load(table, seat, token)
    }

    #[inline]
    fn roll(
        table: &SharedTable<K>,
        seat: &mut RingSeat,
        _cell_mask: u64,
        node: u64,
        token: u64,
    ) -> bool {
        roll(table, seat, token, node)
    }

    #[inline]
    fn release(
        table: &SharedTable<K>,
        seat: &mut RingSeat,
        _cell_mask: u64,
        _node: u64,
        token: u64,
        closed: bool,
    ) -> Released {
        let released = release(table, seat, token);
        Released {
            state: state_after(closed),
            steps: released.steps,
            unpark: UnparkHandle::at(
                cell_word(released.cell),
                cell_word(cell_after(released.cell)),
            ),
        }
    }

    #[inline]
    fn wait_word(_table: &SharedTable<K>, _cell_mask: u64, _node: u64, token: u64) -> usize {
        cell_word(cell_of(token))
    }

    #[inline]
    fn signals_turn(_token: u64, low: u32) -> bool {
        is_granted(u64::from(low))
    }

    ghost cuts = { seats.cuts RingCells one_slot K.good K.allows };

    ghost blanks = { seats.blanks RingCells one_slot K.good K.allows };

    ghost joins = { seats.joins RingCells one_slot K.good K.allows };

    ghost slots = { seats.slot_count RingCells one_slot K.good K.allows };

    ghost starts = { λ key. seats.starts RingCells one_slot K.good K.allows key 1
        (enough key) one_first first_cells };

    ghost meets = { meeting.meets_next RingCells one_slot K.good K.allows };

    ghost return_slots_law = { λ key id slots i m v _ left is holds_open turns kept.
        meeting.return_slots_next RingCells one_slot K.good K.allows key id slots i m v
        left turns is holds_open (λ _. one_returns left m.1 kept) };

    ghost finishes = { λ key es id words xs at_rest.
        lasting.final_line RingCells one_slot K.good K.allows key es cell_of at_rest (λ _.
        0) one_last id words xs };
}

/// The state of a port after its turn, depending on whether the turn closed the line.
#[inline]
fn state_after(closed: bool) -> PortState
    ensures { result ≡ states.state_after closed }
{
    if closed {
        PortState::Shut
    } else {
        PortState::Idle
    }
}
