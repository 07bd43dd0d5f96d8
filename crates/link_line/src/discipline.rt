//! The queue algorithm of the link line.
//!
//! This file implements the traits `Discipline` and `SplitEnqueue` of `line_generic` with the atomic steps of this
//! crate. The calls that all kinds of lines share are built on these traits.
ghost use Rattle.link_line.specs.BetweenCalls.{steps_to_ask};
ghost use Rattle.link_line.specs.Layout as layout;
ghost use Rattle.link_line.specs.Laws.Lasting as lasting;
ghost use Rattle.link_line.specs.Laws.Meets as meeting;
ghost use Rattle.link_line.specs.Laws.Seats as seats;

use crate::enqueue::{look_at_rest, request};
use crate::invariant::{LinkQueue, LinkSeat, SharedTable};
use crate::layout::{entry_word, is_granted, word_count};
use crate::release::release;
use crate::steps::{link, load, roll};
use atomic_table::Closed;
use line_generic::{
    Discipline, EnqueueResult, Enqueued, LocalCopy, Payload, Released, Rested, SplitEnqueue,
    load_from_slot, store_to_slot, take_from_closed,
};
use qolb_model::{Keep, PortState};
use std::alloc::{AllocError, Global};

impl<K: Keep> Discipline<K> for LinkQueue {
    ghost word_count = { layout.word_count };

    ghost are_first = { layout.AreBlank };

    fn first_words(alloc: Global, nodes: u64) -> Result<Vec<u64>, AllocError> {
        vec![in alloc; 0u64; word_count(nodes)]
    }

    ghost slot_count = { λ _. 1 };

    ghost last = { λ _ _. 0 };

    fn slot_count(_nodes: u64) -> usize {
        1
    }

    ghost cell_mask_for = { λ nodes. 0 };

    #[inline]
    fn cell_mask_for(_nodes: u64) -> u64 {
        0
    }

    #[inline]
    fn take(
        table: &SharedTable<K>,
        seat: &mut LinkSeat,
        _cell_mask: u64,
        _token: u64,
        payload: &mut LocalCopy,
    ) {
        load_from_slot(table, seat, payload);
    }

    #[inline]
    fn put(
        table: &SharedTable<K>,
        seat: &mut LinkSeat,
        _cell_mask: u64,
        _token: u64,
        payload: &LocalCopy,
        closed: bool,
    ) {
        store_to_slot(table, seat, payload, closed);
    }

    fn take_final(closed: Closed<Payload, Global>, _nodes: u64) -> Payload {
        take_from_closed(closed)
    }

    /// Makes a request and links it to its predecessor's. Takes two to four atomic steps, or one if the node is busy.
    #[inline]
    fn ask(
        table: &SharedTable<K>,
        seat: &mut LinkSeat,
        _cell_mask: u64,
        node: u64,
        state: PortState,
    ) -> EnqueueResult {
        let made = request(table, seat, node, state);
        if made.answer != Enqueued::Queued {
            return made;
        }
        let is_at_turn = link(table, seat, node, made.token);
        EnqueueResult {
            answer: if is_at_turn {
                Enqueued::AtTurn
            } else {
                Enqueued::Queued
            },
            token: made.token,
            steps: made.steps + 1,
        }
    }

    /// A node is idle again once its last request is clear.
    #[inline]
    fn look_at_rest(
        table: &SharedTable<K>,
        seat: &mut LinkSeat,
        node: u64,
        state: PortState,
    ) -> Rested {
        look_at_rest(table, seat, node, state)
    }

    #[inline]
    fn look(
        table: &SharedTable<K>,
        seat: &mut LinkSeat,
        _cell_mask: u64,
        node: u64,
        _token: u64,
    ) -> bool {
        load(table, seat, node)
    }

    #[inline]
    fn roll(
        table: &SharedTable<K>,
        seat: &mut LinkSeat,
        _cell_mask: u64,
        node: u64,
        _token: u64,
    ) -> bool {
        roll(table, seat, node)
    }

    #[inline]
    fn release(
        table: &SharedTable<K>,
        seat: &mut LinkSeat,
        _cell_mask: u64,
        node: u64,
        _token: u64,
        closed: bool,
    ) -> Released {
        release(table, seat, node, closed)
    }

    #[inline]
    fn wait_word(_table: &SharedTable<K>, _cell_mask: u64, node: u64, _token: u64) -> usize {
        entry_word(node)
    }

    /// A link that was added to the entry is not a grant.
    #[inline]
    fn signals_turn(_token: u64, low: u32) -> bool {
        is_granted(u64::from(low))
    }

    ghost cuts = { seats.cuts K.good K.allows };

    ghost blanks = { seats.blanks K.good K.allows };

    ghost joins = { seats.joins K.good K.allows };

    ghost slots = { seats.one_slot K.good K.allows };

    ghost starts = { seats.starts K.good K.allows };

    ghost meets = { meeting.meets_next K.good K.allows };

    ghost return_slots_law = { λ key id slots i m v _ _ is holds_open _ kept.
        meeting.return_slots_next K.good K.allows key id slots i m v kept.0 is holds_open kept.1 };

    ghost finishes = { lasting.lasts K.good K.allows K.stays_good };
}

impl<K: Keep> SplitEnqueue<K> for LinkQueue {
    ghost prepend_steps = { steps_to_ask };

    #[inline]
    fn prepend(
        table: &SharedTable<K>,
        seat: &mut LinkSeat,
        node: u64,
        state: PortState,
    ) -> EnqueueResult {
        request(table, seat, node, state)
    }

    #[inline]
    fn link(table: &SharedTable<K>, seat: &mut LinkSeat, node: u64, token: u64) -> bool {
        link(table, seat, node, token)
    }
}
