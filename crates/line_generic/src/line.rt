//! The type `Line`. A line owns a table of atomic words.
ghost use Rattle.std.specs.Prelude.{◌≡◌, ◌*◌, ◌<◌, ◌≤◌};
ghost use Rattle.line_lanes.specs.Lane.{with_lane_of};
ghost use Rattle.line_lanes.specs.Mask.{placed_mask};
ghost use Rattle.qolb_model.specs.OneOwner.{turn_after};
ghost use Rattle.qolb_model.specs.declared.config.TheConstants.{MAX_NODES};

use crate::discipline::Discipline;
use crate::port::Port;
use crate::sleepers::Parking;
use crate::table::{LineTable, SharedTable};
use crate::wake::WakePolicy;
use line_lanes::set_lane;
use qolb_model::{Keep, PortState};
use std::marker::PhantomData;

/// The number of words and the number of nodes of a line's table, and the mask of the line's queue algorithm.
#[derive(Drop)]
pub struct TableWidth<K: Keep, Q: Discipline<K>> {
    pub(crate) words: usize,
    pub(crate) nodes: u64,
    pub(crate) cell_mask: u64,
    /// Marks the line as a shared table, so that it can be sent wherever its table can.
    pub(crate) of: PhantomData<SharedTable<K, Q>>,
    ghost sized: { words ≡ Q.Discipline.word_count nodes },
    ghost fits: { cell_mask ≡ Q.Discipline.cell_mask_for nodes },
    ghost some: { 0 < words },
}

/// A queue lock with the queue algorithm `Q`, which hands 64 bytes from holder to holder.
///
/// Between any two atomic steps, the line has one history, which lists the requests in their order, and the ends of a
/// prefix of these requests. While no node holds the line, its slot has the bytes after those ends. Each port's view is
/// a prefix of this history, and each node has at most one open request.
#[derive(Drop)]
pub struct Line<K: Keep, Q: Discipline<K>, W: WakePolicy = Parking> {
    pub(crate) table: LineTable<K, Q>,
    pub(crate) label: u64,
    pub(crate) nodes: u64,
    pub(crate) width: TableWidth<K, Q>,
    pub(crate) sleepers: W,
    ghost sized: { table.shared.table_id.words ≡ width.words },
    ghost labelled: { label ≡ table.shared.key.label },
    ghost steps: { nodes ≡ table.shared.key.config.nodes },
    ghost for_nodes: { width.nodes ≡ nodes },
    ghost some_nodes: { 1 ≤ nodes },
    ghost few_nodes: { nodes ≤ MAX_NODES },
}

impl<K: Keep, Q: Discipline<K>, W: WakePolicy> Line<K, Q, W> {
    /// Returns the number of atomic steps of the port's last call, or 0 before the first call.
    ///
    /// Requests, polls, withdrawals and releases count.
    pub fn steps(&self, port: &Port<Q, W>) -> u64
        ensures { result ≡ port.now.counters.steps }
    {
        port.steps
    }

    /// Writes lane `k` of the line that the port holds, as a store of eight bytes. This is `write` with the mask of
    /// that lane.
    #[inline(always)]
    pub fn write_lane(port: &mut Port<Q, W>, k: usize, value: u64)
        requires state { port.old.view.state ≡ PortState.Holding }
        requires lane { k < 8 }
        ensures view { port.new.view ≡ port.old.view }
        ensures turn { port.new.turn ≡ turn_after port.old.turn (placed_mask (8 * k) 8)
            (with_lane_of port.old.turn.bytes.bytes k value) }
        ensures counters { port.new.counters ≡ port.old.counters }
        ensures table { port.new.table ≡ port.old.table }
        ensures keeps_note { port.new.went_to ≡ port.old.went_to }
    {
        let mask = set_lane(&mut port.payload.bytes, k, value);
        port.payload.mask = port.payload.mask.with(&mask);
    }
}
