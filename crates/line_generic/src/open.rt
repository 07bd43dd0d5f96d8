//! Opens a line, and returns a port for each of its nodes.
ghost use Rattle.std.specs.Prelude.{◌≡◌, ◌<◌, ◌≤◌, [], length, vec_capacity, Some, None, IfOk, IfErr};
ghost use Rattle.qolb_model.specs.declared.config.TheConstants.{MAX_NODES};
ghost use Rattle.qolb_model.specs.Opening.{MayOpen, MayNotOpen};
ghost use Rattle.line_generic.specs.NodeGhosts.{initial_nodes};
ghost use Rattle.line_generic.specs.Ports.{AreSplit};
ghost use Rattle.line_generic.specs.PortCalls.{config_with, HasOpened};

use crate::discipline::{Discipline, DisciplineSpec};
use crate::line::{Line, TableWidth};
use crate::plays::SplitFirst;
use crate::port::Port;
use crate::table::{LineSeat, LocalCopy, Payload, SharedTable, TableKey};
use crate::turn_mask::TurnMask;
use crate::wake::WakePolicy;
use atomic_table::Table;
use line_lanes::Line64;
use qolb_model::{Keep, LineConfig, OpenError, OpenLine, PollCount, PortState};
use std::alloc::{AllocError, Global};
use std::marker::PhantomData;
use std::mem;

impl<K: Keep, Q: Discipline<K>, W: WakePolicy> Line<K, Q, W> {
    /// Opens a line, and returns it with the ports of nodes 1 to `nodes`, in order.
    ///
    /// The first holder finds the bytes `opening`. The call allocates the table and the ports. It fails if `nodes` is
    /// out of range, or if there is not enough memory.
    pub fn open(
        alloc: Global,
        label: u64,
        nodes: u64,
        opening: Line64,
    ) -> Result<(Line<K, Q, W>, Vec<Port<Q, W>>), OpenError>
        requires { K.good opening.bytes }
        ensures opened { IfOk result (λ r.
            HasOpened K.Keep r.0.table.shared label (config_with nodes opening None) r.1.items) }
        ensures why { IfErr result (MayNotOpen (config_with nodes opening None)) }
    {
        let config = LineConfig {
            nodes,
            opening,
            lease: None,
        };
        Line::<K, Q, W>::with_config(alloc, label, config)
    }

    /// Opens a line as `open` does, with a limit (`lease`) on the number of served turns. The last of these turns
    /// closes the line.
    pub fn open_leased(
        alloc: Global,
        label: u64,
        nodes: u64,
        opening: Line64,
        lease: u64,
    ) -> Result<(Line<K, Q, W>, Vec<Port<Q, W>>), OpenError>
        requires { K.good opening.bytes }
        ensures opened { IfOk result (λ r.
            HasOpened K.Keep r.0.table.shared label
            (config_with nodes opening (Some lease)) r.1.items) }
        ensures why { IfErr result (MayNotOpen (config_with nodes opening (Some lease))) }
    {
        let config = LineConfig {
            nodes,
            opening,
            lease: Some(lease),
        };
        Line::<K, Q, W>::with_config(alloc, label, config)
    }

    /// Opens a line with the nodes, the opening bytes and the lease of `config`.
    pub fn with_config(
        alloc: Global,
        label: u64,
        config: LineConfig,
    ) -> Result<(Line<K, Q, W>, Vec<Port<Q, W>>), OpenError>
        requires { K.good config.opening.bytes }
        ensures opened { IfOk result (λ r.
            HasOpened K.Keep r.0.table.shared label config r.1.items) }
        ensures why { IfErr result (MayNotOpen config) }
    {
        config.check()?;
        let key = TableKey { label, config };
        let Ok((line, rest)) = Line::<K, Q, W>::new_table(alloc, &key) else {
            return Err(OpenError::Memory);
        };
        let Ok(ports) = split_ports::<K, Q, W>(alloc, &line.table.shared, rest, &key) else {
            return Err(OpenError::Memory);
        };
        Ok((line, ports))
    }

    /// Makes the table, and one seat with the ghost states of all nodes.
    fn new_table(
        alloc: Global,
        key: &TableKey,
    ) -> Result<(Line<K, Q, W>, LineSeat<Q::Local>), AllocError>
        requires config { MayOpen key.now.config }
        requires line { length key.now.config.opening.bytes ≡ 64 }
        requires good { K.good key.now.config.opening.bytes }
        ensures { IfOk result (λ t. (t.1.table_id ≡ t.0.table.shared.table_id)
            × (t.0.table.shared.key ≡ key.now)
            × (t.1.me ≡ (initial_nodes Q.phases.initial key.now, []))) }
    {
        let TableKey { label, config } = *key;
        let words = Q::first_words(alloc, config.nodes)?;
        let payload = Payload {
            bytes: config.opening,
            mask: TurnMask::none(),
            turns_left: config.lease,
            closed: false,
            padding: [0; 5],
        };
        let width = TableWidth {
            words: words.len(),
            nodes: config.nodes,
            cell_mask: Q::cell_mask_for(config.nodes),
            of: PhantomData,
        };
        let slots = vec![in alloc; payload; Q::slot_count(config.nodes)]?;
        match Table::new(alloc, words.as_slice(), slots, key) {
            Ok((table, seat)) => Ok((
                Line {
                    table,
                    label,
                    nodes: config.nodes,
                    width,
                    sleepers: W::none(),
                },
                seat,
            )),
            Err(_) => Err(AllocError),
        }
    }
}

impl<K: Keep, Q: Discipline<K>, W: WakePolicy> OpenLine<K> for Line<K, Q, W> {
    fn open_with(
        alloc: Global,
        label: u64,
        config: LineConfig,
    ) -> Result<(Line<K, Q, W>, Vec<Port<Q, W>>), OpenError> {
        Line::<K, Q, W>::with_config(alloc, label, config)
    }
}

/// Allocates room for exactly `nodes` ports.
fn room_for<Q: DisciplineSpec, W: WakePolicy>(
    alloc: Global,
    nodes: u64,
) -> Result<Vec<Port<Q, W>>, AllocError>
    requires { nodes ≤ MAX_NODES }
    ensures none { IfOk result (λ ports. ports.items ≡ []) }
    ensures exact { IfOk result (λ ports. vec_capacity ports ≡ nodes) }
{
    Vec::with_capacity(alloc, nodes as usize)
}

/// Splits the seat `rest`, which has the ghost states of all nodes, into a port for each node.
fn split_ports<K: Keep, Q: Discipline<K>, W: WakePolicy>(
    alloc: Global,
    table: &SharedTable<K, Q>,
    rest: LineSeat<Q::Local>,
    key: &TableKey,
) -> Result<Vec<Port<Q, W>>, AllocError>
    requires table { (rest.table_id ≡ table.now.table_id) × (0 < table.now.table_id.words) }
    requires config { MayOpen key.now.config }
    requires whole { rest.me ≡ (initial_nodes Q.phases.initial key.now, []) }
    ensures { IfOk result (λ ports.
        AreSplit table.now.table_id key.now key.now.config.nodes ports.items) }
{
    let mut rest = rest;
    let label = key.label;
    let mut ports = room_for::<Q, W>(alloc, key.config.nodes)?;
    for done in 0..key.config.nodes {
        let others = table.split_seat::<SplitFirst>(&mut rest);
        let seat = mem::replace(&mut rest, others);
        ports.push(Port {
            payload: LocalCopy {
                bytes: Line64::zero(),
                mask: TurnMask::none(),
                turns_left: None,
                closed: false,
            },
            seat,
            token: 0,
            label,
            node: done + 1,
            steps: 0,
            note: W::blank(),
            state: PortState::Idle,
            poll_count: PollCount::none(),
        })?;
    }
    Ok(ports)
}
