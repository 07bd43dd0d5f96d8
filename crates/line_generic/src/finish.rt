//! Finishes a line. The caller gives back the line and all its ports, and gets the bytes that the line contains.
ghost use Rattle.std.specs.Prelude.{◌≡◌, ◌<◌, length, All, IfOk, IfErr, true};
ghost use Rattle.qolb_model.specs.Finishing.{IsFinalLine};
ghost use Rattle.qolb_model.specs.PortStates.{may_ask};
ghost use Rattle.line_generic.specs.NodeGhosts.{AllInState, views_of};
ghost use Rattle.line_generic.specs.Finish.{IsGathered};
ghost use Rattle.line_generic.specs.PortCalls.{AreOwnPorts, HasFinished, MayNotFinish};

use crate::discipline::Discipline;
use crate::line::Line;
use crate::plays::Concat;
use crate::port::Port;
use crate::table::{LineSeat, SharedTable};
use crate::wake::WakePolicy;
use line_lanes::Line64;
use qolb_model::{FinishError, Keep, Unfinished, refusal, sort_by_node};
use std::alloc::Allocator;

impl<K: Keep, Q: Discipline<K>, W: WakePolicy> Line<K, Q, W> {
    /// Finishes the line as `finish` does, with any allocator.
    pub fn finish_in<A: Allocator>(
        self,
        alloc: A,
        ports: Vec<Port<Q, W>>,
    ) -> Result<Line64, Unfinished<Line<K, Q, W>, Port<Q, W>>>
        requires belongs { AreOwnPorts K.Keep self.table.shared ports.items }
        ensures finished { IfOk result (λ line.
            HasFinished K.Keep self.table.shared ports.items line.bytes) }
        ensures why { IfErr result (λ back. MayNotFinish self.table.shared ports.items back.why) }
        ensures line { IfErr result (λ back. back.line ≡ self) }
        ensures ports { IfErr result (λ back. back.ports.items ≡ ports.items) }
    {
        if let Some(why) = refusal(&ports, self.label, self.nodes) {
            return Err(Unfinished {
                why,
                line: self,
                ports,
            });
        }
        let Ok(room) = Vec::with_capacity(alloc, ports.len()) else {
            return Err(Unfinished {
                why: FinishError::Memory,
                line: self,
                ports,
            });
        };
        let whole = gather(&self.table.shared, sort_by_node(room, ports));
        Ok(close(self, whole))
    }
}

/// Joins the seats of all ports into one.
fn gather<K: Keep, Q: Discipline<K>, W: WakePolicy, A: Allocator>(
    table: &SharedTable<K, Q>,
    ports: Vec<Port<Q, W>, A>,
) -> LineSeat<Q::Local>
    requires words { 0 < table.now.table_id.words }
    requires table { All (λ port. port.table ≡ table.now.table_id) ports.items }
    requires quiet { All (λ port. may_ask port.view.state ≡ true) ports.items }
    requires not_empty { 0 < length ports.items }
    ensures { IsGathered Q.phases.in_state table.now.table_id ports.items result }
{
    let mut seats = ports.into_iter();
    let Some(first) = seats.next() else {
        unreachable!()
    };
    let mut whole = first.seat;
    for port in seats {
        table.join_seat::<Concat>(&mut whole, port.seat);
    }
    whole
}

/// Closes the table and returns the line's bytes. `seat` has the ghost states of all nodes, each at rest.
fn close<K: Keep, Q: Discipline<K>, W: WakePolicy>(
    line: Line<K, Q, W>,
    seat: LineSeat<Q::Local>,
) -> Line64
    requires table { seat.table_id ≡ line.table.shared.table_id }
    requires at_rest { AllInState Q.phases.in_state line.table.shared.key.config.nodes seat.me.0 }
    ensures { IsFinalLine K.good K.allows line.table.shared.key.config
        (views_of seat.me.0) result.bytes }
{
    let Line {
        table,
        label: _,
        nodes,
        width: _,
        sleepers: _,
    } = line;
    let payload = Q::take_final(table.close_with(seat), nodes);
    payload.bytes
}
