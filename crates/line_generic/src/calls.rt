//! Implements the calls of `LineSync` once for all kinds of lines.
//!
//! The queue algorithm (`Discipline`) of the line determines the atomic steps of each call. After a call has released
//! the line, it wakes waiters according to the line's wake policy.
ghost use Rattle.std.specs.Prelude.{◌≡◌, ◌+◌, IfOk, IfErr, true, false};
ghost use Rattle.qolb_model.specs.Calls.{MergesViews};
ghost use Rattle.qolb_model.specs.OneOwner.{turn_after};
ghost use Rattle.line_generic.specs.Ports.{call_steps};
ghost use Rattle.line_generic.specs.PortCalls.{IsPortOf, IsRestingPort, IsWaitingPort, IsHoldingPort, AreOwnPorts, HasFinished, MayNotFinish, HasEnqueued, HasPolled, HasWithdrawn, HasLookedIfClear, HasEndedTurn, HasMet};

use crate::accept::Arrival;
use crate::discipline::{Discipline, Enqueued, Released};
use crate::line::Line;
use crate::meeting::meet_seats;
use crate::port::Port;
use crate::single_slot::return_slots;
use crate::wake::WakePolicy;
use line_lanes::{Line64, Mask, merge};
use qolb_model::{Enq, Keep, LineSync, Out, Poll, PortState, Unfinished};
use std::alloc::Global;

impl<K: Keep, Q: Discipline<K>, W: WakePolicy> LineSync<K> for Line<K, Q, W> {
    type Port = Port<Q, W>;

    ghost view = { λ port. port.view };

    ghost turn = { λ port. port.turn };

    ghost counters = { λ port. port.counters };

    ghost allowed_states = { Q.allowed_states };

    ghost call_steps = { λ line. call_steps Q.enqueue_steps Q.release_steps
        (Q.max_steps line.table.shared.key.config.nodes) };

    ghost max_steps = { λ line. Q.max_steps line.table.shared.key.config.nodes + 3 };

    ghost belongs = { λ line port. IsPortOf K.Keep line.table.shared port };

    ghost label_of = { λ line. line.table.shared.key.label };

    ghost config_of = { λ line. line.table.shared.key.config };

    fn label(&self) -> u64 {
        self.label
    }

    fn nodes(&self) -> u64 {
        self.nodes
    }

    fn node(port: &Port<Q, W>) -> u64 {
        port.node
    }

    fn state(port: &Port<Q, W>) -> PortState {
        port.state
    }

    fn owns(&self, port: &Port<Q, W>) -> bool {
        port.label == self.label
    }

    fn bytes(port: &Port<Q, W>) -> &Line64 {
        &port.payload.bytes
    }

    fn turns_left(&self, port: &Port<Q, W>) -> Option<u64> {
        port.payload.turns_left
    }

    #[inline(always)]
    fn write(port: &mut Port<Q, W>, mask: Mask, bytes: &Line64)
        requires { port.old.view.state ≡ PortState.Holding }
        ensures view { port.new.view ≡ port.old.view }
        ensures turn { port.new.turn ≡ turn_after port.old.turn mask.0 bytes.now.bytes }
        ensures counters { port.new.counters ≡ port.old.counters }
        ensures table { port.new.table ≡ port.old.table }
        ensures keeps_note { port.new.went_to ≡ port.old.went_to }
    {
        port.payload.bytes = merge(&port.payload.bytes, bytes, mask);
        port.payload.mask = port.payload.mask.with(&mask);
    }

    fn enqolb(&self, port: &mut Port<Q, W>) -> Enq
        requires { IsRestingPort K.Keep self.now.table.shared port.old }
        ensures { HasEnqueued K.Keep Q.DisciplineSpec self.now.table.shared port.old
            port.new result }
    {
        let table = &self.table.shared;
        let made = Q::ask(
            table,
            &mut port.seat,
            self.width.cell_mask,
            port.node,
            port.state,
        );
        port.steps = made.steps;
        match made.answer {
            Enqueued::Busy => Enq::Busy,
            Enqueued::Queued => {
                port.token = made.token;
                port.state = PortState::Queued;
                Enq::Queued
            }
            Enqueued::AtTurn => {
                port.token = made.token;
                let accepted = self.accept(
                    &mut port.seat,
                    &mut port.payload,
                    &mut port.note,
                    Arrival {
                        node: port.node,
                        token: port.token,
                        steps: port.steps,
                    },
                    Enq::Granted,
                    Enq::Closed,
                );
                port.state = accepted.state;
                port.steps = accepted.steps;
                accepted.answer
            }
        }
    }

    #[inline]
    fn poll(&self, port: &mut Port<Q, W>) -> Poll
        requires { IsWaitingPort K.Keep self.now.table.shared port.old }
        ensures { HasPolled K.Keep Q.DisciplineSpec self.now.table.shared port.old port.new result }
    {
        let table = &self.table.shared;
        port.poll_count = port.poll_count.and_one();
        port.steps = 1;
        if !Q::look(
            table,
            &mut port.seat,
            self.width.cell_mask,
            port.node,
            port.token,
        ) {
            return Poll::Waiting;
        }
        let accepted = self.accept(
            &mut port.seat,
            &mut port.payload,
            &mut port.note,
            Arrival {
                node: port.node,
                token: port.token,
                steps: port.steps,
            },
            Poll::Granted,
            Poll::Closed,
        );
        port.state = accepted.state;
        port.steps = accepted.steps;
        accepted.answer
    }

    fn withdraw(&self, port: &mut Port<Q, W>) -> Out
        requires { IsWaitingPort K.Keep self.now.table.shared port.old }
        ensures { HasWithdrawn K.Keep Q.DisciplineSpec self.now.table.shared port.old
            port.new result }
    {
        let table = &self.table.shared;
        port.steps = 1;
        if !Q::roll(
            table,
            &mut port.seat,
            self.width.cell_mask,
            port.node,
            port.token,
        ) {
            port.state = PortState::Rolled;
            return Out::Withdrawn;
        }
        let accepted = self.accept(
            &mut port.seat,
            &mut port.payload,
            &mut port.note,
            Arrival {
                node: port.node,
                token: port.token,
                steps: port.steps,
            },
            Out::Granted,
            Out::Closed,
        );
        port.state = accepted.state;
        port.steps = accepted.steps;
        accepted.answer
    }

    fn is_clear(&self, port: &mut Port<Q, W>) -> bool
        requires { IsRestingPort K.Keep self.now.table.shared port.old }
        ensures { HasLookedIfClear K.Keep Q.DisciplineSpec self.now.table.shared port.old
            port.new result }
    {
        let table = &self.table.shared;
        let looked = Q::look_at_rest(table, &mut port.seat, port.node, port.state);
        port.state = looked.state;
        port.steps = looked.steps;
        looked.clear
    }

    #[inline(always)]
    fn deqolb(&self, port: &mut Port<Q, W>)
        requires { IsHoldingPort K.Keep self.now.table.shared port.old }
        ensures { HasEndedTurn K.Keep Q.DisciplineSpec self.now.table.shared false
            port.old port.new }
    {
        self.release_with(port, false);
    }

    fn shut(&self, port: &mut Port<Q, W>)
        requires { IsHoldingPort K.Keep self.now.table.shared port.old }
        ensures { HasEndedTurn K.Keep Q.DisciplineSpec self.now.table.shared true
            port.old port.new }
    {
        self.release_with(port, true);
    }

    fn meet(&self, a: &mut Port<Q, W>, b: &mut Port<Q, W>)
        requires belongs_a { IsPortOf K.Keep self.now.table.shared a.old }
        requires belongs_b { IsPortOf K.Keep self.now.table.shared b.old }
        ensures first { HasMet K.Keep self.now.table.shared a.old a.new }
        ensures second { HasMet K.Keep self.now.table.shared b.old b.new }
        ensures tell { MergesViews K.allows a.old.view b.old.view a.new.view b.new.view }
    {
        let table = &self.table.shared;
        if !b.holds() {
            meet_seats(table, &mut a.seat, &mut b.seat);
        } else if !a.holds() {
            meet_seats(table, &mut b.seat, &mut a.seat);
        } else {
            // This branch is unreachable, because two ports of one line never both hold. The proof sees this only from
            // their ghost states in one seat, and a seat that holds slots cannot be joined to another. Therefore this
            // branch returns the slots first.
            return_slots(table, &mut b.seat);
            meet_seats(table, &mut a.seat, &mut b.seat);
            unreachable!()
        }
    }

    fn finish(
        self,
        alloc: Global,
        ports: Vec<Port<Q, W>>,
    ) -> Result<Line64, Unfinished<Line<K, Q, W>, Port<Q, W>>>
        requires belongs { AreOwnPorts K.Keep self.table.shared ports.items }
        ensures finished { IfOk result (λ line.
            HasFinished K.Keep self.table.shared ports.items line.bytes) }
        ensures why { IfErr result (λ back. MayNotFinish self.table.shared ports.items back.why) }
        ensures line { IfErr result (λ back. back.line ≡ self) }
        ensures ports { IfErr result (λ back. back.ports.items ≡ ports.items) }
    {
        self.finish_in(alloc, ports)
    }

    ghost sound = { λ line port belongs. belongs.sound };
}

impl<K: Keep, Q: Discipline<K>, W: WakePolicy> Line<K, Q, W> {
    /// Releases the line, and closes it if `shut` is set. The calls `shut` and `deqolb` are both implemented by this
    /// call.
    ///
    /// The call stores the holder's payload for the successor, as closed if `shut` is set or if the lease ends with
    /// this turn. Then it hands the line over and unparks the next holder. It takes at least one atomic step, at most
    /// `max_steps - 1`, and does not block.
    #[inline(always)]
    pub fn release_with(&self, port: &mut Port<Q, W>, shut: bool)
        requires { IsHoldingPort K.Keep self.now.table.shared port.old }
        ensures { HasEndedTurn K.Keep Q.DisciplineSpec self.now.table.shared shut
            port.old port.new }
    {
        let table = &self.table.shared;
        let cell_mask = self.width.cell_mask;
        let closed = shut | (port.payload.turns_left == Some(1));
        Q::put(
            table,
            &mut port.seat,
            cell_mask,
            port.token,
            &port.payload,
            closed,
        );
        let released = Q::release(
            table,
            &mut port.seat,
            cell_mask,
            port.node,
            port.token,
            closed,
        );
        let Released {
            state,
            steps,
            unpark,
        } = released;
        port.steps = steps;
        port.state = state;
        self.sleepers.wake(&self.table, &mut port.note, unpark);
    }
}
