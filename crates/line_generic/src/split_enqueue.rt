//! Splits a request for a line into two calls, `prepend` and `link`. Only lines whose queue is a linked list have these
//! calls.
ghost use Rattle.line_generic.specs.PortCalls.{IsRestingPort, IsLinkingPort, HasPutRequest, HasLinkedRequest};

use crate::accept::Arrival;
use crate::discipline::{Enqueued, SplitEnqueue};
use crate::line::Line;
use crate::port::Port;
use crate::wake::WakePolicy;
use qolb_model::{Enq, Keep, LineSync, PortState, Prep};

impl<K: Keep, Q: SplitEnqueue<K>, W: WakePolicy> Line<K, Q, W> {
    /// Makes a request, as the first half of `enqolb`.
    ///
    /// If the request has a predecessor, the port is then `Linking`, and the request must still be linked.
    pub fn prepend(&self, port: &mut Port<Q, W>) -> Prep
        requires { IsRestingPort K.Keep self.now.table.shared port.old }
        ensures { HasPutRequest K.Keep Q.DisciplineSpec self.now.table.shared Q.prepend_steps
            port.old port.new result }
    {
        let table = &self.table.shared;
        let made = Q::prepend(table, &mut port.seat, port.node, port.state);
        port.steps = made.steps;
        match made.answer {
            Enqueued::Busy => Prep::Busy,
            Enqueued::Queued => {
                port.token = made.token;
                port.state = PortState::Linking;
                Prep::Linking
            }
            Enqueued::AtTurn => {
                port.token = made.token;
                let accepted = self.accept(
                    &mut port.seat,
                    &mut port.payload,
                    &mut port.note,
                    Arrival {
                        node: port.node,
                        token: port.token,
                        steps: port.steps,
                    },
                    Prep::Granted,
                    Prep::Closed,
                );
                port.state = accepted.state;
                port.steps = accepted.steps;
                accepted.answer
            }
        }
    }

    /// Links the request to its predecessor's, as the second half of `enqolb`. Never returns `Busy`.
    pub fn link(&self, port: &mut Port<Q, W>) -> Enq
        requires { IsLinkingPort K.Keep self.now.table.shared port.old }
        ensures { HasLinkedRequest K.Keep Q.DisciplineSpec self.now.table.shared port.old
            port.new result }
    {
        let table = &self.table.shared;
        port.steps = 1;
        if !Q::link(table, &mut port.seat, port.node, port.token) {
            port.state = PortState::Queued;
            return Enq::Queued;
        }
        let accepted = self.accept(
            &mut port.seat,
            &mut port.payload,
            &mut port.note,
            Arrival {
                node: port.node,
                token: port.token,
                steps: port.steps,
            },
            Enq::Granted,
            Enq::Closed,
        );
        port.state = accepted.state;
        port.steps = accepted.steps;
        accepted.answer
    }
}
