//! A line together with its ports. A test names the port for a call by the number of the node. If the state of this
//! port does not allow the call, the call is not made.
ghost use Rattle.std.specs.Prelude.{◌≡◌, All, IfErr, IsTrue};
ghost use Rattle.qolb_model.specs.PortStates.{may_ask};

use line_generic::{Discipline, Line, Port, SplitEnqueue};
use line_lanes::{Line64, Mask};
use qolb_model::{
    Enq, FinishError, Free, LineConfig, LineSync, OpenError, OpenLine, Out, Poll, PortState, Prep,
    Unfinished,
};
use std::alloc::{Allocator, Global};
use std::marker::Model;

/// A line that counts atomic steps and sleepers, and that any allocator can finish.
pub trait Instrumented: OpenLine<Free> {
    /// The atomic steps of the port's last call; 0 before the first.
    fn steps(&self, port: &Self::Port) -> u64;

    /// The number of waiters that sleep or are about to.
    fn sleepers(&self) -> u64;

    /// Finishes the line as `finish` does, with any allocator.
    fn finish_in<A: Allocator>(
        self,
        alloc: A,
        ports: Vec<Self::Port>,
    ) -> Result<Line64, Unfinished<Self, Self::Port>>
        requires belongs { All (λ port. (Self.view port).label ≡ Self.label_of self
            → Self.belongs self port) ports.items }
        ensures line { IfErr result (λ back. back.line ≡ self) }
        ensures ports { IfErr result (λ back. back.ports.items ≡ ports.items) };
}

impl<Q: Discipline<Free>> Instrumented for Line<Free, Q> {
    fn steps(&self, port: &Port<Q>) -> u64 {
        Line::<Free, Q>::steps(self, port)
    }

    fn sleepers(&self) -> u64 {
        Line::<Free, Q>::sleepers(self)
    }

    fn finish_in<A: Allocator>(
        self,
        alloc: A,
        ports: Vec<Port<Q>>,
    ) -> Result<Line64, Unfinished<Line<Free, Q>, Port<Q>>>
        requires belongs { All (λ port. (⟦<Line<Free, Q> as LineSync<Free>>⟧.view port).label
            ≡ ⟦<Line<Free, Q> as LineSync<Free>>⟧.label_of self
            → ⟦<Line<Free, Q> as LineSync<Free>>⟧.belongs self port) ports.items }
        ensures line { IfErr result (λ back. back.line ≡ self) }
        ensures ports { IfErr result (λ back. back.ports.items ≡ ports.items) }
    {
        Line::<Free, Q>::finish_in(self, alloc, ports)
    }
}

/// A line on which a node can also make a request by two calls.
pub trait SplitCalls: Instrumented {
    /// The first half of a request.
    fn prepend(&self, port: &mut Self::Port) -> Prep
        requires belongs { Self.belongs self.now port.old }
        requires state { IsTrue (may_ask (Self.view port.old).state) }
        ensures belongs { Self.belongs self.now port.new };

    /// The second half of a request.
    fn link(&self, port: &mut Self::Port) -> Enq
        requires belongs { Self.belongs self.now port.old }
        requires state { (Self.view port.old).state ≡ PortState.Linking }
        ensures belongs { Self.belongs self.now port.new };
}

impl<Q: SplitEnqueue<Free>> SplitCalls for Line<Free, Q> {
    fn prepend(&self, port: &mut Port<Q>) -> Prep {
        Line::<Free, Q>::prepend(self, port)
    }

    fn link(&self, port: &mut Port<Q>) -> Enq {
        Line::<Free, Q>::link(self, port)
    }
}

/// A line and some ports. A port that has the label of the line belongs to the line.
#[derive(Drop)]
pub struct CheckedLine<L: LineSync<Free> + Drop>
where
    L::Port: Drop,
{
    line: L,
    ports: Vec<L::Port>,
}

impl<L: LineSync<Free> + Drop> Model for CheckedLine<L>
where
    L::Port: Drop,
{
    ghost use Rattle.test_calls.specs.Rows.{AreTheirs};

    ghost Value = { L };

    ghost view = { λ row. row.line };

    ghost invariant = { λ row. AreTheirs L.belongs L.view L.label_of row.line row.ports.items };
}

impl<L: LineSync<Free> + Drop> CheckedLine<L>
where
    L::Port: Drop,
{
    ghost use Rattle.std.specs.Prelude.{◌≡◌, ◌↔◌, IsTrue, IfErr, IfSome};
    ghost use Rattle.test_calls.specs.Rows.{IsTheirs};

    /// Takes the node's port out. Returns `None` if it is not there.
    pub fn take(&mut self, node: u64) -> Option<L::Port>
        ensures same { self.new ≡ self.old }
        ensures theirs { IfSome result (λ port.
            IsTheirs L.belongs L.view L.label_of self.new port) }
    {
        let at = self.ports.iter().position(|port| L::node(port) == node)?;
        Some(self.ports.swap_remove(at))
    }

    /// Puts a port in. Returns `false` if memory is refused.
    pub fn put(&mut self, port: L::Port) -> bool
        requires { IsTheirs L.belongs L.view L.label_of self.old port }
        ensures same { self.new ≡ self.old }
    {
        self.ports.push(port).is_ok()
    }

    /// Returns `true` if the port has the line's label.
    pub fn owns(&self, port: &L::Port) -> bool
        ensures { IsTrue result ↔ ((L.view port.now).label ≡ L.label_of self.now) }
    {
        self.line.owns(port)
    }

    /// The port at `place`: its node, its state, and whether it is the line's.
    pub fn at(&self, place: usize) -> Option<(u64, PortState, bool)> {
        let port = self.ports.get(place)?;
        Some((L::node(port), L::state(port), self.owns(port)))
    }

    /// The state of the node's port.
    pub fn state(&self, node: u64) -> Option<PortState> {
        let port = self.ports.iter().find(|port| L::node(port) == node)?;
        Some(L::state(port))
    }

    /// Requests the line for the node. Returns `None` if the node's port is not there or may not make a request.
    pub fn ask(&mut self, node: u64) -> Option<Enq> {
        let mut port = self.take(node)?;
        let answer = if self.owns(&port) && L::state(&port).may_ask() {
            Some(self.line.enqolb(&mut port))
        } else {
            None
        };
        self.put(port);
        answer
    }

    /// Polls for the node. Returns `None` if the node's port is not there or is not queued.
    pub fn poll(&mut self, node: u64) -> Option<Poll> {
        let mut port = self.take(node)?;
        let answer = if self.owns(&port) && L::state(&port) == PortState::Queued {
            Some(self.line.poll(&mut port))
        } else {
            None
        };
        self.put(port);
        answer
    }

    /// Withdraws the request of the node. Returns `None` if the node's port is not there or is not queued.
    pub fn withdraw(&mut self, node: u64) -> Option<Out> {
        let mut port = self.take(node)?;
        let answer = if self.owns(&port) && L::state(&port) == PortState::Queued {
            Some(self.line.withdraw(&mut port))
        } else {
            None
        };
        self.put(port);
        answer
    }

    /// Returns `Some(true)` if the node's last request is clear.
    ///
    /// The node's next request is then not answered `Busy`. Returns `None` if its port is not there or may not make a
    /// request.
    pub fn is_clear(&mut self, node: u64) -> Option<bool> {
        let mut port = self.take(node)?;
        let may_ask = L::state(&port).may_ask();
        let answer = if self.owns(&port) && may_ask {
            Some(self.line.is_clear(&mut port))
        } else {
            None
        };
        self.put(port);
        answer
    }

    /// Returns the turns left of the lease, or `None` if the node's port is not there or does not hold the line.
    pub fn turns_left(&mut self, node: u64) -> Option<Option<u64>> {
        let port = self.take(node)?;
        let answer = if self.owns(&port) && L::state(&port) == PortState::Holding {
            Some(self.line.turns_left(&port))
        } else {
            None
        };
        self.put(port);
        answer
    }

    /// Releases for the node. Returns `Some(false)` if its port did not hold the line.
    pub fn release(&mut self, node: u64) -> Option<bool> {
        let mut port = self.take(node)?;
        let held = self.owns(&port) && L::state(&port) == PortState::Holding;
        if held {
            self.line.deqolb(&mut port);
        }
        self.put(port);
        Some(held)
    }

    /// Releases for the node and closes the line. Returns `Some(false)` if its port did not hold the line.
    pub fn shut(&mut self, node: u64) -> Option<bool> {
        let mut port = self.take(node)?;
        let held = self.owns(&port) && L::state(&port) == PortState::Holding;
        if held {
            self.line.shut(&mut port);
        }
        self.put(port);
        Some(held)
    }

    /// Writes for the node. Returns `Some(false)` if its port did not hold the line.
    pub fn write(&mut self, node: u64, mask: Mask, bytes: &Line64) -> Option<bool> {
        let mut port = self.take(node)?;
        let held = L::state(&port) == PortState::Holding;
        if held {
            L::write(&mut port, mask, bytes);
        }
        self.put(port);
        Some(held)
    }

    /// Returns the bytes that the node sees, or `None` if its port does not hold the line.
    pub fn bytes(&self, node: u64) -> Option<[u8; 64]> {
        let port = self.ports.iter().find(|port| L::node(port) == node)?;
        if L::state(port) == PortState::Holding {
            Some(L::bytes(port).to_bytes())
        } else {
            None
        }
    }

    /// Merges the views of two nodes' ports. Returns `Some(false)` if one of them is not the line's.
    pub fn meet(&mut self, one: u64, two: u64) -> Option<bool> {
        let mut a = self.take(one)?;
        let mut b = self.take(two)?;
        let own = self.owns(&a) && self.owns(&b);
        if own {
            self.line.meet(&mut a, &mut b);
        }
        self.put(a);
        self.put(b);
        Some(own)
    }

    /// Finishes the line. On an error returns the line with its ports.
    pub fn finish(self, alloc: Global) -> Result<Line64, (FinishError, CheckedLine<L>)>
        ensures { IfErr result (λ back. back.1 ≡ self) }
    {
        let CheckedLine { line, ports } = self;
        match line.finish(alloc, ports) {
            Ok(bytes) => Ok(bytes),
            Err(back) => {
                let Unfinished { why, line, ports } = back;
                Err((why, CheckedLine { line, ports }))
            }
        }
    }
}

impl<L: Instrumented + Drop> CheckedLine<L>
where
    L::Port: Drop,
{
    ghost use Rattle.std.specs.Prelude.{◌≡◌, IfErr};

    /// Opens a line with this label, with all its ports.
    pub fn open(
        alloc: Global,
        label: u64,
        config: LineConfig,
    ) -> Result<CheckedLine<L>, OpenError> {
        let (line, ports) = L::open_with(alloc, label, config)?;
        Ok(CheckedLine { line, ports })
    }

    /// Opens a line of zeros with `nodes` nodes, without a lease.
    pub fn of_zeros(alloc: Global, nodes: u64) -> Result<CheckedLine<L>, OpenError> {
        let config = LineConfig {
            nodes,
            opening: Line64::zero(),
            lease: None,
        };
        CheckedLine::<L>::open(alloc, 7, config)
    }

    /// The atomic steps of the last call of the node's port.
    pub fn steps(&self, node: u64) -> Option<u64> {
        let port = self.ports.iter().find(|port| L::node(port) == node)?;
        Some(self.line.steps(port))
    }

    /// Finishes the line with another allocator. On an error returns the line with its ports.
    pub fn finish_in<A: Allocator>(self, alloc: A) -> Result<Line64, (FinishError, CheckedLine<L>)>
        ensures { IfErr result (λ back. back.1 ≡ self) }
    {
        let CheckedLine { line, ports } = self;
        match line.finish_in(alloc, ports) {
            Ok(bytes) => Ok(bytes),
            Err(back) => {
                let Unfinished { why, line, ports } = back;
                Err((why, CheckedLine { line, ports }))
            }
        }
    }
}

impl<L: SplitCalls + Drop> CheckedLine<L>
where
    L::Port: Drop,
{
    /// Makes the first half of a request for the node. Returns `None` if the node's port may not make a request.
    pub fn prepend(&mut self, node: u64) -> Option<Prep> {
        let mut port = self.take(node)?;
        let may_ask = L::state(&port).may_ask();
        let answer = if self.owns(&port) && may_ask {
            Some(self.line.prepend(&mut port))
        } else {
            None
        };
        self.put(port);
        answer
    }

    /// Makes the second half. Returns `None` if the node's port is not linking.
    pub fn link(&mut self, node: u64) -> Option<Enq> {
        let mut port = self.take(node)?;
        let is_linking = L::state(&port) == PortState::Linking;
        let answer = if self.owns(&port) && is_linking {
            Some(self.line.link(&mut port))
        } else {
            None
        };
        self.put(port);
        answer
    }
}
