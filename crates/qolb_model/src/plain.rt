//! The plain line, which is the reference for all other kinds of line. A plain line has one owner, uses no threads, and
//! allocates no memory.
ghost use Rattle.std.specs.Prelude.{◌≡◌, ◌≢◌, ℕ, ◌≤◌, Bool, true, false, IsTrue, IfOk, IfErr, MatchResult, ◌<◌, length, map, find, Option, Some, None};
ghost use Rattle.qolb_model.specs.Queue.{Runs};
ghost use Rattle.qolb_model.specs.OneOwner.{OwnerState, opened, state_of, shown, enq_answer, enq_moves, after_enq, clear_answer, poll_answer, poll_moves, after_poll, as_enq, out_answer, out_moves, after_out, release_moves, after_release, after_write};
ghost use Rattle.qolb_model.specs.declared.config.LineConfig.{LineConfig};
ghost use Rattle.qolb_model.specs.PortStates.{may_ask};
ghost use Rattle.qolb_model.specs.Leases.{turns_left};
ghost use Rattle.qolb_model.specs.Opening.{MayOpen, MayNotOpen};
ghost use Rattle.qolb_model.specs.Plain.{node_state, is_at, is_oldest, Agrees};
ghost use Rattle.qolb_model.specs.Steps.{after_withdrawn, withdrawn_at, turn_ended, turn_served, look_answer, looked};

use crate::answer::{Enq, OpenError, Out, Poll, PortState};
use crate::config::{LineConfig, MAX_NODES};
use crate::waiter::Waiter;
use crate::write::Write;
use arrayvec::ArrayVec;
use line_lanes::{Line64, Mask, merge};
use std::marker::Model;

/// The number of nodes that may wait or hold, for which the line has room.
const ROOM: usize = MAX_NODES as usize;

/// A line with one owner, who makes the calls of nodes 1 to `nodes`.
///
/// The contract of each call is a run of the queue machine, which the table of answers gives: it leads from each state
/// that agrees with the line to a state that agrees again. No call allocates. The line has room for all nodes to wait,
/// at 16 bytes for each, and therefore takes some 3,300 bytes.
#[derive(Drop)]
pub struct PlainLine {
    turn: Write,
    waiting: ArrayVec<Waiter, ROOM>,
    nodes: u64,
    /// The number of turns left, if the line has a lease.
    left: Option<u64>,
    granted: bool,
    closed: bool,
}

impl Model for PlainLine {
    ghost use Rattle.std.specs.Prelude.{◌≤◌};
    ghost use Rattle.qolb_model.specs.declared.config.TheConstants.{MAX_NODES};
    ghost use Rattle.qolb_model.specs.Plain.{PlainView, AreWaiting};

    ghost Value = { PlainView };

    ghost view = { λ p. record {
      nodes = p.nodes;
      waiting = p.waiting.items;
      granted = p.granted;
      closed = p.closed;
      left = p.left;
      turn = p.turn;
    } };

    ghost invariant = { λ p. (p.nodes ≤ MAX_NODES) × AreWaiting p.nodes p.waiting.items };
}

impl PlainLine {
    /// Opens a line with the bytes `opening` for the nodes 1 to `nodes`, which are all idle.
    ///
    /// Returns `Nodes` if `nodes` is not 1 to `MAX_NODES`.
    pub fn open(nodes: u64, opening: Line64) -> Result<PlainLine, OpenError>
        ensures { let config : LineConfig = record {
          nodes = nodes;
          opening = opening;
          lease = None;
        } in MatchResult result (λ line. Agrees line (opened config)) (λ error.
            (error ≢ OpenError.Memory) × MayNotOpen config error) }
    {
        PlainLine::with_config(LineConfig {
            nodes,
            opening,
            lease: None,
        })
    }

    /// Opens a line as `open` does. The line closes at the `lease`-th served turn.
    ///
    /// Returns `Nodes` as `open` does, and otherwise `Lease` if `lease` is 0.
    pub fn open_leased(nodes: u64, opening: Line64, lease: u64) -> Result<PlainLine, OpenError>
        ensures { let config : LineConfig = record {
          nodes = nodes;
          opening = opening;
          lease = Some lease;
        } in MatchResult result (λ line. Agrees line (opened config))
            (λ error. (error ≢ OpenError.Memory) × MayNotOpen config error) }
    {
        PlainLine::with_config(LineConfig {
            nodes,
            opening,
            lease: Some(lease),
        })
    }

    /// Opens a line with the nodes, the opening bytes and the lease of `config`.
    pub fn with_config(config: LineConfig) -> Result<PlainLine, OpenError>
        ensures { MatchResult result (λ line. Agrees line (opened config)) (λ error.
            (error ≢ OpenError.Memory) × MayNotOpen config error) }
    {
        config.check()?;
        Ok(PlainLine {
            turn: Write {
                mask: Mask(0),
                bytes: config.opening,
            },
            waiting: ArrayVec::new(),
            nodes: config.nodes,
            left: config.lease,
            granted: false,
            closed: false,
        })
    }

    /// Returns the state of the node.
    pub fn state(&self, node: u64) -> PortState
        ensures state { result ≡ node_state self.now node }
        ensures agrees { (s : OwnerState) → Agrees self.now s → result ≡ state_of s node }
    {
        match self.entry(node) {
            None if self.closed => PortState::Shut,
            None => PortState::Idle,
            Some(waiter) if waiter.withdrawn => PortState::Rolled,
            Some(_) if self.granted && self.is_oldest(node) => PortState::Holding,
            Some(_) => PortState::Queued,
        }
    }

    /// Returns the line's bytes as the holder `node` sees them.
    pub fn bytes(&self, node: u64) -> &Line64
        requires { node_state self.now node ≡ PortState.Holding }
        ensures { (s : OwnerState) → Agrees self.now s → result.now.bytes ≡ shown s }
    {
        &self.turn.bytes
    }

    /// Returns the number of turns left, including the holder's own, which is at least 1. Returns `None` without a
    /// lease.
    pub fn turns_left(&self, node: u64) -> Option<u64>
        requires { node_state self.now node ≡ PortState.Holding }
        ensures left { (s : OwnerState) → Agrees self.now s
            → result ≡ turns_left s.config.lease s.queue.ends }
        ensures not_zero { (s : OwnerState) → Agrees self.now s → result ≢ Some 0 }
    {
        self.left
    }

    /// Writes the bytes of `mask` for the holder `node`.
    pub fn write(&mut self, node: u64, mask: Mask, bytes: &Line64)
        requires { node_state self.old node ≡ PortState.Holding }
        ensures agrees { (s : OwnerState) → Agrees self.old s
            → Agrees self.new (after_write s mask.0 bytes.now.bytes) }
        ensures nodes { self.new.nodes ≡ self.old.nodes }
    {
        self.turn.bytes = merge(&self.turn.bytes, bytes, mask);
        self.turn.mask = Mask(self.turn.mask.0 | mask.0);
    }

    /// Makes a request for `node`, and answers at once.
    pub fn enqolb(&mut self, node: u64) -> Enq
        requires first { 1 ≤ node }
        requires last { node ≤ self.old.nodes }
        requires may_ask { IsTrue (may_ask (node_state self.old node)) }
        ensures answer { (s : OwnerState) → Agrees self.old s → result ≡ enq_answer s node }
        ensures moves { (s : OwnerState) → Agrees self.old s
            → Runs s.config s.queue (enq_moves s node) (after_enq s node).queue }
        ensures agrees { (s : OwnerState) → Agrees self.old s → Agrees self.new (after_enq s node) }
        ensures nodes { self.new.nodes ≡ self.old.nodes }
    {
        if self.entry(node).is_some() {
            return Enq::Busy;
        }
        self.waiting.push(Waiter {
            node,
            withdrawn: false,
        });
        as_enq(self.look(node))
    }

    /// Returns `true` if the node's last request is clear. Its next request is then not answered `Busy`.
    pub fn is_clear(&self, node: u64) -> bool
        requires first { 1 ≤ node }
        requires last { node ≤ self.now.nodes }
        requires may_ask { IsTrue (may_ask (node_state self.now node)) }
        ensures { (s : OwnerState) → Agrees self.now s → result ≡ clear_answer s node }
    {
        self.entry(node).is_none()
    }

    /// Polls whether the waiting node is at its turn.
    pub fn poll(&mut self, node: u64) -> Poll
        requires { node_state self.old node ≡ PortState.Queued }
        ensures answer { (s : OwnerState) → Agrees self.old s → result ≡ poll_answer s node }
        ensures moves { (s : OwnerState) → Agrees self.old s
            → Runs s.config s.queue (poll_moves result s) (after_poll result s).queue }
        ensures agrees { (s : OwnerState) → Agrees self.old s
            → Agrees self.new (after_poll result s) }
        ensures nodes { self.new.nodes ≡ self.old.nodes }
    {
        self.look(node)
    }

    /// Withdraws the waiting node's request, unless it is at its turn.
    pub fn withdraw(&mut self, node: u64) -> Out
        requires { node_state self.old node ≡ PortState.Queued }
        ensures answer { (s : OwnerState) → Agrees self.old s → result ≡ out_answer s node }
        ensures moves { (s : OwnerState) → Agrees self.old s
            → Runs s.config s.queue (out_moves s node) (after_out s node).queue }
        ensures agrees { (s : OwnerState) → Agrees self.old s → Agrees self.new (after_out s node) }
        ensures nodes { self.new.nodes ≡ self.old.nodes }
    {
        match self.look(node) {
            Poll::Granted => Out::Granted,
            Poll::Closed => Out::Closed,
            Poll::Waiting => {
                mark(&mut self.waiting, node);
                Out::Withdrawn
            }
        }
    }

    /// Releases the line for the holder `node`. The last turn of a lease closes the line, as `shut` does.
    pub fn deqolb(&mut self, node: u64)
        requires { node_state self.old node ≡ PortState.Holding }
        ensures moves { (s : OwnerState) → Agrees self.old s
            → Runs s.config s.queue (release_moves s false) (after_release s false).queue }
        ensures agrees { (s : OwnerState) → Agrees self.old s
            → Agrees self.new (after_release s false) }
        ensures nodes { self.new.nodes ≡ self.old.nodes }
    {
        self.serve(false);
    }

    /// Releases and closes the line for the holder `node`. No later request is served.
    pub fn shut(&mut self, node: u64)
        requires { node_state self.old node ≡ PortState.Holding }
        ensures moves { (s : OwnerState) → Agrees self.old s
            → Runs s.config s.queue (release_moves s true) (after_release s true).queue }
        ensures agrees { (s : OwnerState) → Agrees self.old s
            → Agrees self.new (after_release s true) }
        ensures nodes { self.new.nodes ≡ self.old.nodes }
    {
        self.serve(true);
    }

    /// Returns the node's entry, if the node waits or holds.
    fn entry(&self, node: u64) -> Option<Waiter>
        ensures { result ≡ find (is_at node) self.now.waiting }
    {
        for waiter in self.waiting.iter() {
            if waiter.node == node {
                return Some(*waiter);
            }
        }
        None
    }

    /// Returns `true` if the node's request is the oldest.
    fn is_oldest(&self, node: u64) -> bool
        ensures { result ≡ is_oldest self.now node }
    {
        self.waiting.first().is_some_and(|w| w.node == node)
    }

    /// Polls for `node`, whatever the node's state.
    fn look(&mut self, node: u64) -> Poll
        ensures answer { result ≡ look_answer self.old node }
        ensures new { self.new ≡ looked result self.old }
    {
        if !self.is_oldest(node) {
            return Poll::Waiting;
        }
        if self.closed {
            self.end_turn();
            return Poll::Closed;
        }
        self.granted = true;
        Poll::Granted
    }

    /// Ends the oldest request as served, so that one turn fewer is left. The last turn closes the line, as `shut`
    /// does.
    fn serve(&mut self, shut: bool)
        requires { 0 < length self.old.waiting }
        ensures { self.new ≡ turn_served shut self.old }
    {
        if shut || self.left == Some(1) {
            self.closed = true;
        }
        if let Some(turns) = self.left {
            self.left = Some(turns.saturating_sub(1));
        }
        self.end_turn();
    }

    /// Ends the oldest request, and passes the withdrawn requests behind it.
    fn end_turn(&mut self)
        requires { 0 < length self.old.waiting }
        ensures { self.new ≡ turn_ended self.old }
    {
        self.granted = false;
        self.turn.mask = Mask(0);
        self.waiting.remove(0);
        pass(&mut self.waiting);
    }
}

/// Returns the answer of `enqolb` to a node whose poll finds `found`.
fn as_enq(found: Poll) -> Enq
    ensures { result ≡ as_enq found }
{
    match found {
        Poll::Granted => Enq::Granted,
        Poll::Waiting => Enq::Queued,
        Poll::Closed => Enq::Closed,
    }
}

/// Passes the withdrawn entries at the front.
fn pass(waiting: &mut ArrayVec<Waiter, ROOM>)
    ensures { waiting.new.items ≡ after_withdrawn waiting.old.items }
{
    while waiting.first().is_some_and(|w| w.withdrawn) {
        waiting.remove(0);
    }
}

/// Marks the node's entry as withdrawn.
fn mark(waiting: &mut [Waiter], node: u64)
    ensures { waiting.new ≡ map (withdrawn_at node) waiting.old }
{
    for waiter in waiting.iter_mut() {
        if waiter.node == node {
            waiter.withdrawn = true;
        }
    }
}
