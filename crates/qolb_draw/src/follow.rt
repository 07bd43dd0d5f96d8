//! A plain line (a line with one owner) that also records the order of the open requests and the state of each node.
ghost use Rattle.std.specs.Prelude.{◌≡◌, ◌⊎◌, length, option_copied};
ghost use Rattle.qolb_script.specs.Reply as reply;
ghost use Rattle.qolb_draw.specs.Following as spec;

use crate::symbol::Change;
use link_core::Told;
use qolb_model::{Enq, Out, PlainLine, Poll, PortState};
use qolb_replay::ReplayLine;
use qolb_script::{Command, Said};
use std::alloc::{AllocError, Allocator};

/// A plain line, together with the order of its open requests and the state of each node.
///
/// A plain line does not show the order of its requests. The states are stored here because a plain line searches its
/// waiting nodes each time it is asked for the state of a node. Asking for each state after each command would take
/// long.
#[derive(Drop)]
pub struct TracedLine<A: Allocator> {
    pub line: PlainLine,
    /// The nodes whose requests have not ended yet, oldest request first.
    pub waiting: Vec<u64, A>,
    /// The state of each node, indexed by the node's number. The first element belongs to no node.
    pub states: Vec<PortState, A>,
    /// `true` if the line is closed.
    pub closed: bool,
}

impl<A: Allocator + Copy> TracedLine<A> {
    ghost use Rattle.std.specs.Prelude.{◌≡◌, ◌≤◌, ◌+◌, [], IfOk, false, replicate};
    ghost use Rattle.qolb_model.specs.declared.config.TheConstants.{MAX_NODES};
    ghost use Rattle.qolb_model.specs.OneOwner.{OwnerState};
    ghost use Rattle.qolb_script.specs.Commands.{node_of};
    ghost use Rattle.qolb_script.specs.Reply.{after_command};
    ghost use Rattle.qolb_draw.specs.LineRuns.{change_of};
    ghost use Rattle.qolb_draw.specs.Following.{Follows, HasStates};

    /// Wraps a newly opened line for this number of nodes, which are all idle.
    pub fn new(alloc: A, line: PlainLine, nodes: u64) -> Result<TracedLine<A>, AllocError>
        requires { nodes ≤ MAX_NODES }
        ensures line { IfOk result (λ traced. traced.line ≡ line) }
        ensures waiting { IfOk result (λ traced. traced.waiting.items ≡ []) }
        ensures states { IfOk result (λ traced.
            traced.states.items ≡ replicate (nodes + 1) PortState.Idle) }
        ensures closed { IfOk result (λ traced. traced.closed ≡ false) }
    {
        Ok(TracedLine {
            line,
            waiting: Vec::new(alloc),
            states: vec![in alloc; PortState::Idle; nodes as usize + 1]?,
            closed: false,
        })
    }

    /// Executes a command on the line, and returns what the command changed.
    pub fn take(&mut self, command: &Command) -> Result<Change, AllocError>
        requires first { 1 ≤ node_of command.now }
        requires last { node_of command.now ≤ self.old.line.nodes }
        ensures change { IfOk result (λ change. (s : OwnerState)
            → Follows self.old.line self.old.waiting.items s → change ≡ change_of s command.now) }
        ensures follows { IfOk result (λ change. (s : OwnerState)
            → Follows self.old.line self.old.waiting.items s
            → Follows self.new.line self.new.waiting.items (after_command s command.now)) }
        ensures states { IfOk result (λ change. (s : OwnerState)
            → Follows self.old.line self.old.waiting.items s
            → HasStates self.old.line self.old.states.items self.old.closed
            → HasStates self.new.line self.new.states.items self.new.closed) }
        ensures nodes { self.new.line.nodes ≡ self.old.line.nodes }
    {
        let before = self.waiting.first().copied();
        let said = self.line.answer(command);
        if has_asked(&said) {
            self.waiting.push(command.node())?;
        }
        let closed = pass(&mut self.waiting, &mut self.states, &self.line, self.closed);
        look(
            &mut self.states,
            &self.line,
            command.node(),
            differs(self.closed, closed),
        );
        self.closed = closed;
        Ok(Change {
            node: command.node(),
            said,
            told: is_told(&said),
            before,
            after: self.waiting.first().copied(),
        })
    }
}

/// Returns `true` if a command with this answer has made a request.
fn has_asked(said: &Said) -> bool
    ensures { result ≡ spec.has_asked said.now }
{
    match *said {
        Said::Enq(answer) => answer != Enq::Busy,
        _ => false,
    }
}

/// Returns `true` if this answer says that the line is closed.
fn is_told(said: &Said) -> bool
    ensures { result ≡ reply.is_told said.now }
{
    matches!(
        *said,
        Said::Enq(Enq::Closed)
            | Said::Poll(Poll::Closed)
            | Said::Out(Out::Closed)
            | Said::Told(Told::Closed)
    )
}

/// Removes the nodes at the front of `waiting` whose requests have ended, and stores their new states.
///
/// Returns whether the line is closed now, or `was_closed` if no node was removed.
fn pass<A: Allocator>(
    waiting: &mut Vec<u64, A>,
    states: &mut Vec<PortState, A>,
    line: &PlainLine,
    was_closed: bool,
) -> bool
    ensures waiting { waiting.new.items ≡ spec.after_ended line.now waiting.old.items }
    ensures states { spec.ArePassed line.now waiting.old.items waiting.new.items
        states.old.items states.new.items }
    ensures closed { (result ≡ line.now.closed)
        ⊎ ((result ≡ was_closed) × (waiting.new.items ≡ waiting.old.items)) }
{
    let mut closed = was_closed;
    while let Some(state) = state_ended(waiting.first(), line) {
        let node = waiting.remove(0);
        keep(states, node, state);
        closed = is_shut(state);
    }
    closed
}

/// Stores the new state of the node that made a command, or of all nodes if the command closed the line.
fn look<A: Allocator>(states: &mut Vec<PortState, A>, line: &PlainLine, node: u64, all: bool)
    ensures { spec.AreLookedAt line.now node all states.old.items states.new.items }
{
    if all {
        look_at_all(states, line);
    } else {
        keep(states, node, line.state(node));
    }
}

/// Stores the new states of all nodes.
fn look_at_all<A: Allocator>(states: &mut Vec<PortState, A>, line: &PlainLine)
    ensures size { length states.new.items ≡ length states.old.items }
    ensures states { spec.AreStates line.now states.new.items }
{
    for node in 0..states.len() {
        states[node] = line.state(node as u64);
    }
}

/// Stores the new state of a node.
fn keep<A: Allocator>(states: &mut Vec<PortState, A>, node: u64, state: PortState)
    ensures { spec.IsKept node state states.old.items states.new.items }
{
    let place = node as usize;
    if place < states.len() {
        states[place] = state;
    }
}

/// Returns the state of this node, or `None` if there is no node or the node has an open request.
fn state_ended(node: Option<&u64>, line: &PlainLine) -> Option<PortState>
    ensures { result ≡ spec.state_ended line.now (option_copied node.entry) }
{
    let state = line.state(*node?);
    if is_open(state) { None } else { Some(state) }
}

/// Returns `true` if exactly one of the two is `true`.
fn differs(was: bool, is: bool) -> bool
    ensures { result ≡ spec.differs was is }
{
    if was { !is } else { is }
}

/// Returns `true` if a node in this state has no open request and the line is closed.
fn is_shut(state: PortState) -> bool
    ensures { result ≡ spec.is_shut state }
{
    matches!(state, PortState::Shut)
}

/// Returns `true` if a node in this state has a request that has not ended yet.
fn is_open(state: PortState) -> bool
    ensures { result ≡ spec.is_open state }
{
    !matches!(state, PortState::Idle | PortState::Left | PortState::Shut)
}
