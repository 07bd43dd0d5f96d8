//! The lines of a replay. `ReplayLine` is the interface through which a replay calls a line. `PortedLine` implements
//! this interface for a line that each node calls through a port of its own. `CountingLine` is a line together with the
//! counts of the answers that the line has given.
ghost use Rattle.std.specs.Prelude.{◌≡◌, ℕ, ◌<◌, ◌≤◌, ◌||◌, length, map, All};
ghost use Rattle.qolb_model.specs.OneOwner.{OwnerState, opened, state_of};
ghost use Rattle.qolb_model.specs.Opening.{AreNew, MayOpen};
ghost use Rattle.qolb_model.specs.Whole.{AreSynced, seen};
ghost use Rattle.qolb_script.specs.Commands.{node_of};
ghost use Rattle.qolb_script.specs.Reply.{is_allowed, said_of, after_command, nodes_left, is_queued, is_holding};
ghost use Rattle.line_blocking.specs.ViewAndTurn.{view_and_turn};
ghost use Rattle.qolb_replay.specs.Calls.{Calls, AnswersByPort};

use line_blocking::meet_others;
use link_core::Told;
use qolb_model::{Enq, Free, LineSync, MAX_NODES, Out, Poll, PortState};
use qolb_script::{Command, Said};
use std::marker::Model;

/// A line in a replay. Nodes are numbered from 1.
pub trait ReplayLine {
    /// The refinement mapping: the line represents this state of a line with one owner.
    ghost represents: { Self → OwnerState → Type 0 };

    /// The number of the line's nodes.
    ghost nodes_of: { Self → ℕ };

    /// Returns the state of the node, as far as the state determines which calls are allowed.
    fn state(&self, node: u64) -> PortState
        requires first { 1 ≤ node }
        requires last { node ≤ nodes_of self.now }
        ensures { (s : OwnerState) → represents self.now s → seen result ≡ seen (state_of s node) };

    /// Executes the command if the state of the node allows it, and otherwise answers that the command is misuse.
    fn answer(&mut self, command: &Command) -> Said
        requires first { 1 ≤ node_of command.now }
        requires last { node_of command.now ≤ nodes_of self.old }
        ensures said { (s : OwnerState) → represents self.old s → result ≡ said_of s command.now }
        ensures represents { (s : OwnerState) → represents self.old s
            → represents self.new (after_command s command.now) }
        ensures nodes { nodes_of self.new ≡ nodes_of self.old };
}

/// Returns `true` if a node in this state may make the command.
pub fn allows(state: PortState, command: &Command) -> bool
    ensures { result ≡ is_allowed state command.now }
{
    match *command {
        Command::Enq { .. } => state.may_ask(),
        Command::Poll { .. } | Command::Out { .. } => state == PortState::Queued,
        _ => state == PortState::Holding,
    }
}

/// A line with the ports of its nodes, in the order of the nodes.
///
/// Contracts see only the ports: the view of each port, and the turn of its holder.
#[derive(Drop)]
pub struct PortedLine<L: LineSync<Free> + Drop>
where
    L::Port: Drop,
{
    line: L,
    ports: Vec<L::Port>,
}

impl<L: LineSync<Free> + Drop> Model for PortedLine<L>
where
    L::Port: Drop,
{
    ghost use Rattle.std.specs.Prelude.{List, map, All};
    ghost use Rattle.qolb_model.specs.Whole.{ViewAndTurn};
    ghost use Rattle.line_blocking.specs.ViewAndTurn.{view_and_turn};

    ghost Value = { List ViewAndTurn };

    ghost view = { λ p. map (view_and_turn L.view L.turn) p.ports.items };

    ghost invariant = { λ p. All (L.belongs p.line) p.ports.items };
}

impl<L: LineSync<Free> + Drop> PortedLine<L>
where
    L::Port: Drop,
{
    /// Wraps a line that was just opened, together with the ports of its nodes in order.
    pub fn new(line: L, ports: Vec<L::Port>) -> PortedLine<L>
        requires belongs { All (L.belongs line) ports.items }
        requires bytes { length (L.config_of line).opening.bytes ≡ 64 }
        requires may_open { MayOpen (L.config_of line) }
        requires new { AreNew (L.label_of line) (L.config_of line) (map L.view ports.items) }
        ensures nodes { length result ≡ (L.config_of line).nodes }
        ensures represents { AreSynced (opened (L.config_of line)) result }
    {
        PortedLine { line, ports }
    }
}

impl<L: LineSync<Free> + Drop> ReplayLine for PortedLine<L>
where
    L::Port: Drop,
{
    ghost represents = { λ ports s. AreSynced s ports };

    ghost nodes_of = { λ ports. length ports };

    fn state(&self, node: u64) -> PortState {
        L::state(&self.ports[node as usize - 1])
    }

    fn answer(&mut self, command: &Command) -> Said {
        answer(&self.line, &mut self.ports, command)
    }
}

/// Executes the command through the port of its node.
///
/// The port meets every other port before and after the call. The answer is therefore the answer of a line with a
/// single owner.
fn answer<L: LineSync<Free>>(line: &L, ports: &mut [L::Port], command: &Command) -> Said
    requires first { 1 ≤ node_of command.now }
    requires last { node_of command.now ≤ length ports.old }
    requires belongs { All (L.belongs line.now) ports.old }
    ensures belongs { All (L.belongs line.now) ports.new }
    ensures answers { AnswersByPort command.now result (map (view_and_turn L.view L.turn) ports.old)
        (map (view_and_turn L.view L.turn) ports.new) }
{
    let place = command.node() as usize - 1;
    meet_others(line, ports, place);
    let said = call(line, &mut ports[place], command);
    meet_others(line, ports, place);
    said
}

/// Executes the command through this port if the state of the port allows the command.
///
/// Otherwise, the answer is that the command is misuse.
fn call<L: LineSync<Free>>(line: &L, port: &mut L::Port, command: &Command) -> Said
    requires belongs { L.belongs line.now port.old }
    ensures belongs { L.belongs line.now port.new }
    ensures does { Calls command.now result (view_and_turn L.view L.turn port.old)
        (view_and_turn L.view L.turn port.new) }
{
    if !allows(L::state(port), command) {
        return Said::Misuse;
    }
    match *command {
        Command::Enq { .. } => Said::Enq(line.enqolb(port)),
        Command::Poll { .. } => Said::Poll(line.poll(port)),
        Command::Out { .. } => Said::Out(line.withdraw(port)),
        Command::Show { .. } => Said::Bytes(*L::bytes(port)),
        Command::Write { mask, bytes, .. } => {
            L::write(port, mask, &bytes);
            Said::Written
        }
        Command::Deq { .. } => {
            line.deqolb(port);
            Said::Released
        }
        Command::Shut { .. } => {
            line.shut(port);
            Said::Shut
        }
    }
}

/// The numbers of requests that ended in each way: served, withdrawn, and notified that the line is closed.
#[derive(Clone, Copy)]
pub struct Counts {
    pub served: u64,
    pub withdrawn: u64,
    pub told: u64,
}

impl Counts {
    ghost use Rattle.std.specs.Prelude.{◌^◌, ◌-◌};
    ghost use Rattle.qolb_replay.specs.Tallies.{AreWithin, Counted, no_counts};

    /// Returns counts that are all 0.
    pub fn none() -> Counts
        ensures { result ≡ no_counts }
    {
        Counts {
            served: 0,
            withdrawn: 0,
            told: 0,
        }
    }

    /// Adds `said`, the answer of a call or of an event, to the counts.
    pub fn add(&mut self, said: &Said)
        requires { AreWithin (2 ^ 64 - 2) self.old }
        ensures { Counted said.now self.old self.new }
    {
        match *said {
            Said::Released | Said::Shut | Said::Told(Told::Released | Told::Shut) => {
                self.served += 1;
            }
            Said::Out(Out::Withdrawn) | Said::Told(Told::Withdrawn) => self.withdrawn += 1,
            Said::Enq(Enq::Closed)
            | Said::Poll(Poll::Closed)
            | Said::Out(Out::Closed)
            | Said::Told(Told::Closed) => self.told += 1,
            _ => {}
        }
    }

    /// Returns the summary of line number `line`, at which `left` nodes still wait or hold.
    pub fn summary(self, line: u64, left: u64) -> Said
        ensures { result ≡ Said.Summary line self.served self.withdrawn self.told left }
    {
        Said::Summary {
            line,
            served: self.served,
            withdrawn: self.withdrawn,
            told: self.told,
            left,
        }
    }
}

/// A line in a replay, together with the counts of its answers.
#[derive(Drop)]
pub struct CountingLine<R> {
    pub line: R,
    pub counts: Counts,
}

impl<R: ReplayLine> CountingLine<R> {
    ghost use Rattle.std.specs.Prelude.{◌≡◌, ℕ, ◌≤◌, ◌-◌, ◌^◌};
    ghost use Rattle.qolb_script.specs.Commands.{node_of};
    ghost use Rattle.qolb_script.specs.Reply.{Replay, summary_of};
    ghost use Rattle.qolb_replay.specs.Tallies.{AreWithin, Does, IsLineOf, no_counts};

    /// Wraps a line in a replay, with counts that are all 0.
    pub fn new(line: R) -> CountingLine<R>
        ensures { result ≡ record { line = line; counts = no_counts } }
    {
        CountingLine {
            line,
            counts: Counts::none(),
        }
    }

    /// Executes a command, and counts its answer.
    pub fn take(&mut self, command: &Command) -> Said
        requires first { 1 ≤ node_of command.now }
        requires last { node_of command.now ≤ R.nodes_of self.old.line }
        requires fits { AreWithin (2 ^ 64 - 2) self.old.counts }
        ensures { Does R.represents R.nodes_of command.now result self.old self.new }
    {
        let said = self.line.answer(command);
        self.counts.add(&said);
        said
    }

    /// Returns the summary of the line.
    ///
    /// The summary has the line's number, its counts, and the number of nodes that wait at the line or hold it.
    pub fn summary(&self, number: u64, nodes: u64) -> Said
        requires in_range { nodes ≤ MAX_NODES }
        requires nodes { nodes ≤ R.nodes_of self.now.line }
        ensures { (r : Replay) → IsLineOf R.represents R.nodes_of nodes r number self.now
            → result ≡ summary_of nodes r number }
    {
        self.counts
            .summary(number, nodes_left_at(&self.line, nodes))
    }
}

/// Returns `true` if a node in this state waits at its line or holds the line.
fn is_left(state: PortState) -> bool
    ensures { result ≡ (is_queued state || is_holding state) }
{
    matches!(state, PortState::Queued | PortState::Holding)
}

/// Returns the number of nodes that wait at the line or hold it.
fn nodes_left_at<R: ReplayLine>(line: &R, nodes: u64) -> u64
    requires in_range { nodes ≤ MAX_NODES }
    requires nodes { nodes ≤ R.nodes_of line.now }
    ensures { (s : OwnerState) → R.represents line.now s → result ≡ nodes_left nodes s }
{
    let mut left = 0;
    for node in 1..nodes + 1 {
        if is_left(line.state(node)) {
            left += 1;
        }
    }
    left
}
