//! The marks of a picture. Each mark shows the state of a node at a line after a command, or what the command changed
//! for the node.
ghost use Rattle.std.specs.Prelude.{◌≡◌};
ghost use Rattle.qolb_draw.specs.Marks as spec;

use crate::bar::Stand;
use qolb_model::PortState;
use qolb_script::Said;

/// The state of a node at a line after a command, or the command's effect.
#[derive(Clone, Copy, Debug, PartialEq, Eq)]
pub enum Symbol {
    /// The node has no open request, and may ask.
    Idle,
    /// The node's request waits behind another.
    Waits,
    /// The node's turn has come, but the node has not looked yet.
    AtTurn,
    /// The node holds the line.
    Holds,
    /// The node has withdrawn its request, and the request has not been passed yet.
    Withdrawn,
    /// The node has no open request, and the line is closed.
    Shut,
    /// With this command, the node was told that the line is closed.
    Told,
    /// This command ended the node's turn and began the turn of another node.
    Gives,
    /// This command began the node's turn and ended the turn of another node.
    Takes,
    /// The node's command was misuse, so the node is still in this state.
    Misuse(Stand),
}

impl Symbol {
    /// Returns the mark of a node in this state if the last command had no effect on the node.
    ///
    /// `at_turn` says whether the node's turn has come.
    fn of(state: PortState, at_turn: bool) -> Symbol
        ensures { result ≡ spec.mark_of_state state at_turn }
    {
        match state {
            PortState::Idle | PortState::Left => Symbol::Idle,
            PortState::Queued if at_turn => Symbol::AtTurn,
            PortState::Queued | PortState::Linking => Symbol::Waits,
            PortState::Holding => Symbol::Holds,
            PortState::Rolled => Symbol::Withdrawn,
            PortState::Shut => Symbol::Shut,
        }
    }
}

/// The change that a command made.
#[derive(Clone, Copy)]
pub struct Change {
    /// The node that made the command.
    pub node: u64,
    /// The answer to the command.
    pub said: Said,
    /// `true` if the node was told that the line is closed.
    pub told: bool,
    /// The node whose turn it was before the command.
    pub before: Option<u64>,
    /// The node whose turn it is after the command.
    pub after: Option<u64>,
}

impl Change {
    /// Returns the mark of a node that is in this state after the command.
    pub fn mark(&self, state: PortState, node: u64) -> Symbol
        ensures { result ≡ spec.mark_of self.now state node }
    {
        let mark = self.effect(state, node);
        if self.node == node && matches!(self.said, Said::Misuse) {
            Symbol::Misuse(Stand::of(mark))
        } else {
            mark
        }
    }

    /// Returns the mark of a node that is in this state after the command, ignoring whether the command was misuse.
    fn effect(&self, state: PortState, node: u64) -> Symbol
        ensures { result ≡ spec.effect_of self.now state node }
    {
        if self.node == node && self.told {
            Symbol::Told
        } else if is_handed_on(self.before, self.after, node) {
            Symbol::Gives
        } else if is_handed_on(self.after, self.before, node) {
            Symbol::Takes
        } else {
            Symbol::of(state, is_node(self.after, node))
        }
    }
}

/// Returns `true` if the turn passed from this node to another.
fn is_handed_on(before: Option<u64>, after: Option<u64>, node: u64) -> bool
    ensures { result ≡ spec.is_handed_on before after node }
{
    match (before, after) {
        (Some(from), Some(to)) => from == node && to != node,
        _ => false,
    }
}

/// Returns `true` if `at` is this node.
fn is_node(at: Option<u64>, node: u64) -> bool
    ensures { result ≡ spec.is_node at node }
{
    at == Some(node)
}
