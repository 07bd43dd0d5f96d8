//! Implements `ReplayLine` for the plain line, which has one owner. `ReplayLine` is the interface through which a
//! replay calls a line.
ghost use Rattle.std.specs.Prelude.{◌≡◌, ◌≤◌};
ghost use Rattle.qolb_model.specs.OneOwner.{OwnerState};
ghost use Rattle.qolb_model.specs.Plain.{Agrees};
ghost use Rattle.qolb_script.specs.Commands.{node_of};
ghost use Rattle.qolb_script.specs.Reply.{said_of, after_command};

use crate::line::{ReplayLine, allows};
use qolb_model::{PlainLine, PortState};
use qolb_script::{Command, Said};

impl ReplayLine for PlainLine {
    ghost represents = { Agrees };

    ghost nodes_of = { λ line. line.nodes };

    fn state(&self, node: u64) -> PortState {
        PlainLine::state(self, node)
    }

    fn answer(&mut self, command: &Command) -> Said {
        answer(self, command)
    }
}

/// Executes the command on the line if the state of the node allows the command.
///
/// Otherwise, the answer is that the command is misuse.
fn answer(line: &mut PlainLine, command: &Command) -> Said
    requires first { 1 ≤ node_of command.now }
    requires last { node_of command.now ≤ line.old.nodes }
    ensures said { (s : OwnerState) → Agrees line.old s → result ≡ said_of s command.now }
    ensures agrees { (s : OwnerState) → Agrees line.old s
        → Agrees line.new (after_command s command.now) }
    ensures nodes { line.new.nodes ≡ line.old.nodes }
{
    if !allows(PlainLine::state(line, command.node()), command) {
        return Said::Misuse;
    }
    match *command {
        Command::Enq { node, .. } => Said::Enq(line.enqolb(node)),
        Command::Poll { node, .. } => Said::Poll(line.poll(node)),
        Command::Out { node, .. } => Said::Out(line.withdraw(node)),
        Command::Show { node, .. } => Said::Bytes(*line.bytes(node)),
        Command::Write {
            node,
            mask,
            bytes,
            ..
        } => {
            line.write(node, mask, &bytes);
            Said::Written
        }
        Command::Deq { node, .. } => {
            line.deqolb(node);
            Said::Released
        }
        Command::Shut { node, .. } => {
            line.shut(node);
            Said::Shut
        }
    }
}
