ghost use Rattle.std.specs.Prelude.{◌≡◌, ◌≢◌, IfOk, IfErr};
ghost use Rattle.qolb_script.specs.Script.{IsBegun, parsed_schedule, script_of};

use crate::command::Command;
use crate::command_reader::{CommandReader, Header, read_header};
use crate::error::ScriptError;
use crate::header::unless_other;
use crate::reason::{Reason, Refusal, ScriptKind};
use crate::text::NumberedLines;
use std::alloc::{Allocator, Global};
use std::marker::Model;

/// The largest number of commands, events or jobs in a script.
pub const MAX_COMMANDS: u64 = 100_000;

/// The largest number of lines in a schedule.
pub const MAX_LINES: u64 = 8;

/// A schedule: the numbers in its header, and the commands in order.
///
/// Only `read_schedule` and `parse_schedule` create a schedule.
#[derive(Drop)]
pub struct Schedule<A: Allocator = Global> {
    nodes: u64,
    lines: u64,
    lease: Option<u64>,
    commands: Vec<Command, A>,
}

impl<A: Allocator> Model for Schedule<A> {
    ghost use Rattle.qolb_script.specs.Script.{Script};
    ghost use Rattle.qolb_script.specs.Ranges.{IsBounded};

    ghost Value = { Script };

    ghost view = { λ s. record {
      nodes = s.nodes;
      lines = s.lines;
      lease = s.lease;
      commands = s.commands.items;
    } };

    ghost invariant = { λ s. IsBounded
        (record {
          nodes = s.nodes;
          lines = s.lines;
          lease = s.lease;
          commands = s.commands.items;
        }) };
}

impl<A: Allocator> Schedule<A> {
    ghost use Rattle.std.specs.Prelude.{◌≡◌, ◌≤◌, length};
    ghost use Rattle.qolb_model.specs.Opening.{AreNodes};
    ghost use Rattle.qolb_model.specs.Leases.{IsLease};
    ghost use Rattle.qolb_script.specs.Script.{IsInRange};

    /// Returns the number of nodes.
    pub fn nodes(&self) -> u64
        ensures nodes { result ≡ self.now.nodes }
        ensures range { AreNodes result }
    {
        self.nodes
    }

    /// Returns the number of lines.
    pub fn lines(&self) -> u64
        ensures lines { result ≡ self.now.lines }
        ensures range { (1 ≤ result) × (result ≤ MAX_LINES) }
    {
        self.lines
    }

    /// Returns the lease of each line, which is the number of acquisitions after which the line closes.
    ///
    /// Returns `None` if the header has no lease.
    pub fn lease(&self) -> Option<u64>
        ensures lease { result ≡ self.now.lease }
        ensures range { IsLease result }
    {
        self.lease
    }

    /// Returns the commands, in order.
    pub fn commands(&self) -> &[Command]
        ensures commands { result.now ≡ self.now.commands }
        ensures range { IsInRange self.now }
        ensures most { length result.now ≤ MAX_COMMANDS }
    {
        &self.commands
    }
}

/// Reads a schedule.
///
/// Allocates a vector for the commands. The error is that of the first faulty line, or `Memory` if an allocation
/// failed.
pub fn read_schedule<A: Allocator>(alloc: A, text: &[u8]) -> Result<Schedule<A>, ScriptError>
    ensures ok { IfOk result (λ schedule. script_of text.now ≡ Ok schedule) }
    ensures refused { IfErr result (λ error. error ≢ ScriptError.Memory
        → script_of text.now ≡ Err error) }
    ensures memory { IfErr result (λ error. error ≡ ScriptError.Memory → IsBegun text.now) }
{
    match parse_schedule(alloc, text) {
        Ok(schedule) => Ok(schedule),
        Err(why) => Err(why.error()),
    }
}

/// Reads a schedule as `read_schedule` does, and returns the reason if a line is refused.
pub fn parse_schedule<A: Allocator>(alloc: A, text: &[u8]) -> Result<Schedule<A>, Refusal>
    ensures ok { IfOk result (λ schedule. parsed_schedule text.now ≡ Ok schedule) }
    ensures refused { IfErr result (λ why. why ≢ Refusal.Memory
        → parsed_schedule text.now ≡ Err why) }
    ensures memory { IfErr result (λ why. why ≡ Refusal.Memory → IsBegun text.now) }
{
    let mut rest = NumberedLines::new(text);
    let Some((number, line)) = rest.next() else {
        return Err(Refusal::Line(1, Reason::Empty(ScriptKind::Schedule)));
    };
    let Header {
        nodes,
        lines,
        lease,
    } = match read_header(line) {
        Ok(header) => header,
        Err(why) => {
            return Err(Refusal::Line(number, unless_other(ScriptKind::Schedule, line, why)));
        }
    };
    let commands = rest.read_items(alloc, &CommandReader { nodes, lines })?;
    Ok(Schedule {
        nodes,
        lines,
        lease,
        commands,
    })
}
