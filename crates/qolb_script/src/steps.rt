ghost use Rattle.std.specs.Prelude.{◌≡◌, ◌≢◌, IfOk, IfErr};
ghost use Rattle.qolb_script.specs.StepScript.{AreBegun, parsed_steps, steps_of};

use crate::error::ScriptError;
use crate::event_reader::{EventReader, StepHeader, read_step_header};
use crate::header::unless_other;
use crate::reason::{Reason, Refusal, ScriptKind};
use crate::text::NumberedLines;
use link_core::Event;
use std::alloc::{Allocator, Global};
use std::marker::Model;

/// A step script: the numbers in its header, and the events in order. Only `read_steps` and `parse_steps` create one.
#[derive(Drop)]
pub struct Steps<A: Allocator = Global> {
    nodes: u64,
    lease: Option<u64>,
    events: Vec<Event, A>,
}

impl<A: Allocator> Model for Steps<A> {
    ghost use Rattle.qolb_script.specs.StepScript.{StepScript};
    ghost use Rattle.qolb_script.specs.Ranges.{IsStepBounded};

    ghost Value = { StepScript };

    ghost view = { λ s. record { nodes = s.nodes; lease = s.lease; events = s.events.items } };

    ghost invariant = { λ s. IsStepBounded
        (record { nodes = s.nodes; lease = s.lease; events = s.events.items }) };
}

impl<A: Allocator> Steps<A> {
    ghost use Rattle.std.specs.Prelude.{◌≡◌, ◌≤◌, length};
    ghost use Rattle.qolb_script.specs.declared.schedule.TheConstants.{MAX_COMMANDS};
    ghost use Rattle.qolb_model.specs.Opening.{AreNodes};
    ghost use Rattle.qolb_model.specs.Leases.{IsLease};
    ghost use Rattle.qolb_script.specs.StepScript.{IsOfItsNodes};

    /// Returns the number of nodes.
    pub fn nodes(&self) -> u64
        ensures nodes { result ≡ self.now.nodes }
        ensures range { AreNodes result }
    {
        self.nodes
    }

    /// Returns the lease of the line, which is the number of acquisitions after which the line closes.
    ///
    /// Returns `None` if the header has no lease.
    pub fn lease(&self) -> Option<u64>
        ensures lease { result ≡ self.now.lease }
        ensures range { IsLease result }
    {
        self.lease
    }

    /// Returns the events, in order.
    pub fn events(&self) -> &[Event]
        ensures events { result.now ≡ self.now.events }
        ensures range { IsOfItsNodes self.now }
        ensures most { length result.now ≤ MAX_COMMANDS }
    {
        &self.events
    }
}

/// Reads a step script.
///
/// Allocates a vector for the events. The error is that of the first faulty line, or `Memory` if an allocation failed.
pub fn read_steps<A: Allocator>(alloc: A, text: &[u8]) -> Result<Steps<A>, ScriptError>
    ensures ok { IfOk result (λ steps. steps_of text.now ≡ Ok steps) }
    ensures refused { IfErr result (λ error. error ≢ ScriptError.Memory
        → steps_of text.now ≡ Err error) }
    ensures memory { IfErr result (λ error. error ≡ ScriptError.Memory → AreBegun text.now) }
{
    match parse_steps(alloc, text) {
        Ok(steps) => Ok(steps),
        Err(why) => Err(why.error()),
    }
}

/// Reads a step script as `read_steps` does, and returns the reason if a line is refused.
pub fn parse_steps<A: Allocator>(alloc: A, text: &[u8]) -> Result<Steps<A>, Refusal>
    ensures ok { IfOk result (λ steps. parsed_steps text.now ≡ Ok steps) }
    ensures refused { IfErr result (λ why. why ≢ Refusal.Memory → parsed_steps text.now ≡ Err why) }
    ensures memory { IfErr result (λ why. why ≡ Refusal.Memory → AreBegun text.now) }
{
    let mut rest = NumberedLines::new(text);
    let Some((number, line)) = rest.next() else {
        return Err(Refusal::Line(1, Reason::Empty(ScriptKind::Steps)));
    };
    let StepHeader { nodes, lease } = match read_step_header(line) {
        Ok(header) => header,
        Err(why) => {
            return Err(Refusal::Line(number, unless_other(ScriptKind::Steps, line, why)));
        }
    };
    let events = rest.read_items(alloc, &EventReader { nodes })?;
    Ok(Steps {
        nodes,
        lease,
        events,
    })
}
