ghost use Rattle.std.specs.Prelude.{◌≡◌, ◌≤◌, IfOk};
ghost use Rattle.qolb_model.specs.Opening.{AreNodes};
ghost use Rattle.qolb_model.specs.Leases.{IsLease};
ghost use Rattle.qolb_script.specs.Commands.{read_line};
ghost use Rattle.qolb_script.specs.Events as spec;
ghost use Rattle.qolb_script.specs.Reading.{words_left};
ghost use Rattle.qolb_script.specs.Stepped.{event_of};
ghost use Rattle.link_core.specs.Steps.{node_of};

use crate::command_reader::{LEASE, NODES, WRITE, lease_within, node_within, read_placed};
use crate::reason::{Allowed, Form, Reason, ScriptKind, same_word};
use crate::step::Step;
use crate::text::{ReadItem, Words};
use link_core::Event;
use qolb_model::MAX_NODES;

/// A reader of the events below a header that gives this number of nodes.
#[derive(Drop)]
pub struct EventReader {
    pub nodes: u64,
}

impl ReadItem for EventReader {
    type Item = Event;

    ghost item_of = { λ r. spec.event_of r.nodes };

    ghost in_range = { λ r e. (1 ≤ node_of e) × (node_of e ≤ r.nodes) };

    fn read_item(&self, line: &[u8]) -> Result<Event, Reason> {
        read_event(self.nodes, line)
    }
}

/// The numbers in the header of a step script.
#[derive(Clone, Copy)]
pub struct StepHeader {
    pub nodes: u64,
    pub lease: Option<u64>,
}

/// Reads the header line of a step script: the number of nodes, and the lease if the line has one.
pub fn read_step_header(text: &[u8]) -> Result<StepHeader, Reason>
    ensures header { result ≡ read_line spec.step_header_of text.now }
    ensures nodes { IfOk result (λ header. AreNodes header.nodes) }
    ensures lease { IfOk result (λ header. IsLease header.lease) }
{
    let mut words = Words::of_line(text)?;
    match words.next() {
        Some(first) if first == NODES => read_rest_of_header(words),
        Some(_) => Err(Reason::Begin(ScriptKind::Steps)),
        None => Err(Reason::Count(Form::Header(ScriptKind::Steps))),
    }
}

/// Reads the words of a header that follow the first word.
fn read_rest_of_header(mut words: Words) -> Result<StepHeader, Reason>
    ensures header { result ≡ spec.rest_of_step_header (words_left words.entry) }
    ensures nodes { IfOk result (λ header. AreNodes header.nodes) }
    ensures lease { IfOk result (λ header. IsLease header.lease) }
{
    let Some(nodes) = words.next() else {
        return Err(Reason::Count(Form::Header(ScriptKind::Steps)));
    };
    match (words.next(), words.next(), words.next()) {
        (None, _, _) => Ok(StepHeader {
            nodes: node_within(2, MAX_NODES, nodes)?,
            lease: None,
        }),
        (Some(third), Some(lease), None) => read_leased(nodes, third, lease),
        _ => Err(Reason::Count(Form::Header(ScriptKind::Steps))),
    }
}

/// Reads a header that has a lease.
fn read_leased(nodes: &[u8], third: &[u8], lease: &[u8]) -> Result<StepHeader, Reason>
    ensures header { result ≡ spec.leased_steps nodes.now third.now lease.now }
    ensures nodes { IfOk result (λ header. AreNodes header.nodes) }
    ensures lease { IfOk result (λ header. IsLease header.lease) }
{
    same_word(3, Allowed::Lease, LEASE, third)?;
    Ok(StepHeader {
        nodes: node_within(2, MAX_NODES, nodes)?,
        lease: Some(lease_within(4, lease)?),
    })
}

/// Reads the event on a line of a script with `nodes` nodes.
fn read_event(nodes: u64, text: &[u8]) -> Result<Event, Reason>
    ensures event { result ≡ read_line (spec.event_of nodes) text.now }
    ensures range { IfOk result (λ e. (1 ≤ node_of e) × (node_of e ≤ nodes)) }
{
    let mut words = Words::of_line(text)?;
    let Some(first) = words.next() else {
        return Err(Reason::Count(Form::Event));
    };
    if first == WRITE {
        return read_write(nodes, words);
    }
    match Step::named(first) {
        Some(step) => read_step(nodes, step, words),
        None => Err(Reason::Word {
            place: 1,
            allowed: Allowed::Events,
        }),
    }
}

/// Reads the words of an event that follow the first word.
fn read_step(nodes: u64, step: Step, mut words: Words) -> Result<Event, Reason>
    ensures event { result ≡ spec.step_at nodes (event_of step) (words_left words.entry) }
    ensures range { IfOk result (λ e. (1 ≤ node_of e) × (node_of e ≤ nodes)) }
{
    match (words.next(), words.next()) {
        (Some(node), None) => Ok(step.event(node_within(2, nodes, node)?)),
        _ => Err(Reason::Count(Form::Event)),
    }
}

/// Reads the words of a write that follow the first word: the node, the place of the first byte, and the bytes in hex.
fn read_write(nodes: u64, mut words: Words) -> Result<Event, Reason>
    ensures event { result ≡ spec.step_write nodes (words_left words.entry) }
    ensures range { IfOk result (λ e. (1 ≤ node_of e) × (node_of e ≤ nodes)) }
{
    let Some(node) = words.next() else {
        return Err(Reason::Count(Form::StepWrite));
    };
    match (words.next(), words.next(), words.next()) {
        (Some(off), Some(hex), None) => {
            let node = node_within(2, nodes, node)?;
            let (mask, bytes) = read_placed(3, off, hex)?;
            Ok(Event::Write(node, mask, bytes))
        }
        _ => Err(Reason::Count(Form::StepWrite)),
    }
}
