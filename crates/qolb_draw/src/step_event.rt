//! The shapes that represent one event in the picture of a step script.
ghost use Rattle.std.specs.Prelude.{◌≡◌, ◌++◌, ◌+◌, ◌≤◌, ◌<◌, length, OnOk, IfOk};
ghost use Rattle.qolb_model.specs.declared.config.TheConstants.{MAX_NODES};
ghost use Rattle.qolb_script.specs.declared.schedule.TheConstants.{MAX_COMMANDS};
ghost use Rattle.link_core.specs.declared.state.State.{State};
ghost use Rattle.link_core.specs.State.{IsNode};
ghost use Rattle.link_core.specs.Steps.{node_of};
ghost use Rattle.qolb_draw.specs.StepShapes.{Seen};
ghost use Rattle.qolb_draw.specs.StepShapes as spec;
ghost use Rattle.qolb_draw.specs.StepSvg.{step_texts};

use crate::step_svg::{push_act, push_at, push_home, push_lies, push_word};
use crate::svg::{Scale, push_number};
use link_core::{Core, Entry, Event, Told};
use std::alloc::{AllocError, Allocator};

/// The words of a line: the home word, and the entries of all nodes, in order.
#[derive(Drop)]
pub struct Words<A: Allocator> {
    pub home: u64,
    pub entries: Vec<Entry, A>,
}

/// Returns the words of this core.
pub fn words_of<A: Allocator>(alloc: A, core: &Core) -> Result<Words<A>, AllocError>
    ensures home { IfOk result (λ words. words.home ≡ core.now.home) }
    ensures entries { IfOk result (λ words. words.entries.items ≡ spec.entries_of core.now) }
{
    let entries = entries_of(alloc, core)?;
    Ok(Words {
        home: core.home(),
        entries,
    })
}

/// Returns the entries of all nodes, in order.
fn entries_of<A: Allocator>(alloc: A, core: &Core) -> Result<Vec<Entry, A>, AllocError>
    ensures { IfOk result (λ entries. entries.items ≡ spec.entries_of core.now) }
{
    let mut entries = Vec::new(alloc);
    for before in 0..core.nodes() {
        entries.push(core.entry(before + 1))?;
    }
    Ok(entries)
}

/// Returns the number of these events before the node's next event.
///
/// If the node makes none of them, returns the number of all these events.
fn until(node: u64, rest: &[Event]) -> u32
    requires { length rest.now ≤ MAX_COMMANDS }
    ensures matches { result ≡ spec.until node rest.now }
    ensures in_range { result ≤ length rest.now }
{
    for place in 0..rest.len() {
        if rest[place].node() == node {
            return place as u32;
        }
    }
    rest.len() as u32
}

/// Appends the new home word, if it has changed.
fn push_other_home<A: Allocator>(
    svg: &mut Vec<u8, A>,
    column: u32,
    was: u64,
    is: u64,
) -> Result<(), AllocError>
    ensures { OnOk result (svg.new.items ≡ svg.old.items
        ++ step_texts (spec.home_shapes column was is)) }
{
    if is != was {
        push_home(svg, column, is)?;
    }
    Ok(())
}

/// Appends the new entry of a node, if it has changed.
fn push_other_word<A: Allocator>(
    svg: &mut Vec<u8, A>,
    column: u32,
    node: u64,
    was: &Entry,
    is: &Entry,
) -> Result<(), AllocError>
    requires { node ≤ MAX_NODES }
    ensures { OnOk result (svg.new.items ≡ svg.old.items
        ++ step_texts (spec.word_shapes column node was.now is.now)) }
{
    if is != was {
        push_word(svg, column, node, is)?;
    }
    Ok(())
}

/// Appends the entries that have changed, and replaces `entries` with the entries of the core.
fn push_other_words<A: Allocator>(
    svg: &mut Vec<u8, A>,
    column: u32,
    entries: &mut [Entry],
    core: &Core,
) -> Result<(), AllocError>
    requires nodes { core.now.nodes ≤ MAX_NODES }
    requires size { length entries.old ≡ core.now.nodes }
    ensures svg { OnOk result (svg.new.items ≡ svg.old.items
        ++ step_texts (spec.words_shapes column entries.old core.now)) }
    ensures entries { OnOk result (entries.new ≡ spec.entries_of core.now) }
{
    for before in 0..core.nodes() {
        let entry = core.entry(before + 1);
        push_other_word(svg, column, before + 1, &entries[before as usize], &entry)?;
        entries[before as usize] = entry;
    }
    Ok(())
}

/// Appends the shapes of an event in this column, and replaces `words` with the words of the core after the event.
///
/// `words` holds the words of the core before the event, `core` is the core after the event, and `rest` are the events
/// that follow.
pub fn push_event_shapes<A: Allocator>(
    alloc: A,
    svg: &mut Vec<u8, A>,
    column: u32,
    event: &Event,
    told: Option<Told>,
    words: &mut Words<A>,
    core: &Core,
    rest: &[Event],
) -> Result<(), AllocError>
    requires node { IsNode core.now (node_of event.now) }
    requires nodes { core.now.nodes ≤ MAX_NODES }
    requires size { length words.old.entries.items ≡ core.now.nodes }
    requires column { column ≤ MAX_COMMANDS }
    requires rest { length rest.now ≤ MAX_COMMANDS }
    ensures svg { OnOk result ((s : State) → words.old.home ≡ s.home
        → words.old.entries.items ≡ spec.entries_of s
        → let seen : Seen = record {
          event = event.now;
          told = told;
          before = s;
          after = core.now;
        } in svg.new.items ≡ svg.old.items
        ++ step_texts (spec.event_shapes column seen rest.now)) }
    ensures home { OnOk result (words.new.home ≡ core.now.home) }
    ensures entries { OnOk result (words.new.entries.items ≡ spec.entries_of core.now) }
{
    let node = event.node();
    let end = column + (until(node, rest) + 1);
    push_number(svg, Scale::Steps, column, u64::from(column) + 1)?;
    push_at(svg, node, column, end, core.point(node))?;
    push_lies(svg, column, core.place())?;
    push_other_home(svg, column, words.home, core.home())?;
    words.home = core.home();
    push_other_words(svg, column, &mut words.entries, core)?;
    push_act(alloc, svg, column, event, told)?;
    Ok(())
}
