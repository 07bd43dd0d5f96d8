//! The grid of a line: the mark of each node after each command. The plain text and the timeline of the line are made
//! from this grid.
ghost use Rattle.std.specs.Prelude.{◌≡◌, ◌<◌, ◌≤◌, ◌*◌, ◌∷◌, [], ◌++◌, length, IfOk, OnOk};
ghost use Rattle.qolb_model.specs.declared.config.TheConstants.{MAX_NODES};
ghost use Rattle.qolb_script.specs.declared.schedule.TheConstants.{MAX_COMMANDS};
ghost use Rattle.qolb_draw.specs.LineRuns.{steps_on};
ghost use Rattle.qolb_draw.specs.Grids.{IsGrid, column_by};

use crate::event::Event;
use crate::follow::TracedLine;
use crate::symbol::{Change, Symbol};
use line_lanes::Line64;
use qolb_model::{LineConfig, PlainLine, PortState};
use qolb_script::Schedule;
use std::alloc::{AllocError, Allocator};

/// The marks of a line's nodes after each command on it.
#[derive(Drop)]
pub struct Grid<A: Allocator> {
    pub nodes: u64,
    /// The number of each command in the script, counted from 1.
    pub numbers: Vec<u64, A>,
    /// The node of each command.
    pub callers: Vec<u64, A>,
    /// Each command, with its change.
    pub events: Vec<Event, A>,
    /// The marks of all nodes after each command.
    ///
    /// There are `nodes` marks for the first command, then `nodes` marks for the next one, and so on.
    pub marks: Vec<Symbol, A>,
}

impl<A: Allocator + Copy> Grid<A> {
    /// Returns the grid of a line without a command.
    fn new(alloc: A, nodes: u64) -> Grid<A>
        ensures nodes { result.nodes ≡ nodes }
        ensures numbers { result.numbers.items ≡ [] }
        ensures callers { result.callers.items ≡ [] }
        ensures events { result.events.items ≡ [] }
        ensures marks { result.marks.items ≡ [] }
    {
        Grid {
            nodes,
            numbers: Vec::new(alloc),
            callers: Vec::new(alloc),
            events: Vec::new(alloc),
            marks: Vec::new(alloc),
        }
    }

    /// Adds the command of this event, after which the nodes are in these states.
    fn push(&mut self, event: &Event, states: &[PortState]) -> Result<(), AllocError>
        ensures nodes { self.new.nodes ≡ self.old.nodes }
        ensures numbers { OnOk result (self.new.numbers.items
            ≡ self.old.numbers.items ++ event.now.number ∷ []) }
        ensures callers { OnOk result (self.new.callers.items
            ≡ self.old.callers.items ++ event.now.change.node ∷ []) }
        ensures events { OnOk result (self.new.events.items
            ≡ self.old.events.items ++ event.now ∷ []) }
        ensures marks { OnOk result (self.new.marks.items
            ≡ self.old.marks.items ++ column_by event.now.change states.now) }
    {
        self.numbers.push(event.number)?;
        self.callers.push(event.change.node)?;
        self.events.push(*event)?;
        push_column(&mut self.marks, &event.change, states)?;
        Ok(())
    }
}

/// Appends the marks of all nodes after a command with this change.
///
/// `states` holds the nodes' states, indexed by the nodes' numbers. Its first element belongs to no node.
fn push_column<A: Allocator>(
    marks: &mut Vec<Symbol, A>,
    change: &Change,
    states: &[PortState],
) -> Result<(), AllocError>
    ensures { OnOk result (marks.new.items ≡ marks.old.items ++ column_by change.now states.now) }
{
    for node in 1..states.len() {
        marks.push(change.mark(states[node], node as u64))?;
    }
    Ok(())
}

/// Executes the commands on this line, and returns the marks of its nodes after each command.
pub fn draw_line<A: Allocator + Copy>(
    alloc: A,
    schedule: &Schedule<A>,
    number: u64,
) -> Result<Grid<A>, AllocError>
    requires { number < schedule.now.lines }
    ensures grid { IfOk result (λ grid.
        IsGrid schedule.now.nodes
        (steps_on number schedule.now) grid.nodes grid.numbers.items grid.callers.items
        grid.events.items grid.marks.items) }
    ensures nodes { IfOk result (λ grid. grid.nodes ≤ MAX_NODES) }
    ensures size { IfOk result (λ grid. length grid.marks.items
        ≡ length grid.numbers.items * grid.nodes) }
    ensures numbers { IfOk result (λ grid. length grid.numbers.items ≤ MAX_COMMANDS) }
{
    let Ok(line) = PlainLine::with_config(LineConfig {
        nodes: schedule.nodes(),
        opening: Line64::zero(),
        lease: schedule.lease(),
    }) else {
        unreachable!();
    };
    let mut line = TracedLine::new(alloc, line, schedule.nodes())?;
    let mut grid = Grid::new(alloc, schedule.nodes());
    let mut done = 0;
    for command in schedule.commands() {
        done += 1;
        if command.line() == number {
            let change = line.take(command)?;
            let event = Event {
                number: done,
                command: *command,
                change,
            };
            grid.push(&event, &line.states)?;
        }
    }
    Ok(grid)
}
