//! Writes the timeline of a line from the marks and events in the line's grid.
ghost use Rattle.std.specs.Prelude.{◌≡◌, ◌++◌, ◌≤◌, ◌<◌, ◌*◌, ◌==◌, if◌then◌else◌, length, flat_map, All, OnOk, IfOk};
ghost use Rattle.std.specs.List.{range_with_len, slice_index_or};
ghost use Rattle.qolb_model.specs.declared.config.TheConstants.{MAX_NODES};
ghost use Rattle.qolb_script.specs.declared.schedule.TheConstants.{MAX_COMMANDS, MAX_LINES};
ghost use Rattle.qolb_draw.specs.Svg.{texts};
ghost use Rattle.qolb_draw.specs.Grids.{row_shapes_out_of, bars_out_of, shown_out_of, line_svg_out_of};
ghost use Rattle.qolb_draw.specs.Timelines as spec;

use crate::bar::Stand;
use crate::call::places;
use crate::event::Event;
use crate::grid::Grid;
use crate::svg::{
    Scale, push_arrow, push_bar, push_bytes, push_call, push_lane, push_line_begin, push_names,
    push_number,
};
use crate::text::shown;
use qolb_script::{Command, Said};
use std::alloc::{AllocError, Allocator};

/// Returns the row of a node: the number of shown nodes before it.
fn row_of(shown: &[u64], node: u64) -> u8
    requires { length shown.now ≤ MAX_NODES }
    ensures { result ≡ spec.row_of shown.now node }
{
    let mut row = 0;
    for other in shown {
        if *other < node {
            row += 1;
        }
    }
    row
}

/// Appends the bar of a node in this state, or nothing if the state has no bar.
fn push_stand<A: Allocator>(
    svg: &mut Vec<u8, A>,
    row: u8,
    start: u32,
    end: u32,
    stand: Stand,
    node: u64,
) -> Result<(), AllocError>
    requires { start ≤ end }
    ensures { OnOk result (svg.new.items ≡ svg.old.items
        ++ texts (spec.bar_of row start end stand node)) }
{
    if stand != Stand::Away {
        push_bar(svg, row, start, end, stand, node)?;
    }
    Ok(())
}

/// Appends the bars of a node.
fn push_bars<A: Allocator>(
    svg: &mut Vec<u8, A>,
    grid: &Grid<A>,
    row: u8,
    node: u64,
) -> Result<(), AllocError>
    requires first { 1 ≤ node }
    requires last { node ≤ grid.now.nodes }
    requires size { length grid.now.marks.items ≡ length grid.now.numbers.items * grid.now.nodes }
    requires numbers { length grid.now.numbers.items ≤ MAX_COMMANDS }
    ensures { OnOk result (svg.new.items ≡ svg.old.items
        ++ texts (bars_out_of grid.now.nodes grid.now.marks.items
        (length grid.now.numbers.items) row node)) }
{
    let nodes = grid.nodes as usize;
    let end = grid.numbers.len();
    let mut stand = Stand::Away;
    let mut start = 0u32;
    for column in 0..end {
        let mark = grid.marks[column * nodes + (node as usize - 1)];
        if stand.ends_at(mark) {
            push_stand(svg, row, start, column as u32, stand, node)?;
            stand = Stand::of(mark);
            start = column as u32;
        }
    }
    push_stand(svg, row, start, end as u32, stand, node)?;
    Ok(())
}

/// Appends the row of a node.
fn push_row<A: Allocator>(
    svg: &mut Vec<u8, A>,
    grid: &Grid<A>,
    shown: &[u64],
    node: u64,
) -> Result<(), AllocError>
    requires shown { length shown.now ≤ MAX_NODES }
    requires first { 1 ≤ node }
    requires last { node ≤ grid.now.nodes }
    requires size { length grid.now.marks.items ≡ length grid.now.numbers.items * grid.now.nodes }
    requires numbers { length grid.now.numbers.items ≤ MAX_COMMANDS }
    ensures { OnOk result (svg.new.items ≡ svg.old.items
        ++ texts (row_shapes_out_of shown.now grid.now.nodes grid.now.marks.items
        (length grid.now.numbers.items) node)) }
{
    let row = row_of(shown, node);
    let columns = grid.numbers.len();
    push_lane(svg, Scale::Schedule, row, columns as u32)?;
    push_bars(svg, grid, row, node)?;
    push_names(svg, Scale::Schedule, row, columns, node)?;
    Ok(())
}

/// Appends the arrow of a command that passed the turn from one node to another.
fn push_handoff<A: Allocator>(
    svg: &mut Vec<u8, A>,
    shown: &[u64],
    column: u32,
    event: &Event,
) -> Result<(), AllocError>
    requires { length shown.now ≤ MAX_NODES }
    ensures { OnOk result (svg.new.items ≡ svg.old.items
        ++ texts
        (spec.arrow_of shown.now column event.now.number event.now.change.before
        event.now.change.after)) }
{
    if let (Some(from), Some(to)) = (event.change.before, event.change.after) {
        if from != to {
            let giver = row_of(shown, from);
            let taker = row_of(shown, to);
            push_arrow(svg, column, event.number, giver, from, taker, to)?;
        }
    }
    Ok(())
}

/// Appends the bytes that a command wrote, if it wrote any.
fn push_written<A: Allocator + Copy>(
    alloc: A,
    svg: &mut Vec<u8, A>,
    shown: &[u64],
    column: u32,
    event: &Event,
) -> Result<(), AllocError>
    requires { length shown.now ≤ MAX_NODES }
    ensures { OnOk result (svg.new.items ≡ svg.old.items
        ++ texts (spec.bytes_of shown.now column event.now.command event.now.change.said)) }
{
    if let Command::Write {
        node,
        mask,
        bytes,
        ..
    } = event.command
    {
        if let Said::Written = event.change.said {
            let places = places(alloc, mask)?;
            push_bytes(svg, row_of(shown, node), column, &bytes.bytes, &places)?;
        }
    }
    Ok(())
}

/// Appends the shapes of a command.
fn push_column<A: Allocator + Copy>(
    alloc: A,
    svg: &mut Vec<u8, A>,
    shown: &[u64],
    column: u32,
    event: &Event,
) -> Result<(), AllocError>
    requires { length shown.now ≤ MAX_NODES }
    ensures { OnOk result (svg.new.items ≡ svg.old.items
        ++ texts (spec.column_shapes shown.now column event.now)) }
{
    push_number(svg, Scale::Schedule, column, event.number)?;
    push_handoff(svg, shown, column, event)?;
    push_written(alloc, svg, shown, column, event)?;
    push_call(alloc, svg, row_of(shown, event.change.node), column, event)?;
    Ok(())
}

/// Appends the rows of these nodes.
fn push_rows<A: Allocator>(
    svg: &mut Vec<u8, A>,
    grid: &Grid<A>,
    shown: &[u64],
) -> Result<(), AllocError>
    requires shown { length shown.now ≤ MAX_NODES }
    requires nodes { All (λ n. (1 ≤ n) × (n ≤ grid.now.nodes)) shown.now }
    requires size { length grid.now.marks.items ≡ length grid.now.numbers.items * grid.now.nodes }
    requires numbers { length grid.now.numbers.items ≤ MAX_COMMANDS }
    ensures { OnOk result (svg.new.items ≡ svg.old.items
        ++ flat_map (λ n.
        texts (row_shapes_out_of shown.now grid.now.nodes grid.now.marks.items
        (length grid.now.numbers.items) n)) shown.now) }
{
    for node in shown {
        push_row(svg, grid, shown, *node)?;
    }
    Ok(())
}

/// Appends the shapes of these commands.
fn push_columns<A: Allocator + Copy>(
    alloc: A,
    svg: &mut Vec<u8, A>,
    events: &[Event],
    shown: &[u64],
) -> Result<(), AllocError>
    requires shown { length shown.now ≤ MAX_NODES }
    requires events { length events.now ≤ MAX_COMMANDS }
    ensures { OnOk result (svg.new.items ≡ svg.old.items
        ++ flat_map (λ k.
        texts (spec.column_shapes shown.now k (slice_index_or events.now k spec.no_event)))
        (range_with_len 0 (length events.now))) }
{
    for column in 0..events.len() {
        push_column(alloc, svg, shown, column as u32, &events[column])?;
    }
    Ok(())
}

/// Appends the timeline of a line whose top is at this height. Returns the number of rows.
pub fn push_timeline<A: Allocator + Copy>(
    alloc: A,
    svg: &mut Vec<u8, A>,
    grid: &Grid<A>,
    number: u64,
    top: u64,
) -> Result<u64, AllocError>
    requires nodes { grid.now.nodes ≤ MAX_NODES }
    requires size { length grid.now.marks.items ≡ length grid.now.numbers.items * grid.now.nodes }
    requires numbers { length grid.now.numbers.items ≤ MAX_COMMANDS }
    requires events { length grid.now.events.items ≤ MAX_COMMANDS }
    ensures svg { OnOk result (svg.new.items ≡ svg.old.items
        ++ line_svg_out_of top number grid.now.nodes
        (length grid.now.numbers.items) grid.now.callers.items grid.now.events.items
        grid.now.marks.items) }
    ensures rows { IfOk result (λ rows.
        rows ≡ length (shown_out_of grid.now.nodes grid.now.callers.items)) }
    ensures in_range { IfOk result (λ rows. rows ≤ MAX_NODES) }
{
    let nodes = shown(alloc, grid)?;
    push_line_begin(svg, top, number)?;
    push_rows(svg, grid, &nodes)?;
    push_columns(alloc, svg, &grid.events, &nodes)?;
    svg.extend_from_slice(b"</g>\n")?;
    Ok(nodes.len() as u64)
}
