//! Draws a schedule as plain text.
ghost use Rattle.std.specs.Prelude.{◌≡◌, ◌++◌, ◌<◌, ◌≤◌, ◌*◌, ◌-◌, ◌+◌, length, map, All, OnOk, IfOk};
ghost use Rattle.qolb_script.specs.declared.schedule.TheConstants.{MAX_COMMANDS, MAX_LINES};
ghost use Rattle.qolb_draw.specs.declared.text.TheConstants.{COLUMNS};
ghost use Rattle.std.specs.List.{range_with_len};
ghost use Rattle.qolb_draw.specs.Pictures.{letter_of};
ghost use Rattle.qolb_draw.specs.Pictures as spec;
ghost use Rattle.qolb_draw.specs.Grids.{mark_out_of, row_out_of, block_out_of, blocks_out_of, shown_out_of, line_out_of};

use crate::grid::Grid;
use crate::heads::{digit_at, push_heads};
use crate::symbol::Symbol;
use qolb_model::MAX_NODES;
use std::alloc::{AllocError, Allocator};

/// The maximum number of commands in one block.
pub const COLUMNS: usize = 70;

/// A margin as wide as the label of a row.
const MARGIN: &[u8] = b"         ";

/// The legend of the letters.
pub const LEGEND: &[u8] =
    b". idle   w waits   t its turn has come   H holds   > hands over to <\nx withdrawn   c told that the line is closed   - closed   ! misuse\n";

/// Returns the letter that shows a mark.
fn letter(mark: Symbol) -> u8
    ensures { result ≡ spec.letter_of mark }
{
    match mark {
        Symbol::Idle => b'.',
        Symbol::Waits => b'w',
        Symbol::AtTurn => b't',
        Symbol::Holds => b'H',
        Symbol::Withdrawn => b'x',
        Symbol::Shut => b'-',
        Symbol::Told => b'c',
        Symbol::Gives => b'>',
        Symbol::Takes => b'<',
        Symbol::Misuse(_) => b'!',
    }
}

/// Appends the label of a node's row.
fn push_label<A: Allocator>(text: &mut Vec<u8, A>, node: u64) -> Result<(), AllocError>
    ensures { OnOk result (text.new.items ≡ text.old.items ++ spec.label_of node) }
{
    let digits = [digit_at(100, node), digit_at(10, node), digit_at(1, node)];
    text.extend_from_slice(b"node ")?;
    text.extend_from_slice(&digits)?;
    text.push(b' ')?;
    Ok(())
}

/// Appends a node's row for some of the commands: its label, a letter for each command, and a newline.
fn push_row<A: Allocator>(
    text: &mut Vec<u8, A>,
    grid: &Grid<A>,
    node: u64,
    start: usize,
    end: usize,
) -> Result<(), AllocError>
    requires first { 1 ≤ node }
    requires last { node ≤ grid.now.nodes }
    requires size { length grid.now.marks.items ≡ length grid.now.numbers.items * grid.now.nodes }
    requires ordered { start ≤ end }
    requires block { end - start ≤ COLUMNS }
    requires within { end ≤ length grid.now.numbers.items }
    ensures { OnOk result (text.new.items ≡ text.old.items
        ++ row_out_of grid.now.nodes grid.now.marks.items start (end - start) node) }
{
    push_label(text, node)?;
    let mut room = [b' '; COLUMNS];
    let row = &mut room[..end - start];
    fill_row(row, grid, node, start);
    text.extend_from_slice(row)?;
    text.push(b'\n')?;
    Ok(())
}

/// Writes the letters of a node for the commands from `start` on, one for each byte of `row`.
fn fill_row<A: Allocator>(row: &mut [u8], grid: &Grid<A>, node: u64, start: usize)
    requires first { 1 ≤ node }
    requires last { node ≤ grid.now.nodes }
    requires size { length grid.now.marks.items ≡ length grid.now.numbers.items * grid.now.nodes }
    requires within { start + length row.old ≤ length grid.now.numbers.items }
    ensures { row.new ≡ map (λ k.
        letter_of (mark_out_of grid.now.nodes grid.now.marks.items node k))
        (range_with_len start (length row.old)) }
{
    let marks = grid.marks.as_slice();
    let nodes = grid.nodes as usize;
    for column in 0..row.len() {
        row[column] = letter(marks[(start + column) * nodes + (node as usize - 1)]);
    }
}

/// Appends a block: the numbers of some commands, and below them a row for each of these nodes.
fn push_block<A: Allocator>(
    text: &mut Vec<u8, A>,
    grid: &Grid<A>,
    shown: &[u64],
    start: usize,
    end: usize,
) -> Result<(), AllocError>
    requires nodes { All (λ n. (1 ≤ n) × (n ≤ grid.now.nodes)) shown.now }
    requires size { length grid.now.marks.items ≡ length grid.now.numbers.items * grid.now.nodes }
    requires ordered { start ≤ end }
    requires block { end - start ≤ COLUMNS }
    requires within { end ≤ length grid.now.numbers.items }
    ensures { OnOk result (text.new.items ≡ text.old.items
        ++ block_out_of grid.now.nodes grid.now.marks.items grid.now.numbers.items shown.now start
        (end - start)) }
{
    text.push(b'\n')?;
    push_heads(text, MARGIN, &grid.numbers[start..end])?;
    for node in shown {
        push_row(text, grid, *node, start, end)?;
    }
    Ok(())
}

/// Appends all blocks of a line, each with a row for each of these nodes.
fn push_blocks<A: Allocator>(
    text: &mut Vec<u8, A>,
    grid: &Grid<A>,
    shown: &[u64],
) -> Result<(), AllocError>
    requires nodes { All (λ n. (1 ≤ n) × (n ≤ grid.now.nodes)) shown.now }
    requires size { length grid.now.marks.items ≡ length grid.now.numbers.items * grid.now.nodes }
    requires numbers { length grid.now.numbers.items ≤ MAX_COMMANDS }
    ensures { OnOk result (text.new.items ≡ text.old.items
        ++ blocks_out_of grid.now.nodes grid.now.marks.items grid.now.numbers.items shown.now) }
{
    let count = grid.numbers.len();
    for block in 0..(count + (COLUMNS - 1)) / COLUMNS {
        let start = COLUMNS * block;
        push_block(text, grid, shown, start, start + COLUMNS.min(count - start))?;
    }
    Ok(())
}

/// Returns the nodes that made calls, in ascending order.
pub fn shown<A: Allocator + Copy>(alloc: A, grid: &Grid<A>) -> Result<Vec<u64, A>, AllocError>
    requires { grid.now.nodes ≤ MAX_NODES }
    ensures { IfOk result (λ nodes.
        nodes.items ≡ shown_out_of grid.now.nodes grid.now.callers.items) }
{
    let mut nodes = Vec::new(alloc);
    for before in 0..grid.nodes {
        let node = before + 1;
        if grid.callers.contains(&node) {
            nodes.push(node)?;
        }
    }
    Ok(nodes)
}

/// Appends the picture of a line.
pub fn push_line<A: Allocator + Copy>(
    alloc: A,
    text: &mut Vec<u8, A>,
    grid: &Grid<A>,
    number: u64,
) -> Result<(), AllocError>
    requires number { number < MAX_LINES }
    requires nodes { grid.now.nodes ≤ MAX_NODES }
    requires size { length grid.now.marks.items ≡ length grid.now.numbers.items * grid.now.nodes }
    requires numbers { length grid.now.numbers.items ≤ MAX_COMMANDS }
    ensures { OnOk result (text.new.items ≡ text.old.items
        ++ line_out_of number grid.now.nodes grid.now.numbers.items grid.now.callers.items
        grid.now.marks.items) }
{
    let nodes = shown(alloc, grid)?;
    text.extend_from_slice(b"line ")?;
    text.extend_from_slice(&[b'0' + number as u8, b'\n'])?;
    push_blocks(text, grid, &nodes)?;
    text.push(b'\n')?;
    Ok(())
}
