//! Writes the shapes of a step script's picture as SVG.
ghost use Rattle.std.specs.Prelude.{◌≡◌, ◌++◌, ◌≤◌, OnOk};
ghost use Rattle.qolb_model.specs.declared.config.TheConstants.{MAX_NODES};
ghost use Rattle.qolb_script.specs.declared.schedule.TheConstants.{MAX_COMMANDS};
ghost use Rattle.link_core.specs.Steps.{node_of};
ghost use Rattle.qolb_draw.specs.StepPictures as pictures;
ghost use Rattle.qolb_draw.specs.StepShapes.{lane_shapes, rows_shapes};
ghost use Rattle.qolb_draw.specs.StepSvg as spec;

use crate::step_words::{
    class_at, class_of_place, place_name, push_entry, push_told, row_of_place, sign_at, whose,
};
use crate::svg::{Scale, push_lane, push_names, push_sign_begin, push_sign_end, push_span};
use link_core::{Entry, Event, Place, Point, Told};
use qolb_words::{Piece, named_by, point_name, push_all, step_verb};
use std::alloc::{AllocError, Allocator};

/// The text before the shapes: the colours that a timeline does not have, and the legend.
pub const STEPS_LEGEND: &[u8] = b"<style>
.at{font-size:9px;pointer-events:none}
.rests{fill:none;stroke:#d0d7de;pointer-events:all}
.releases{fill:#e89ac7}
.hand{fill:#8250df}
.mailbox{fill:none;stroke:#8250df;pointer-events:all}
.home{fill:#8250df;fill-opacity:.4}
@media(prefers-color-scheme:dark){
.at{paint-order:stroke;stroke:#0d1117;stroke-width:2px}
.rests{stroke:#30363d}
.releases{fill:#8e3a6b}
.hand{fill:#a371f7}
.mailbox{stroke:#a371f7}
.home{fill:#a371f7}
}
</style>
<rect class='rests' x='8' y='8' width='32' height='16'/><text x='46' y='20'>in no call</text>
<rect class='waits' x='132' y='8' width='32' height='16'/><text x='170' y='20'>asks or waits</text>
<rect class='holds' x='280' y='8' width='32' height='16'/><text x='318' y='20'>holds the line</text>
<rect class='releases' x='436' y='8' width='32' height='16'/><text x='474' y='20'>releases</text>
<rect class='withdrawn' x='548' y='8' width='32' height='16'/><text x='586' y='20'>has withdrawn</text>
<rect class='hand' x='8' y='39' width='32' height='5'/><text x='46' y='46'>line in a hand</text>
<rect class='mailbox' x='160' y='39' width='32' height='5'/><text x='198' y='46'>in a mailbox</text>
<rect class='home' x='298' y='39' width='32' height='5'/><text x='336' y='46'>at home</text>
<use href='#call' x='404' y='42'/><text x='416' y='46'>an event</text>
<use href='#out' x='490' y='42'/><text x='502' y='46'>withdraws</text>
<use href='#told' x='582' y='42'/><text x='594' y='46'>finds it closed</text>
<use href='#misuse' x='718' y='42'/><text x='730' y='46'>refused</text>
<g transform='translate(0,64)'><text x='8' y='16'>Above a row: what its word has become: g granted, r rolled, d done, f freed, and the link</text>
";

/// Returns the width of a picture of `columns` events.
pub fn step_width(columns: u32) -> u64
    ensures { result ≡ pictures.step_width columns }
{
    let width = Scale::Steps.x(columns) + 32;
    if width < 800 { 800 } else { width }
}

/// Returns the height of a picture of `nodes` nodes.
pub fn step_height(nodes: u64) -> u64
    requires { nodes ≤ MAX_NODES }
    ensures { result ≡ pictures.step_height nodes }
{
    64 + Scale::Steps.y(nodes as u8) + 36
}

/// Appends a row through `columns` columns, with its name repeated.
fn push_row<A: Allocator>(svg: &mut Vec<u8, A>, row: u8, columns: usize) -> Result<(), AllocError>
    requires { columns ≤ MAX_COMMANDS }
    ensures { OnOk result (svg.new.items ≡ svg.old.items
        ++ spec.step_texts (lane_shapes columns row)) }
{
    push_lane(svg, Scale::Steps, row, columns as u32)?;
    push_names(svg, Scale::Steps, row, columns, u64::from(row))?;
    Ok(())
}

/// Appends the rows of the home word and of all nodes.
pub fn push_lanes<A: Allocator>(
    svg: &mut Vec<u8, A>,
    nodes: u64,
    columns: usize,
) -> Result<(), AllocError>
    requires nodes { nodes ≤ MAX_NODES }
    requires columns { columns ≤ MAX_COMMANDS }
    ensures { OnOk result (svg.new.items ≡ svg.old.items
        ++ spec.step_texts (rows_shapes nodes columns)) }
{
    for row in 0..nodes + 1 {
        push_row(svg, row as u8, columns)?;
    }
    Ok(())
}

/// Appends the bar of a node that stays at a point from one column to another.
fn push_at_bar<A: Allocator>(
    svg: &mut Vec<u8, A>,
    node: u64,
    start: u32,
    end: u32,
    point: Point,
) -> Result<(), AllocError>
    requires node { node ≤ MAX_NODES }
    requires ordered { start ≤ end }
    ensures { OnOk result (svg.new.items ≡ svg.old.items ++ spec.at_bar_text node start end point) }
{
    let says = [
        Piece::Words(b": "),
        Piece::Words(point_name(point)),
        Piece::Maybe(named_by(point)),
    ];
    push_span(
        svg,
        Scale::Steps,
        node as u8,
        start,
        end,
        class_at(point),
        node,
        &says,
    )?;
    Ok(())
}

/// Appends the name of a point, in its bar.
fn push_at_name<A: Allocator>(
    svg: &mut Vec<u8, A>,
    node: u64,
    start: u32,
    point: Point,
) -> Result<(), AllocError>
    requires { node ≤ MAX_NODES }
    ensures { OnOk result (svg.new.items ≡ svg.old.items ++ spec.at_name_text node start point) }
{
    push_all(
        svg,
        &[
            Piece::Words(b"<text class='at' x='"),
            Piece::Number(Scale::Steps.x(start) + 8),
            Piece::Words(b"' y='"),
            Piece::Number(Scale::Steps.y(node as u8) + 3),
            Piece::Words(b"'>"),
            Piece::Words(point_name(point)),
            Piece::Maybe(named_by(point)),
            Piece::Words(b"</text>\n"),
        ],
    )?;
    Ok(())
}

/// Appends the bar of a node that stays at a point from one column to another, and the point's name.
pub fn push_at<A: Allocator>(
    svg: &mut Vec<u8, A>,
    node: u64,
    start: u32,
    end: u32,
    point: Point,
) -> Result<(), AllocError>
    requires node { node ≤ MAX_NODES }
    requires ordered { start ≤ end }
    ensures { OnOk result (svg.new.items ≡ svg.old.items ++ spec.at_text node start end point) }
{
    push_at_bar(svg, node, start, end, point)?;
    push_at_name(svg, node, start, point)?;
    Ok(())
}

/// Appends the place of the line in a column.
pub fn push_lies<A: Allocator>(
    svg: &mut Vec<u8, A>,
    column: u32,
    place: Place,
) -> Result<(), AllocError>
    ensures { OnOk result (svg.new.items ≡ svg.old.items ++ spec.lies_text column place) }
{
    push_all(
        svg,
        &[
            Piece::Words(b"<rect class='"),
            Piece::Words(class_of_place(place)),
            Piece::Words(b"' x='"),
            Piece::Number(Scale::Steps.x(column)),
            Piece::Words(b"' y='"),
            Piece::Number(Scale::Steps.y(row_of_place(place)) + 10),
            Piece::Words(b"' width='72' height='5'><title>"),
            Piece::Words(place_name(place)),
            Piece::Maybe(whose(place)),
            Piece::Words(b"</title></rect>\n"),
        ],
    )?;
    Ok(())
}

/// Appends the new home word.
pub fn push_home<A: Allocator>(
    svg: &mut Vec<u8, A>,
    column: u32,
    word: u64,
) -> Result<(), AllocError>
    ensures { OnOk result (svg.new.items ≡ svg.old.items ++ spec.home_text column word) }
{
    push_all(
        svg,
        &[
            Piece::Words(b"<text class='small' x='"),
            Piece::Number(Scale::Steps.x(column)),
            Piece::Words(b"' y='57'><title>the home word is "),
            Piece::Number(word),
            Piece::Words(b"</title>"),
            Piece::Number(word),
            Piece::Words(b"</text>\n"),
        ],
    )?;
    Ok(())
}

/// Appends the new entry of a node.
pub fn push_word<A: Allocator>(
    svg: &mut Vec<u8, A>,
    column: u32,
    node: u64,
    entry: &Entry,
) -> Result<(), AllocError>
    requires { node ≤ MAX_NODES }
    ensures { OnOk result (svg.new.items ≡ svg.old.items ++ spec.word_text column node entry.now) }
{
    push_all(
        svg,
        &[
            Piece::Words(b"<text class='small' x='"),
            Piece::Number(Scale::Steps.x(column)),
            Piece::Words(b"' y='"),
            Piece::Number(Scale::Steps.y(node as u8) - 11),
            Piece::Words(b"'><title>the entry of node "),
            Piece::Number(node),
            Piece::Words(b" is "),
        ],
    )?;
    push_entry(svg, entry)?;
    svg.extend_from_slice(b"</title>")?;
    push_entry(svg, entry)?;
    svg.extend_from_slice(b"</text>\n")?;
    Ok(())
}

/// Appends the sign of an event, and its first word above the column.
pub fn push_act<A: Allocator>(
    alloc: A,
    svg: &mut Vec<u8, A>,
    column: u32,
    event: &Event,
    told: Option<Told>,
) -> Result<(), AllocError>
    requires { node_of event.now ≤ MAX_NODES }
    ensures { OnOk result (svg.new.items ≡ svg.old.items ++ spec.act_text column event.now told) }
{
    push_sign_begin(svg, Scale::Steps, event.node() as u8, column, sign_at(told))?;
    push_told(alloc, svg, column, event, told)?;
    push_sign_end(svg, Scale::Steps, column, step_verb(event))?;
    Ok(())
}
