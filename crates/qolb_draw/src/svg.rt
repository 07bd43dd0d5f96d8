//! Writes shapes as SVG: the shapes that all pictures have in common, and the shapes that occur only in the picture of
//! a schedule.
ghost use Rattle.std.specs.Prelude.{◌≡◌, ◌++◌, ◌≤◌, OnOk, IfOk, flat_map};
ghost use Rattle.qolb_script.specs.declared.schedule.TheConstants.{MAX_COMMANDS};
ghost use Rattle.qolb_words.specs.Words.{piece_text};
ghost use Rattle.qolb_draw.specs.Svg as spec;

use crate::bar::Stand;
use crate::call::{push_answer, push_command, push_shortened, sign};
use crate::event::Event;
use qolb_words::{Piece, push_all, push_field, verb};
use std::alloc::{AllocError, Allocator};

/// The text between the picture's height and its legend.
///
/// It contains the colours for a light page, the colours that differ on a dark page, and the signs of the commands.
pub const STYLE: &[u8] = b"' font-family='monospace' font-size='12'>
<style>
svg{background:#fff}
text{fill:#1f2328}
.small{font-size:9px;text-anchor:middle}
.lane{stroke:#d0d7de}
.waits{fill:#b6d4fe}
.turn{fill:#f2c14e}
.holds{fill:#2da44e}
.withdrawn{fill:none;stroke:#8c959f;stroke-dasharray:3 2;pointer-events:all}
.arrow{fill:none;stroke:#cf222e;stroke-width:2;marker-end:url(#tip)}
#tip path,#told path{fill:#cf222e}
#out path,#misuse path{fill:none;stroke:#cf222e;stroke-width:2}
#misuse circle{fill:#fff;stroke:#cf222e}
#call circle{fill:#1f2328}
.point{fill:#fff;fill-opacity:0;stroke:none}
@media(prefers-color-scheme:dark){
svg{background:#0d1117}
text{fill:#e6edf3}
.lane{stroke:#30363d}
.waits{fill:#1f4a7d}
.turn{fill:#b8860b}
.holds{fill:#3fb950}
.arrow{stroke:#ff7b72}
#tip path,#told path{fill:#ff7b72}
#out path,#misuse path{stroke:#ff7b72}
#misuse circle{fill:#0d1117;stroke:#ff7b72}
#call circle{fill:#e6edf3}
}
</style>
<defs>
<marker id='tip' viewBox='0 0 8 8' refX='8' refY='4' markerWidth='5' markerHeight='5' orient='auto'><path d='M0 0L8 4L0 8z'/></marker>
<g id='call'><rect class='point' x='-8' y='-12' width='16' height='24'/><circle r='3'/></g>
<g id='out'><rect class='point' x='-8' y='-12' width='16' height='24'/><path d='M-5 -5L5 5M-5 5L5 -5'/></g>
<g id='told'><rect class='point' x='-8' y='-12' width='16' height='24'/><path d='M0 -6L6 0L0 6L-6 0z'/></g>
<g id='misuse'><rect class='point' x='-8' y='-12' width='16' height='24'/><circle r='7'/><path d='M0 -5V1M0 3V5'/></g>
</defs>
";

/// The legend of a timeline.
pub const LEGEND: &[u8] =
    b"<rect class='waits' x='8' y='8' width='32' height='16'/><text x='46' y='20'>waits</text>
<rect class='turn' x='112' y='8' width='32' height='16'/><text x='150' y='20'>may take its turn</text>
<rect class='holds' x='304' y='8' width='32' height='16'/><text x='342' y='20'>holds the line</text>
<rect class='withdrawn' x='476' y='8' width='32' height='16'/><text x='514' y='20'>has withdrawn</text>
<path class='arrow' d='M24 32V50'/><text x='46' y='46'>hands over</text>
<use href='#call' x='144' y='42'/><text x='156' y='46'>a call</text>
<use href='#out' x='228' y='42'/><text x='240' y='46'>withdraws</text>
<use href='#told' x='330' y='42'/><text x='342' y='46'>is told: line closed</text>
<use href='#misuse' x='508' y='42'/><text x='520' y='46'>not allowed</text>
";

/// The text after the last line.
pub const TAIL: &[u8] = b"</svg>\n";

/// The number of columns after which the name of a node is repeated.
pub const NAMED_EVERY: usize = 20;

/// The size of a picture's columns and rows.
#[derive(Clone, Copy)]
pub enum Scale {
    /// A schedule: a column is 32 pixels wide, and a row 40 high.
    Schedule,
    /// A step script: a column is 72 pixels wide, and a row 48 high.
    Steps,
}

impl Scale {
    /// Returns the x coordinate of the command or event in this column.
    pub fn x(self, column: u32) -> u64
        ensures place { result ≡ spec.x_at self column }
        ensures low { 96 ≤ result }
    {
        match self {
            Scale::Schedule => 96 + 32 * u64::from(column),
            Scale::Steps => 96 + 72 * u64::from(column),
        }
    }

    /// Returns the y coordinate of a row's middle, relative to the top of its line.
    pub fn y(self, row: u8) -> u64
        ensures place { result ≡ spec.y_at self row }
        ensures low { 68 ≤ result }
        ensures high { result ≤ 12308 }
    {
        match self {
            Scale::Schedule => 68 + 40 * u64::from(row),
            Scale::Steps => 68 + 48 * u64::from(row),
        }
    }

    /// Returns the y coordinate of a row's name.
    ///
    /// The name is beside the row in column 0 and below the bars in later columns.
    fn name_y(self, row: u8, column: u32) -> u64
        ensures { result ≡ spec.name_y_at self row column }
    {
        match self {
            _ if column == 0 => self.y(row) + 4,
            Scale::Schedule => self.y(row) + 19,
            Scale::Steps => self.y(row) + 26,
        }
    }

    /// Returns the width of this number of columns in pixels.
    fn width(self, columns: u32) -> u64
        ensures { result ≡ spec.width_at self columns }
    {
        match self {
            Scale::Schedule => 32 * u64::from(columns),
            Scale::Steps => 72 * u64::from(columns),
        }
    }
}

/// Appends the thin line of a row, through `columns` columns.
pub fn push_lane<A: Allocator>(
    svg: &mut Vec<u8, A>,
    scale: Scale,
    row: u8,
    columns: u32,
) -> Result<(), AllocError>
    ensures { OnOk result (svg.new.items ≡ svg.old.items ++ spec.lane_text scale row columns) }
{
    push_all(
        svg,
        &[
            Piece::Words(b"<path class='lane' d='M96 "),
            Piece::Number(scale.y(row)),
            Piece::Words(b"H"),
            Piece::Number(scale.x(columns)),
            Piece::Words(b"'/>\n"),
        ],
    )?;
    Ok(())
}

/// Appends a bar with this class, from one column to another, with a title that names the node and its state.
pub fn push_span<A: Allocator>(
    svg: &mut Vec<u8, A>,
    scale: Scale,
    row: u8,
    start: u32,
    end: u32,
    class: &[u8],
    node: u64,
    says: &[Piece],
) -> Result<(), AllocError>
    requires { start ≤ end }
    ensures { OnOk result (svg.new.items ≡ svg.old.items
        ++ spec.span_text scale row start end class.now node (flat_map piece_text says.now)) }
{
    push_all(
        svg,
        &[
            Piece::Words(b"<rect class='"),
            Piece::Words(class),
            Piece::Words(b"' x='"),
            Piece::Number(scale.x(start)),
            Piece::Words(b"' y='"),
            Piece::Number(scale.y(row) - 8),
            Piece::Words(b"' width='"),
            Piece::Number(scale.width(end - start)),
            Piece::Words(b"' height='16'><title>node "),
            Piece::Number(node),
        ],
    )?;
    push_all(svg, says)?;
    svg.extend_from_slice(b"</title></rect>\n")?;
    Ok(())
}

/// Appends the bar that shows a node in this state, from one column to another.
pub fn push_bar<A: Allocator>(
    svg: &mut Vec<u8, A>,
    row: u8,
    start: u32,
    end: u32,
    stand: Stand,
    node: u64,
) -> Result<(), AllocError>
    requires { start ≤ end }
    ensures { OnOk result (svg.new.items ≡ svg.old.items
        ++ spec.bar_text row start end stand node) }
{
    let says = [Piece::Words(stand.words())];
    push_span(
        svg,
        Scale::Schedule,
        row,
        start,
        end,
        stand.class(),
        node,
        &says,
    )?;
    Ok(())
}

/// Returns the name of a row.
///
/// The number 0 stands for the row of the home word; for a node, its number follows the name.
fn row_words(node: u64) -> &'static [u8]
    ensures { result.now ≡ spec.row_words node }
{
    if node == 0 { b"home" } else { b"node " }
}

/// Returns the number that follows the name of a row, or `None` for the home word.
fn row_number(node: u64) -> Option<u64>
    ensures { result ≡ spec.row_number node }
{
    if node == 0 { None } else { Some(node) }
}

/// Appends the name of a row at one column.
fn push_name<A: Allocator>(
    svg: &mut Vec<u8, A>,
    scale: Scale,
    row: u8,
    column: u32,
    node: u64,
) -> Result<(), AllocError>
    ensures { OnOk result (svg.new.items ≡ svg.old.items
        ++ spec.name_text scale row column node) }
{
    push_all(
        svg,
        &[
            Piece::Words(b"<text class='name' x='"),
            Piece::Number(scale.x(column) - 88),
            Piece::Words(b"' y='"),
            Piece::Number(scale.name_y(row, column)),
            Piece::Words(b"'>"),
            Piece::Words(row_words(node)),
            Piece::Maybe(row_number(node)),
            Piece::Words(b"</text>\n"),
        ],
    )?;
    Ok(())
}

/// Appends the name of a row, repeated every `NAMED_EVERY` columns.
pub fn push_names<A: Allocator>(
    svg: &mut Vec<u8, A>,
    scale: Scale,
    row: u8,
    columns: usize,
    node: u64,
) -> Result<(), AllocError>
    requires { columns ≤ MAX_COMMANDS }
    ensures { OnOk result (svg.new.items ≡ svg.old.items
        ++ spec.names_text scale row columns node) }
{
    for count in 0..(columns + (NAMED_EVERY - 1)) / NAMED_EVERY {
        push_name(svg, scale, row, (NAMED_EVERY * count) as u32, node)?;
    }
    Ok(())
}

/// Appends the number of a command or an event, above its column.
pub fn push_number<A: Allocator>(
    svg: &mut Vec<u8, A>,
    scale: Scale,
    column: u32,
    number: u64,
) -> Result<(), AllocError>
    ensures { OnOk result (svg.new.items ≡ svg.old.items
        ++ spec.number_text scale column number) }
{
    push_all(
        svg,
        &[
            Piece::Words(b"<text class='small' x='"),
            Piece::Number(scale.x(column)),
            Piece::Words(b"' y='36'>"),
            Piece::Number(number),
            Piece::Words(b"</text>\n"),
        ],
    )?;
    Ok(())
}

/// Appends the arrow of a handoff, from the row of the node whose turn ended to the row of the node whose turn began.
///
/// The arrow's title has the number of the command.
pub fn push_arrow<A: Allocator>(
    svg: &mut Vec<u8, A>,
    column: u32,
    number: u64,
    giver: u8,
    from: u64,
    taker: u8,
    to: u64,
) -> Result<(), AllocError>
    ensures { OnOk result (svg.new.items ≡ svg.old.items
        ++ spec.arrow_text column number giver from taker to) }
{
    let scale = Scale::Schedule;
    push_all(
        svg,
        &[
            Piece::Words(b"<path class='arrow' d='M"),
            Piece::Number(scale.x(column)),
            Piece::Words(b" "),
            Piece::Number(scale.y(giver)),
            Piece::Words(b"V"),
            Piece::Number(scale.y(taker)),
            Piece::Words(b"'><title>"),
            Piece::Number(number),
            Piece::Words(b": node "),
            Piece::Number(from),
            Piece::Words(b" hands over to node "),
            Piece::Number(to),
            Piece::Words(b"</title></path>\n"),
        ],
    )?;
    Ok(())
}

/// Appends the bytes of a line at these places above the row at a column.
///
/// The text consists of the first two bytes, and an ellipsis if there are more.
pub fn push_bytes<A: Allocator>(
    svg: &mut Vec<u8, A>,
    row: u8,
    column: u32,
    bytes: &[u8; 64],
    places: &[u8],
) -> Result<(), AllocError>
    ensures { OnOk result (svg.new.items ≡ svg.old.items
        ++ spec.bytes_text row column bytes.now places.now) }
{
    push_field(svg, b"<text class='small' x='", Scale::Schedule.x(column))?;
    push_field(svg, b"' y='", Scale::Schedule.y(row) - 11)?;
    svg.extend_from_slice(b"'>")?;
    push_shortened(svg, bytes, places)?;
    svg.extend_from_slice(b"</text>\n")?;
    Ok(())
}

/// Appends the first part of a sign in a row and a column: everything before the words of its title.
pub fn push_sign_begin<A: Allocator>(
    svg: &mut Vec<u8, A>,
    scale: Scale,
    row: u8,
    column: u32,
    sign: &[u8],
) -> Result<(), AllocError>
    ensures { OnOk result (svg.new.items ≡ svg.old.items
        ++ spec.sign_begin scale row column sign.now) }
{
    push_all(
        svg,
        &[
            Piece::Words(b"<use href='#"),
            Piece::Words(sign),
            Piece::Words(b"' x='"),
            Piece::Number(scale.x(column)),
            Piece::Words(b"' y='"),
            Piece::Number(scale.y(row)),
            Piece::Words(b"'><title>"),
        ],
    )?;
    Ok(())
}

/// Appends the last part of a sign, and the first word of the sign's command or event.
///
/// The word is above the column and below the number.
pub fn push_sign_end<A: Allocator>(
    svg: &mut Vec<u8, A>,
    scale: Scale,
    column: u32,
    verb: &[u8],
) -> Result<(), AllocError>
    ensures { OnOk result (svg.new.items ≡ svg.old.items ++ spec.sign_end scale column verb.now) }
{
    push_all(
        svg,
        &[
            Piece::Words(b"</title></use>\n<text class='small' x='"),
            Piece::Number(scale.x(column)),
            Piece::Words(b"' y='47'>"),
            Piece::Words(verb),
            Piece::Words(b"</text>\n"),
        ],
    )?;
    Ok(())
}

/// Appends the sign of a command in a row and a column, and the first word of the command above the column.
pub fn push_call<A: Allocator + Copy>(
    alloc: A,
    svg: &mut Vec<u8, A>,
    row: u8,
    column: u32,
    event: &Event,
) -> Result<(), AllocError>
    ensures { OnOk result (svg.new.items ≡ svg.old.items ++ spec.call_text row column event.now) }
{
    push_sign_begin(svg, Scale::Schedule, row, column, sign(&event.change.said))?;
    push_all(svg, &[Piece::Number(event.number), Piece::Words(b": ")])?;
    push_command(alloc, svg, &event.command)?;
    svg.extend_from_slice(b": ")?;
    push_answer(svg, &event.change.said)?;
    push_sign_end(svg, Scale::Schedule, column, verb(&event.command))?;
    Ok(())
}

/// Appends the text before the shapes of a line whose top is at this height.
pub fn push_line_begin<A: Allocator>(
    svg: &mut Vec<u8, A>,
    top: u64,
    line: u64,
) -> Result<(), AllocError>
    ensures { OnOk result (svg.new.items ≡ svg.old.items ++ spec.line_begin top line) }
{
    push_field(svg, b"<g transform='translate(0,", top)?;
    push_field(svg, b")'><text x='8' y='16'>line ", line)?;
    svg.extend_from_slice(b"</text>\n")?;
    Ok(())
}

/// Returns the whole SVG with this size, this legend and these lines.
pub fn svg_of<A: Allocator>(
    alloc: A,
    width: u64,
    height: u64,
    legend: &[u8],
    mut lines: Vec<u8, A>,
) -> Result<Vec<u8, A>, AllocError>
    ensures { IfOk result (λ svg. svg.items ≡ spec.svg_head width height ++ legend.now
        ++ lines.items ++ TAIL.now) }
{
    let mut svg = Vec::new(alloc);
    push_field(
        &mut svg,
        b"<svg xmlns='http://www.w3.org/2000/svg' width='",
        width,
    )?;
    push_field(&mut svg, b"' height='", height)?;
    svg.extend_from_slice(STYLE)?;
    svg.extend_from_slice(legend)?;
    svg.append(&mut lines)?;
    svg.extend_from_slice(TAIL)?;
    Ok(svg)
}
