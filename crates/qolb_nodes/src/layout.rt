//! Constants of lines and their nodes that C code needs in addition to the calls: the maximum number of nodes, the
//! distance between the words on which nodes wait, and the meaning of bits in a word.
//!
//! `tools/snapshot` writes these numbers, with their comments, to `c/proved/qolb_layout.h`. The sizes of the blocks
//! that a call allocates are not in this file, because `tools/snapshot` measures them.
ghost use Rattle.std.specs.Prelude.{◌≡◌};

use line_cells::STRIDE;
use link_line::{ENTRY_STRIDE, GRANTED, LINK_UNIT};
use qolb_model::MAX_NODES;

/// The numbers, each in 64 bits. C reads them as an array.
#[repr(C)]
#[derive(Clone, Copy)]
pub struct Layout {
    /// The most nodes of a line.
    pub max_nodes: u64,
    /// The distance in words of two words on which nodes of a line wait, of any kind.
    pub place_words: u64,
    /// In the entry of a link line's node: the node is granted the line.
    pub entry_granted: u64,
    /// In the same: the unit of the number of the node's successor.
    pub entry_link: u64,
}

/// The numbers, by the crates that own them.
const LAYOUT: Layout = Layout {
    max_nodes: MAX_NODES,
    place_words: STRIDE as u64,
    entry_granted: GRANTED,
    entry_link: LINK_UNIT,
};

const _: () = prove!(STRIDE == ENTRY_STRIDE);

/// Tells C the numbers.
#[unsafe(no_mangle)]
pub extern "C" fn qolb_layout_proved_(out: &mut Layout)
    ensures { out.new ≡ LAYOUT }
{
    *out = LAYOUT;
}
