//! The contents of the words in the table of a ring.
ghost use Rattle.std.specs.Prelude.{◌≡◌, ◌≢◌, ◌+◌, ◌<◌, length, MatchBool, IfOk};
ghost use Rattle.line_cells.specs.declared.layout.TheConstants.{CELLS};
ghost use Rattle.line_cells.specs.Layout as array;
ghost use Rattle.ring_line.specs.Layout as layout;

use line_cells::{CELLS, cell_word};
use std::alloc::{AllocError, Global};

/// The number that a grant adds to a cell.
pub(crate) const GRANTED: u64 = 1;

/// The unit of a withdrawal. A node that withdraws adds this unit times its own number to its cell. The bit of a grant
/// is below it.
pub(crate) const WITHDRAWN_UNIT: u64 = 256;

/// Returns the cell of a ticket.
#[inline]
pub(crate) fn cell_of(ticket: u64) -> u64
    ensures { result ≡ layout.cell_of ticket }
{
    ticket % CELLS
}

/// Returns the next cell after this one.
#[inline]
pub(crate) fn cell_after(cell: u64) -> u64
    requires { cell < CELLS }
    ensures { result ≡ layout.cell_of (cell + 1) }
{
    (cell + 1) % CELLS
}

/// Returns `true` if a cell with this word has been granted. Its node must not have withdrawn.
#[inline]
pub(crate) fn is_granted(word: u64) -> bool
    ensures { MatchBool result (word ≢ 0) (word ≡ 0) }
{
    word != 0
}

/// Returns `true` if the node of a cell with this word had withdrawn before it was granted.
#[inline]
pub(crate) fn is_withdrawn(word: u64) -> bool
    ensures { MatchBool result (word ≢ 0) (word ≡ 0) }
{
    word != 0
}

/// Returns the node that had withdrawn at a cell with this word.
#[inline]
pub(crate) fn withdrawn_by(word: u64) -> u64
    ensures { result ≡ layout.withdrawn_by word }
{
    word / WITHDRAWN_UNIT
}

/// Allocates the words of a new line, in which cell 0 is granted.
pub(crate) fn first_words(alloc: Global, count: usize) -> Result<Vec<u64>, AllocError>
    requires { count ≡ layout.word_count }
    ensures wide { IfOk result (λ words. length words.items ≡ layout.word_count) }
    ensures first { IfOk result (λ words. layout.AreFirst words.items) }
{
    let mut words = vec![in alloc; 0u64; count]?;
    words[cell_word(0)] = 1;
    Ok(words)
}
