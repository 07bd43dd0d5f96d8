//! The contents of the words in the table of a ticket line.
ghost use Rattle.std.specs.Prelude.{◌≡◌, ◌≢◌, ◌<◌, ◌≤◌, length, MatchBool, IfOk};
ghost use Rattle.qolb_model.specs.declared.config.TheConstants.{MAX_NODES};
ghost use Rattle.line_cells.specs.declared.layout.TheConstants.{CELLS};
ghost use Rattle.line_cells.specs.Counting.{mask_for};
ghost use Rattle.ticket_line.specs.Layout as layout;
ghost use Rattle.ticket_line.specs.Slots as slots;

use crate::invariant::SharedTable;
use line_cells::{cell_count, word_count};
use qolb_model::Keep;
use std::alloc::{AllocError, Global};

/// The unit of a cell's number. The node that withdrew there is stored below it.
pub(crate) const NUMBER_UNIT: u64 = 256;

/// The number of ticket numbers, 2^56. A number and the node below it fill a word, so after 2^56 tickets the numbers
/// start again.
pub(crate) const NUMBERS: u64 = 0x100_0000_0000_0000;

/// Returns the number of slots of a line of `nodes` nodes.
pub(crate) fn slot_count(nodes: u64) -> usize
    ensures { result ≡ slots.slot_count nodes }
{
    cell_count(nodes) as usize
}

/// Returns the cell of a ticket in this table, by the mask of its cells.
#[inline]
fn cell_of<K: Keep>(_table: &SharedTable<K>, mask: u64, ticket: u64) -> u64
    requires { mask ≡ mask_for _table.now.key.config.nodes }
    ensures cell { result ≡ layout.cell_of _table.now.key.config.nodes ticket }
    ensures low { result < CELLS }
{
    ticket & mask
}

/// Returns the slot of a ticket's cell.
#[inline]
pub(crate) fn slot_of<K: Keep>(table: &SharedTable<K>, mask: u64, ticket: u64) -> usize
    requires { mask ≡ mask_for table.now.key.config.nodes }
    ensures { result ≡ slots.slot_of table.now.key.config.nodes ticket }
{
    cell_of(table, mask, ticket) as usize
}

/// Returns the slot of a ticket's cell in a line of `nodes` nodes, without a mask.
pub(crate) fn slot_for(nodes: u64, ticket: u64) -> usize
    ensures { result ≡ slots.slot_of nodes ticket }
{
    (ticket % cell_count(nodes)) as usize
}

/// Returns the word of a ticket's cell.
#[inline]
pub(crate) fn cell_word<K: Keep>(table: &SharedTable<K>, mask: u64, ticket: u64) -> usize
    requires { mask ≡ mask_for table.now.key.config.nodes }
    ensures { layout.IsCellWord table.now.key.config.nodes ticket result }
{
    line_cells::cell_word(cell_of(table, mask, ticket))
}

/// Returns the next ticket after this one.
#[inline]
pub(crate) fn ticket_after(ticket: u64) -> u64
    ensures { result ≡ layout.ticket_after ticket }
{
    ticket.wrapping_add(1)
}

/// Returns the word of a cell that is granted to `ticket`: the ticket's number, and no node.
#[inline]
pub(crate) fn granted_word(ticket: u64) -> u64
    ensures { result ≡ layout.granted_word ticket }
{
    NUMBER_UNIT * (ticket_after(ticket) % NUMBERS)
}

/// Returns the word of a cell where `node` has withdrawn `ticket`.
#[inline]
pub(crate) fn withdrawn_word(ticket: u64, node: u64) -> u64
    requires { node ≤ MAX_NODES }
    ensures { result ≡ layout.withdrawn_word ticket node }
{
    granted_word(ticket) + node
}

/// Returns `true` if a cell with this word is granted to `ticket`.
#[inline]
pub(crate) fn is_granted(word: u64, ticket: u64) -> bool
    ensures { MatchBool result (word ≡ layout.granted_word ticket)
        (word ≢ layout.granted_word ticket) }
{
    word == granted_word(ticket)
}

/// Returns `true` if a cell with this lower half is granted to `ticket`, which waits there.
///
/// The half is enough, because before the grant the cell has the number of another ticket, which is fewer places away
/// than there are cells.
#[inline]
pub(crate) fn is_granted_half(low: u32, ticket: u64) -> bool
    ensures { result ≡ layout.signals_turn ticket low }
{
    u64::from(low) == granted_word(ticket) % (1 << 32)
}

/// Returns the node that had withdrawn `ticket` at a cell with this word, or 0.
#[inline]
pub(crate) fn withdrawn_by(word: u64, ticket: u64) -> u64
    ensures { result ≡ layout.withdrawn_by ticket word }
{
    // Only words with the ticket's number are less than a unit above its granted word.
    let node = word.wrapping_sub(granted_word(ticket));
    if node < NUMBER_UNIT { node } else { 0 }
}

/// Allocates the words of a new line, in which cell 0 is granted to ticket 0.
pub(crate) fn first_words(alloc: Global, nodes: u64) -> Result<Vec<u64>, AllocError>
    ensures wide { IfOk result (λ words. (length words.items ≡ layout.word_count nodes)
        × (0 < layout.word_count nodes)) }
    ensures first { IfOk result (λ words. layout.AreFirst nodes words.items) }
{
    let count = word_count(cell_count(nodes));
    let mut words = vec![in alloc; 0u64; count]?;
    words[line_cells::cell_word(0)] = granted_word(0);
    Ok(words)
}
