//! The layout of an array lock's table, which has a ticket counter, a word for each node, and the cells. Any two words
//! are at least 64 bytes apart, so no two of them share a cache line of 64 bytes.
ghost use Rattle.std.specs.Prelude.{◌≡◌, ◌≢◌, ℕ, ◌+◌, ◌<◌, ◌≤◌, MatchBool};
ghost use Rattle.qolb_model.specs.declared.config.TheConstants.{MAX_NODES};
ghost use Rattle.line_cells.specs.declared.layout.TheConstants.{CELLS};
ghost use Rattle.line_generic.specs.declared.elsewhere.TheConstants.{NO_WORD};
ghost use Rattle.line_cells.specs.Counting as counting;
ghost use Rattle.line_cells.specs.Layout as layout;

/// The maximum number of cells. It is more than `MAX_NODES`, so no two open requests share a cell. It divides 2^64, so
/// tickets may wrap around.
pub const CELLS: u64 = 256;

/// The distance in words between two nodes' words, and between two cells.
pub const STRIDE: usize = 16;

/// The distance in words from the ticket counter to the first cell. The cells lie between the words of the nodes, which
/// are seldom used.
pub(crate) const BEHIND: usize = 8;

/// The word of the ticket counter.
pub const TICKET_WORD: usize = 0;

/// The number of all words of a table with the maximum number of cells.
pub const WORDS: usize = STRIDE * CELLS as usize;

/// Returns the number of words of a table with `cells` cells. There are more cells than nodes.
pub fn word_count(cells: u64) -> usize
    requires { cells ≤ CELLS }
    ensures { result ≡ layout.word_count cells }
{
    STRIDE * cells as usize
}

/// Returns the number of cells of a line of `nodes` nodes, which is the least power of two above that number, so that a
/// mask finds a ticket's cell.
pub fn cell_count(nodes: u64) -> u64
    ensures cells { result ≡ counting.cells_for nodes }
    ensures within { (2 ≤ result) × (result ≤ CELLS) }
{
    least_power(nodes)
}

/// Returns the least power of two above `nodes`, which is 2 to 256.
fn least_power(nodes: u64) -> u64
    ensures power { result ≡ counting.least_power nodes }
    ensures within { (2 ≤ result) × (result ≤ CELLS) }
{
    if nodes < 2 {
        2
    } else if nodes < 4 {
        4
    } else if nodes < 8 {
        8
    } else if nodes < 16 {
        16
    } else if nodes < 32 {
        32
    } else if nodes < 64 {
        64
    } else if nodes < 128 {
        128
    } else {
        256
    }
}

/// Returns the word of a cell.
#[inline]
pub fn cell_word(cell: u64) -> usize
    requires { cell < CELLS }
    ensures { result ≡ layout.cell_at cell }
{
    BEHIND + STRIDE * cell as usize
}

/// Returns the word of a node.
#[inline]
pub fn node_word(node: u64) -> usize
    requires { node ≤ MAX_NODES }
    ensures { result ≡ layout.node_at node }
{
    STRIDE * node as usize
}

/// Returns `true` if a node's word says that its withdrawn request was passed.
#[inline]
pub fn is_freed(word: u64) -> bool
    ensures { MatchBool result (word ≢ 0) (word ≡ 0) }
{
    word != 0
}

/// Any two words of a table are at least 8 words apart, where the ticket counter counts as the word of a node 0. This
/// theorem is the contract of a function that does nothing.
pub fn words_are_apart()
    ensures ticket { layout.ticket_at ≡ layout.node_at 0 }
    ensures nodes { (m n : ℕ) → m < n → n ≤ MAX_NODES
        → layout.node_at m + 8 ≤ layout.node_at n }
    ensures cells { (c d : ℕ) → c < d → d < CELLS → layout.cell_at c + 8 ≤ layout.cell_at d }
    ensures node_first { (n c : ℕ) → n ≤ c → c < CELLS → layout.node_at n + 8 ≤ layout.cell_at c }
    ensures cell_first { (c n : ℕ) → c < n → n ≤ MAX_NODES
        → layout.cell_at c + 8 ≤ layout.node_at n }
{}

/// `NO_WORD` is not a word of any table. This, too, is a theorem.
pub fn no_word_is_none()
    ensures { WORDS ≤ NO_WORD }
{}
