//! The words of a link line's table, and what these words contain. Any two words are at least 64 bytes apart, so no two
//! of them share a cache line of 64 bytes.
ghost use Rattle.std.specs.Prelude.{◌≡◌, ◌≢◌, ℕ, ◌+◌, ◌<◌, ◌≤◌};
ghost use Rattle.qolb_model.specs.declared.config.TheConstants.{MAX_NODES};
ghost use Rattle.line_generic.specs.declared.elsewhere.TheConstants.{NO_WORD};
ghost use Rattle.link_line.specs.Layout as layout;

/// The distance in words between the entries of two nodes.
pub const ENTRY_STRIDE: usize = 16;

/// The flag that a grant adds to an entry.
pub const GRANTED: u64 = 1;

/// The flag that a withdrawal adds to its own entry.
pub(crate) const ROLLED: u64 = 2;

/// The flag that a release adds to the entry that it has reached, if the home word names another node.
pub(crate) const DONE: u64 = 4;

/// The flag that a release adds to the entry of a passed node.
pub(crate) const FREED: u64 = 8;

/// The unit of an entry's link: a node links by adding this unit times its own number. The flags are below it.
pub const LINK_UNIT: u64 = 256;

/// The home word. The entries are behind it.
pub(crate) const HOME: usize = 0;

/// Returns the number of words of a line of `nodes` nodes.
pub fn word_count(nodes: u64) -> usize
    requires { nodes ≤ MAX_NODES }
    ensures { result ≡ layout.word_count nodes }
{
    ENTRY_STRIDE * (nodes as usize + 1)
}

/// Returns the entry word of a node.
#[inline]
pub(crate) fn entry_word(node: u64) -> usize
    requires { node ≤ MAX_NODES }
    ensures { result ≡ layout.entry_at node }
{
    ENTRY_STRIDE * node as usize
}

/// Returns the entry word of a linked node. For the number 0 it returns the home word, on which no node waits.
#[inline]
pub(crate) fn entry_or_home(node: u64) -> usize {
    ENTRY_STRIDE.wrapping_mul(node as usize)
}

/// Returns `true` if the request of the entry has been granted.
#[inline]
pub(crate) fn is_granted(word: u64) -> bool
    ensures { result ≡ layout.is_granted word }
{
    word % 2 == 1
}

/// Returns `true` if the request of the entry has been withdrawn.
#[inline]
pub(crate) fn is_rolled(word: u64) -> bool
    ensures { result ≡ layout.is_rolled word }
{
    word / 2 % 2 == 1
}

/// Returns `true` if a release has reached the entry while the home word named another node.
#[inline]
pub(crate) fn is_done(word: u64) -> bool
    ensures { result ≡ layout.is_done word }
{
    word / 4 % 2 == 1
}

/// Returns `true` if the entry's node, whose request was withdrawn and passed, is freed.
#[inline]
pub(crate) fn is_freed(word: u64) -> bool
    ensures { result ≡ layout.is_freed word }
{
    word / 8 % 2 == 1
}

/// Returns the node that is linked to the entry, or 0.
#[inline]
pub(crate) fn link_of(word: u64) -> u64
    ensures { result ≡ layout.link_of word }
{
    word / LINK_UNIT
}

/// Any two words of a list are at least 8 words apart, where the home word counts as the entry of a node 0. This
/// theorem is the contract of a function that does nothing.
pub fn words_are_apart()
    ensures home { layout.home_at ≡ layout.entry_at 0 }
    ensures entries { (m n : ℕ) → m < n → n ≤ MAX_NODES
        → layout.entry_at m + 8 ≤ layout.entry_at n }
{}

/// `NO_WORD` is not a word of any list. This, too, is a theorem.
pub fn no_word_is_none()
    ensures { layout.word_count MAX_NODES ≤ NO_WORD }
{}
