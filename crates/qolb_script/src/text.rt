//! Splits the text of a script into lines and words, parses numbers, and reads the items (commands, events or jobs)
//! below the header.
ghost use Rattle.std.specs.Prelude.{◌≡◌, ◌==◌, ◌+◌, ◌<◌, ◌≤◌, ◌^◌, ◌∷◌, [], length, not, IfOk, IfSome, MatchOption};
ghost use Rattle.std.specs.List.{slice_split};
ghost use Rattle.std.specs.Option.{ForSome};
ghost use Rattle.qolb_script.specs.Text as spec;
ghost use Rattle.qolb_script.specs.Text.{words_of, is_plain};

use crate::reason::{Reason, Refusal};
use crate::schedule::MAX_COMMANDS;
use std::alloc::Allocator;
use std::str;

/// The largest number of digits that a number may have.
const MAX_DIGITS: usize = 20;

/// Returns the bytes before the first separator, and the bytes after it if there is a separator.
pub fn split_once(bytes: &[u8], separator: u8) -> (&[u8], Option<&[u8]>)
    ensures parts { MatchOption result.1 (slice_split (λ b. b == separator) bytes.now
        ≡ result.0.now ∷ []) (λ rest.
        slice_split (λ b. b == separator) bytes.now
        ≡ result.0.now ∷ slice_split (λ b. b == separator) rest.now) }
    ensures shorter { IfSome result.1 (λ rest. length rest.now < length bytes.now) }
{
    match bytes.iter().position(|&b| b == separator) {
        Some(end) => (&bytes[..end], Some(&bytes[end + 1..])),
        None => (bytes, None),
    }
}

/// Returns `true` if the line has no word.
pub fn is_blank(line: &[u8]) -> bool
    ensures { result ≡ (length (words_of line.now) == 0) }
{
    line.iter().all(|&b| b == b' ')
}

/// Returns `true` if every byte is a space or a visible ASCII character.
pub fn is_plain_line(line: &[u8]) -> bool
    ensures { result ≡ is_plain line.now }
{
    line.iter().all(|&b| b' ' <= b && b <= b'~')
}

/// The remaining lines of a text that have at least one word, with their line numbers.
#[derive(Drop)]
pub struct NumberedLines<'a> {
    rest: Option<&'a [u8]>,
    number: u64,
    // This invariant shows that every line number fits into 64 bits.
    ghost fits: { ForSome rest (λ r. number + length r.now + 1 < 2 ^ 64) },
}

impl<'a> NumberedLines<'a> {
    ghost use Rattle.std.specs.Prelude.{◌≡◌, ◌≢◌, ◌≤◌, All, IfErr, IfOk, IsOk, length, take};
    ghost use Rattle.qolb_script.specs.Script.{items_of};
    ghost use Rattle.qolb_script.specs.Text.{numbered_lines, worded};
    ghost use Rattle.qolb_script.specs.Reading.{lines_left};

    /// Returns the lines of a text that have at least one word.
    pub fn new(text: &'a [u8]) -> NumberedLines<'a>
        ensures { lines_left result ≡ worded (numbered_lines text.now) }
    {
        NumberedLines {
            rest: Some(text),
            number: 1,
        }
    }

    /// Reads the items on these lines.
    ///
    /// Allocates a vector for the items. Returns `Memory` only if the first of the lines is an item. Otherwise the
    /// error is that of the first refused line.
    pub(crate) fn read_items<R: ReadItem, A: Allocator>(
        self,
        alloc: A,
        reader: &R,
    ) -> Result<Vec<R::Item, A>, Refusal>
        ensures ok { IfOk result (λ items. items_of (R.item_of reader.now) 0 (lines_left self.entry)
            ≡ Ok items.items) }
        ensures refused { IfErr result (λ why. why ≢ Refusal.Memory
            → items_of (R.item_of reader.now) 0 (lines_left self.entry) ≡ Err why) }
        ensures memory { IfErr result (λ why. why ≡ Refusal.Memory
            → IsOk (items_of (R.item_of reader.now) 0 (take 1 (lines_left self.entry)))) }
        ensures range { IfOk result (λ items. All (R.in_range reader.now) items.items) }
        ensures most { IfOk result (λ items. length items.items ≤ MAX_COMMANDS) }
    {
        let mut items = Vec::new(alloc);
        for (number, line) in self {
            if items.len() as u64 >= MAX_COMMANDS {
                return Err(Refusal::Line(number, Reason::TooMany));
            }
            let item = match reader.read_item(line) {
                Ok(item) => item,
                Err(why) => return Err(Refusal::Line(number, why)),
            };
            let Ok(()) = items.push(item) else {
                return Err(Refusal::Memory);
            };
        }
        Ok(items)
    }
}

impl<'a> Iterator for NumberedLines<'a> {
    ghost use Rattle.std.specs.Iterator.{YieldsFirstBy, item_count};
    ghost use Rattle.qolb_script.specs.Reading.{lines_left};

    type Item = (u64, &'a [u8]);

    ghost next_gives = { YieldsFirstBy (λ line. (line.0, line.1.now)) lines_left };

    ghost remaining = { item_count lines_left };

    fn next(&mut self) -> Option<(u64, &'a [u8])> {
        while let Some(text) = self.rest {
            let number = self.number;
            let (line, rest) = split_once(text, b'\n');
            self.rest = rest;
            self.number += 1;
            if !is_blank(line) {
                return Some((number, line));
            }
        }
        None
    }
}

/// The remaining words of a line.
#[derive(Drop)]
pub struct Words<'a> {
    rest: &'a [u8],
}

impl<'a> Words<'a> {
    ghost use Rattle.std.specs.Prelude.{◌≡◌, true, false, MatchResult};
    ghost use Rattle.qolb_script.specs.Text.{words_of, is_plain};
    ghost use Rattle.qolb_script.specs.Reading.{words_left};

    /// Returns the words of a line.
    pub fn new(line: &'a [u8]) -> Words<'a>
        ensures { words_left result ≡ words_of line.now }
    {
        Words { rest: line }
    }

    /// Returns the words of a line if every byte of the line is allowed in a script.
    pub fn of_line(line: &'a [u8]) -> Result<Words<'a>, Reason>
        ensures { MatchResult result
            (λ words. (is_plain line.now ≡ true) × (words_left words ≡ words_of line.now))
            (λ why. (why ≡ Reason.Byte) × (is_plain line.now ≡ false)) }
    {
        if is_plain_line(line) {
            Ok(Words::new(line))
        } else {
            Err(Reason::Byte)
        }
    }
}

impl<'a> Iterator for Words<'a> {
    ghost use Rattle.std.specs.Iterator.{YieldsFirstRef, item_count};
    ghost use Rattle.qolb_script.specs.Reading.{words_left};

    type Item = &'a [u8];

    ghost next_gives = { YieldsFirstRef words_left };

    ghost remaining = { item_count words_left };

    fn next(&mut self) -> Option<&'a [u8]> {
        let start = self.rest.iter().position(|&b| b != b' ')?;
        let (word, rest) = split_once(&self.rest[start..], b' ');
        self.rest = rest.unwrap_or(&[]);
        Some(word)
    }
}

/// Returns the value of a word of 1 to 20 decimal digits.
///
/// Returns `None` for any other word, and if the value is 2^64 or more.
fn number(word: &[u8]) -> Option<u64>
    ensures { result ≡ spec.number_of word.now }
{
    if word.len() > MAX_DIGITS || !word.iter().all(|b| b.is_ascii_digit()) {
        return None;
    }
    str::from_utf8(word).ok()?.parse().ok()
}

/// Returns the number that a word denotes, if this number is from `low` to `high`.
///
/// `place` is the place of the word in its line, which the error contains.
pub fn number_within(place: u64, low: u64, high: u64, word: &[u8]) -> Result<u64, Reason>
    ensures number { result ≡ spec.number_within place low high word.now }
    ensures range { IfOk result (λ n. (low ≤ n) × (n ≤ high)) }
{
    match number(word) {
        Some(n) if low <= n && n <= high => Ok(n),
        _ => Err(Reason::Number { place, low, high }),
    }
}

/// A reader of the lines below a header, each of which must be an item.
pub trait ReadItem {
    ghost use Rattle.std.specs.Prelude.{◌≡◌, ℕ, List, Result, IfOk};
    ghost use Rattle.qolb_script.specs.declared.reason.Reason.{Reason};
    ghost use Rattle.qolb_script.specs.Commands.{read_line};

    type Item: Drop;

    /// The item that a line with these words denotes, or the reason why the line is refused.
    ghost item_of: { Self → List (List ℕ) → Result Self.Item Reason };

    /// The numbers in the item lie in the ranges that the header determines.
    ghost in_range: { Self → Self.Item → Type 0 };

    /// Reads the item on a line, or returns the reason why the line is refused.
    fn read_item(&self, line: &[u8]) -> Result<Self::Item, Reason>
        ensures item { result ≡ read_line (item_of self.now) line.now }
        ensures range { IfOk result (λ item. in_range self.now item) };
}
