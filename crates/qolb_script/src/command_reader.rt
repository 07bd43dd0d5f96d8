ghost use Rattle.std.specs.Prelude.{◌≡◌, ◌≤◌, ◌<◌, IfOk, find};
ghost use Rattle.std.specs.Str.{bytes_eq};
ghost use Rattle.qolb_model.specs.Opening.{AreNodes};
ghost use Rattle.qolb_model.specs.Leases.{IsLease};
ghost use Rattle.hex.specs.Hex.{decode_of};
ghost use Rattle.qolb_script.specs.Commands as spec;
ghost use Rattle.qolb_script.specs.Made.{word_of, made};
ghost use Rattle.qolb_script.specs.Reading.{words_left};

use crate::command::Command;
use crate::reason::{Allowed, Form, Reason, ScriptKind, same_word};
use crate::schedule::MAX_LINES;
use crate::text::{ReadItem, Words, number_within};
use hex::decode_to_slice;
use line_lanes::{Line64, Mask, placed};
use qolb_model::MAX_NODES;

/// The largest number of bytes that a command may write, which is a whole line.
const MAX_BYTES: usize = 64;

/// The place of the last byte in a line.
pub const LAST_PLACE: u64 = 63;

/// The first word of a command that writes.
pub const WRITE: &[u8] = b"write";

/// The word in a header that precedes the number of nodes.
pub const NODES: &[u8] = b"nodes";

/// The word in a header that precedes the number of lines.
pub const LINES: &[u8] = b"lines";

/// The word in a header that precedes the lease.
pub const LEASE: &[u8] = b"lease";

/// The kinds of commands that consist of one word, a node and a line. The word tells the kind.
#[derive(Clone, Copy)]
pub enum Verb {
    Enq,
    Poll,
    Show,
    Deq,
    Out,
    Shut,
}

/// All kinds of commands that consist of one word, a node and a line.
const VERBS: [Verb; 6] = [
    Verb::Enq,
    Verb::Poll,
    Verb::Show,
    Verb::Deq,
    Verb::Out,
    Verb::Shut,
];

impl Verb {
    /// Returns the kind that this first word names, or `None` if it names none.
    pub fn named(word: &[u8]) -> Option<Verb>
        ensures { result ≡ find (λ verb. bytes_eq word.now (word_of verb)) VERBS }
    {
        VERBS.iter().find(|verb| word == verb.word()).copied()
    }

    /// Returns the first word of the commands of this kind.
    fn word(self) -> &'static [u8]
        ensures { result.now ≡ word_of self }
    {
        match self {
            Verb::Enq => b"enq",
            Verb::Poll => b"poll",
            Verb::Show => b"show",
            Verb::Deq => b"deq",
            Verb::Out => b"out",
            Verb::Shut => b"shut",
        }
    }

    /// Returns the command of this kind for a node and a line.
    pub fn command(self, node: u64, line: u64) -> Command
        ensures { result ≡ made self node line }
    {
        match self {
            Verb::Enq => Command::Enq { node, line },
            Verb::Poll => Command::Poll { node, line },
            Verb::Show => Command::Show { node, line },
            Verb::Deq => Command::Deq { node, line },
            Verb::Out => Command::Out { node, line },
            Verb::Shut => Command::Shut { node, line },
        }
    }
}

/// The numbers in the header of a schedule.
#[derive(Clone, Copy)]
pub struct Header {
    pub nodes: u64,
    pub lines: u64,
    pub lease: Option<u64>,
}

/// A reader of the commands below a header with these numbers.
#[derive(Drop)]
pub struct CommandReader {
    pub nodes: u64,
    pub lines: u64,
    ghost some_line: { 1 ≤ lines },
}

impl ReadItem for CommandReader {
    type Item = Command;

    ghost item_of = { λ r. spec.command_of r.nodes r.lines };

    ghost in_range = { λ r c. (1 ≤ spec.node_of c) × (spec.node_of c ≤ r.nodes)
        × (spec.line_of c < r.lines) };

    fn read_item(&self, line: &[u8]) -> Result<Command, Reason> {
        read_command(self.nodes, self.lines, line)
    }
}

/// Reads the header line of a schedule: the numbers of nodes and lines, and the lease if the line has one.
pub fn read_header(line: &[u8]) -> Result<Header, Reason>
    ensures header { result ≡ spec.read_line spec.header_of line.now }
    ensures nodes { IfOk result (λ header. AreNodes header.nodes) }
    ensures lines { IfOk result (λ header. (1 ≤ header.lines) × (header.lines ≤ MAX_LINES)) }
    ensures lease { IfOk result (λ header. IsLease header.lease) }
{
    let mut words = Words::of_line(line)?;
    match words.next() {
        Some(first) if first == NODES => read_rest_of_header(words),
        Some(_) => Err(Reason::Begin(ScriptKind::Schedule)),
        None => Err(Reason::Count(Form::Header(ScriptKind::Schedule))),
    }
}

/// Reads the words of a header that follow the first word.
fn read_rest_of_header(mut words: Words) -> Result<Header, Reason>
    ensures header { result ≡ spec.rest_of_header (words_left words.entry) }
    ensures nodes { IfOk result (λ header. AreNodes header.nodes) }
    ensures lines { IfOk result (λ header. (1 ≤ header.lines) × (header.lines ≤ MAX_LINES)) }
    ensures lease { IfOk result (λ header. IsLease header.lease) }
{
    let (Some(nodes), Some(third), Some(lines)) = (words.next(), words.next(), words.next()) else {
        return Err(Reason::Count(Form::Header(ScriptKind::Schedule)));
    };
    match (words.next(), words.next(), words.next()) {
        (None, _, _) => read_sizes(nodes, third, lines),
        (Some(fifth), Some(lease), None) => read_leased(nodes, third, lines, fifth, lease),
        _ => Err(Reason::Count(Form::Header(ScriptKind::Schedule))),
    }
}

/// Reads a header without a lease.
fn read_sizes(nodes: &[u8], third: &[u8], lines: &[u8]) -> Result<Header, Reason>
    ensures header { result ≡ spec.sizes_header nodes.now third.now lines.now }
    ensures nodes { IfOk result (λ header. AreNodes header.nodes) }
    ensures lines { IfOk result (λ header. (1 ≤ header.lines) × (header.lines ≤ MAX_LINES)) }
    ensures lease { IfOk result (λ header. IsLease header.lease) }
{
    same_word(3, Allowed::Lines, LINES, third)?;
    Ok(Header {
        nodes: node_within(2, MAX_NODES, nodes)?,
        lines: number_within(4, 1, MAX_LINES, lines)?,
        lease: None,
    })
}

/// Reads a header with a lease.
fn read_leased(
    nodes: &[u8],
    third: &[u8],
    lines: &[u8],
    fifth: &[u8],
    lease: &[u8],
) -> Result<Header, Reason>
    ensures header { result ≡ spec.leased_header nodes.now third.now lines.now
        fifth.now lease.now }
    ensures nodes { IfOk result (λ header. AreNodes header.nodes) }
    ensures lines { IfOk result (λ header. (1 ≤ header.lines) × (header.lines ≤ MAX_LINES)) }
    ensures lease { IfOk result (λ header. IsLease header.lease) }
{
    same_word(3, Allowed::Lines, LINES, third)?;
    same_word(5, Allowed::Lease, LEASE, fifth)?;
    Ok(Header {
        nodes: node_within(2, MAX_NODES, nodes)?,
        lines: number_within(4, 1, MAX_LINES, lines)?,
        lease: Some(lease_within(6, lease)?),
    })
}

/// Reads a lease of at least one acquisition from the word at this place.
pub fn lease_within(place: u64, word: &[u8]) -> Result<u64, Reason>
    ensures lease { result ≡ spec.lease_within place word.now }
    ensures range { IfOk result (λ turns. 1 ≤ turns) }
{
    number_within(place, 1, u64::MAX, word)
}

/// Reads the command on a line of a schedule with these numbers of nodes and lines.
fn read_command(nodes: u64, lines: u64, text: &[u8]) -> Result<Command, Reason>
    requires { 1 ≤ lines }
    ensures command { result ≡ spec.read_line (spec.command_of nodes lines) text.now }
    ensures range { IfOk result (λ c. (1 ≤ spec.node_of c) × (spec.node_of c ≤ nodes)
        × (spec.line_of c < lines)) }
{
    let mut words = Words::of_line(text)?;
    let Some(first) = words.next() else {
        return Err(Reason::Count(Form::Call));
    };
    if first == WRITE {
        return read_write(nodes, lines, words);
    }
    match Verb::named(first) {
        Some(verb) => read_call(nodes, lines, verb, words),
        None => Err(Reason::Word {
            place: 1,
            allowed: Allowed::Commands,
        }),
    }
}

/// Reads a node from 1 to `nodes` from the word at this place.
pub fn node_within(place: u64, nodes: u64, word: &[u8]) -> Result<u64, Reason>
    ensures node { result ≡ spec.node_within place nodes word.now }
    ensures range { IfOk result (λ n. (1 ≤ n) × (n ≤ nodes)) }
{
    number_within(place, 1, nodes, word)
}

/// Reads a line number from 0 to `lines` - 1 from the third word.
fn line_within(lines: u64, word: &[u8]) -> Result<u64, Reason>
    requires { 1 ≤ lines }
    ensures line { result ≡ spec.line_within lines word.now }
    ensures range { IfOk result (λ l. l < lines) }
{
    number_within(3, 0, lines - 1, word)
}

/// Reads the words of a call that follow the first word.
fn read_call(nodes: u64, lines: u64, verb: Verb, mut words: Words) -> Result<Command, Reason>
    requires { 1 ≤ lines }
    ensures command { result ≡ spec.call_at nodes lines (made verb) (words_left words.entry) }
    ensures range { IfOk result (λ c. (1 ≤ spec.node_of c) × (spec.node_of c ≤ nodes)
        × (spec.line_of c < lines)) }
{
    match (words.next(), words.next(), words.next()) {
        (Some(node), Some(line), None) => {
            let node = node_within(2, nodes, node)?;
            let line = line_within(lines, line)?;
            Ok(verb.command(node, line))
        }
        _ => Err(Reason::Count(Form::Call)),
    }
}

/// Reads the words of a write that follow the first word.
///
/// These are the node, the line, the place of the first byte, and the bytes in hex.
fn read_write(nodes: u64, lines: u64, mut words: Words) -> Result<Command, Reason>
    requires { 1 ≤ lines }
    ensures command { result ≡ spec.write_of nodes lines (words_left words.entry) }
    ensures range { IfOk result (λ c. (1 ≤ spec.node_of c) × (spec.node_of c ≤ nodes)
        × (spec.line_of c < lines)) }
{
    let (Some(node), Some(line)) = (words.next(), words.next()) else {
        return Err(Reason::Count(Form::Write));
    };
    match (words.next(), words.next(), words.next()) {
        (Some(off), Some(hex), None) => {
            let node = node_within(2, nodes, node)?;
            let line = line_within(lines, line)?;
            let (mask, bytes) = read_placed(4, off, hex)?;
            Ok(Command::Write {
                node,
                line,
                mask,
                bytes,
            })
        }
        _ => Err(Reason::Count(Form::Write)),
    }
}

/// Reads the mask and the bytes of a write from two words.
///
/// Word `place` of the script's line is the place of the first byte. The next word is the bytes in hex.
pub fn read_placed(place: u64, off: &[u8], hex: &[u8]) -> Result<(Mask, Line64), Reason>
    requires { place < 10 }
    ensures { result ≡ spec.placed_of place off.now hex.now }
{
    let off = number_within(place, 0, LAST_PLACE, off)?;
    placed_at(place + 1, off as usize, hex)
}

/// Reads the mask and the bytes of a write that begins at byte `off` of a lock line.
///
/// The bytes are word `place` of the script's line. They must be hex and fit into the lock line.
fn placed_at(place: u64, off: usize, hex: &[u8]) -> Result<(Mask, Line64), Reason>
    requires { off < 64 }
    ensures { result ≡ spec.placed_at place off hex.now (decode_of hex.now) }
{
    let len = hex.len() / 2;
    if len > MAX_BYTES {
        return Err(Reason::Fit(place));
    }
    let mut buffer = [0; MAX_BYTES];
    let bytes = &mut buffer[..len];
    if decode_to_slice(hex, bytes).is_err() {
        return Err(Reason::Hex(place));
    }
    let Some((mask, bytes)) = placed(off, bytes) else {
        return Err(Reason::Fit(place));
    };
    Ok((mask, bytes))
}
