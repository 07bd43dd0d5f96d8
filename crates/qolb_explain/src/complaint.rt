//! Writes the complaint (a detailed error message) about a refused script: the refused line, and what would have been
//! allowed there.
ghost use Rattle.std.specs.Prelude.{◌≡◌, ℕ, MatchOption};
ghost use Rattle.qolb_script.specs.Text.{numbered_lines, worded};
ghost use Rattle.qolb_explain.specs.Complaints.{IsAbout, line_at};

use crate::near::near;
use qolb_script::{Allowed, Form, NumberedLines, Reason, Refusal, ScriptKind, Words};
use std::fmt;

/// The largest number of bytes of a line that a complaint shows.
const MAX_SHOWN: usize = 200;

/// The largest number of digits that a number may have.
const MAX_DIGITS: usize = 20;

/// A refused line, and the reason why it was refused.
#[derive(Clone, Copy, Debug)]
pub struct Complaint<'a> {
    pub line: &'a [u8],
    pub reason: Reason,
}

/// Returns the complaint about a script that its reader refused, or `None` if an allocation failed.
pub fn complaint_about<'a>(script: &'a [u8], why: Refusal) -> Option<Complaint<'a>>
    ensures { MatchOption result
        (why ≡ Refusal.Memory) (λ it. IsAbout script.now it.line.now it.reason why) }
{
    match why {
        Refusal::Memory => None,
        Refusal::Line(number, reason) => Some(Complaint {
            line: numbered(script, number),
            reason,
        }),
    }
}

/// Returns the line with this number if it has a word, and otherwise an empty slice.
fn numbered<'a>(script: &'a [u8], wanted: u64) -> &'a [u8]
    ensures { result.now ≡ line_at wanted (worded (numbered_lines script.now)) }
{
    for (number, line) in NumberedLines::new(script) {
        if number == wanted {
            return line;
        }
    }
    &[]
}

impl<'a> fmt::Display for Complaint<'a> {
    fn fmt<W: fmt::Write>(&self, f: &mut fmt::Formatter<W>) -> fmt::Result {
        if !self.line.is_empty() {
            write_line(f, self.line)?;
        }
        match self.reason {
            Reason::Empty(kind) => {
                let form = header(kind);
                write!(f, "no line has a word, and a script begins with `{form}`")
            }
            Reason::Begin(kind) => {
                let form = header(kind);
                write!(f, "a script begins with `{form}`")
            }
            Reason::Other { found, asked } => write_other(f, found, asked),
            Reason::Byte => write_byte(f, self.line),
            Reason::Word { place, allowed } => write_word(f, self.line, place, allowed),
            Reason::Count(form) => write_form(f, self.line, form),
            Reason::NoWorker(workers) => write_range(f, self.line, 1, 1, workers),
            Reason::Number { place, low, high } => write_range(f, self.line, place, low, high),
            Reason::Hex(place) => write!(f, "word {place} is not hex, of two digits a byte"),
            Reason::Fit(place) => {
                write!(f, "the bytes of word {place} do not fit: a line has 64")
            }
            Reason::TooMany => f.write_str("more than 100,000 commands, events or jobs"),
        }
    }
}

/// Returns the form of a header.
fn header(kind: ScriptKind) -> &'static str {
    match kind {
        ScriptKind::Schedule => "nodes N lines L",
        ScriptKind::Steps => "nodes N",
        ScriptKind::Board => "board workers W",
        ScriptKind::Bank => "bank workers W lines L",
    }
}

/// Returns the name of a kind of script.
fn name(kind: ScriptKind) -> &'static str {
    match kind {
        ScriptKind::Schedule => "a schedule",
        ScriptKind::Steps => "a step script",
        ScriptKind::Board => "a board script",
        ScriptKind::Bank => "a bank script",
    }
}

/// Returns the subcommands that read a script of this kind.
fn subcommands(kind: ScriptKind) -> &'static str {
    match kind {
        ScriptKind::Schedule => "`qolb replay` and `qolb draw`",
        ScriptKind::Steps => "`qolb steps` and `qolb draw --steps`",
        ScriptKind::Board => "`qolb board`",
        ScriptKind::Bank => "`qolb bank`",
    }
}

/// Writes the kind of script that a line begins, and how a script of the requested kind begins.
fn write_other<W: fmt::Write>(
    f: &mut fmt::Formatter<W>,
    found: ScriptKind,
    asked: ScriptKind,
) -> fmt::Result {
    let (other, uses) = (name(found), subcommands(found));
    write!(f, "this begins {other}, for {uses}; ")?;
    let (script, form) = (name(asked), header(asked));
    write!(f, "{script} begins with `{form}`")
}

/// Writes the first byte of a line that is not allowed in a script, and what to write instead if that is known.
fn write_byte<W: fmt::Write>(f: &mut fmt::Formatter<W>, line: &[u8]) -> fmt::Result {
    let mut place = 0u64;
    for byte in line.iter().copied() {
        place = place.saturating_add(1);
        if !is_shown(byte) {
            let hint = hint_of(line, byte);
            return write!(
                f,
                "byte {place}, \\x{byte:02x}, is neither a space nor a visible ASCII character{hint}"
            );
        }
    }
    Ok(())
}

/// Returns `true` if a byte is a space or a visible ASCII character.
fn is_shown(byte: u8) -> bool {
    b' ' <= byte && byte <= b'~'
}

/// Returns what to write instead of this byte, which is not allowed in a script.
///
/// It is the first such byte of its line. The text is empty if no replacement is known.
fn hint_of(line: &[u8], byte: u8) -> &'static str {
    match byte {
        b'\t' => "; spaces separate words",
        b'\r' => "; a line ends with \\x0a alone",
        0xef if line.starts_with(b"\xef\xbb\xbf") => "; a script has no byte order mark",
        _ => "",
    }
}

/// Writes that a word is not a number in a range.
///
/// If the word has too many digits, also writes how long a number may be. If the word is the first one of its line,
/// also writes what a job begins with, because only a job has a number as its first word.
fn write_range<W: fmt::Write>(
    f: &mut fmt::Formatter<W>,
    line: &[u8],
    place: u64,
    low: u64,
    high: u64,
) -> fmt::Result {
    if low == high {
        write!(f, "word {place} is not {low}")?;
    } else {
        write!(f, "word {place} is no number from {low} to {high}")?;
    }
    if has_many_digits(word_at(line, place)) {
        write!(f, "; a number has at most {MAX_DIGITS} digits")?;
    }
    if place == 1 {
        f.write_str("; a job begins with the number of its worker")?;
    }
    Ok(())
}

/// Returns `true` if a word consists of digits alone, and has more digits than a number may have.
fn has_many_digits(word: &[u8]) -> bool {
    word.len() > MAX_DIGITS && word.iter().all(|&b| matches!(b, b'0'..=b'9'))
}

/// Returns the allowed words as a text.
fn words(allowed: Allowed) -> &'static str {
    match allowed {
        Allowed::Commands => "none of enq, poll, write, show, deq, out, shut",
        Allowed::Events => {
            "none of reset, prepend, link, load, home, done, grant, roll, freed, write, close"
        }
        Allowed::BoardJobs => "neither put nor take",
        Allowed::BankJobs => "none of in, out, move",
        Allowed::Lines => "not `lines`",
        Allowed::Lease => "not `lease`",
        Allowed::Workers => "not `workers`",
    }
}

/// Writes that a word is not one of the allowed words, and the allowed word that resembles it.
fn write_word<W: fmt::Write>(
    f: &mut fmt::Formatter<W>,
    line: &[u8],
    place: u64,
    allowed: Allowed,
) -> fmt::Result {
    let said = words(allowed);
    write!(f, "word {place} is {said}")?;
    let word = word_at(line, place);
    match near(allowed, word) {
        Some(meant) => {
            f.write_str("; for `")?;
            write_bytes(f, word)?;
            write!(f, "` write `{meant}`")
        }
        None => Ok(()),
    }
}

/// Writes that a line has too few or too many words, and the form that it should have.
fn write_form<W: fmt::Write>(f: &mut fmt::Formatter<W>, line: &[u8], form: Form) -> fmt::Result {
    f.write_str("wrong number of words, the form is `")?;
    match form {
        Form::Header(ScriptKind::Schedule) => {
            f.write_str("nodes N lines L` or `nodes N lines L lease C")?;
        }
        Form::Header(ScriptKind::Steps) => f.write_str("nodes N` or `nodes N lease C")?,
        Form::Header(kind) => f.write_str(header(kind))?,
        Form::Call => {
            write_bytes(f, word_at(line, 1))?;
            f.write_str(" NODE LINE")?;
        }
        Form::Write => f.write_str("write NODE LINE OFFSET HEX")?,
        Form::Event => {
            write_bytes(f, word_at(line, 1))?;
            f.write_str(" NODE")?;
        }
        Form::StepWrite => f.write_str("write NODE OFFSET HEX")?,
        Form::Job(ScriptKind::Board) => f.write_str("WORKER put TASK` or `WORKER take")?,
        Form::Job(_) => {
            f.write_str(
                "WORKER in ACCOUNT AMOUNT`, the same with `out`, or `WORKER move FROM TO AMOUNT",
            )?;
        }
        Form::Put => f.write_str("WORKER put TASK")?,
        Form::Take => f.write_str("WORKER take")?,
        Form::Payment => {
            f.write_str("WORKER ")?;
            write_bytes(f, word_at(line, 2))?;
            f.write_str(" ACCOUNT AMOUNT")?;
        }
        Form::Move => f.write_str("WORKER move FROM TO AMOUNT")?,
    }
    f.write_str("`")
}

/// Returns the word at this place of a line, or an empty slice if the line has fewer words.
fn word_at(line: &[u8], place: u64) -> &[u8] {
    let mut at = 0u64;
    for word in Words::new(line) {
        at = at.saturating_add(1);
        if at == place {
            return word;
        }
    }
    &[]
}

/// Writes a line, followed by dots if the line has more than `MAX_SHOWN` bytes.
fn write_line<W: fmt::Write>(f: &mut fmt::Formatter<W>, line: &[u8]) -> fmt::Result {
    f.write_str("    ")?;
    write_bytes(f, line)?;
    if line.len() > MAX_SHOWN {
        f.write_str(" ..")?;
    }
    f.write_str("\n")
}

/// Writes at most `MAX_SHOWN` bytes. A byte that is not allowed in a script is written as `\xNN`.
fn write_bytes<W: fmt::Write>(f: &mut fmt::Formatter<W>, bytes: &[u8]) -> fmt::Result {
    for byte in bytes.iter().copied().take(MAX_SHOWN) {
        if is_shown(byte) {
            f.write_char(char::from(byte))?;
        } else {
            write!(f, "\\x{byte:02x}")?;
        }
    }
    Ok(())
}
