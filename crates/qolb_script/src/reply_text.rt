ghost use Rattle.std.specs.Prelude.{◌≡◌, ℕ, ◌+◌, ◌≤◌, [], ◌∷◌, ◌++◌, length, decimal, vec_len, vec_capacity, OnOk, OnErr};
ghost use Rattle.qolb_script.specs.Said.{said_words, said_text};
ghost use Rattle.qolb_script.specs.StepReply.{step_said, ranked_text};
ghost use Rattle.hex.specs.Hex.{encode_lower};

use hex::encode_to_slice;
use itoa::Buffer;
use line_lanes::Line64;
use link_core::Told;
use qolb_model::{Enq, Out, Poll};
use std::alloc::{AllocError, Allocator};

/// One answer in the output of a replay, which is one line of text.
#[derive(Clone, Copy, Debug, PartialEq, Eq)]
pub enum Said {
    Enq(Enq),
    Poll(Poll),
    Out(Out),
    Written,
    Released,
    Shut,
    /// The node's state does not allow the command.
    Misuse,
    /// The bytes of a line, which are printed as 128 hex digits.
    Bytes(Line64),
    /// The word that an event of a step script returned.
    Told(Told),
    /// The event was not enabled.
    Refused,
    /// The counts of a lock line.
    ///
    /// They are the requests that were served, that were withdrawn and that ended because the line was closed, and the
    /// nodes that still wait or hold.
    Summary {
        line: u64,
        served: u64,
        withdrawn: u64,
        told: u64,
        left: u64,
    },
}

/// The largest number of bytes in a summary with its newline.
///
/// A summary has five numbers of at most 20 digits, and the words before them.
const MAX_SUMMARY: usize = 137;

/// The largest number of bytes in a rank, with the space before it and the newline.
const MAX_RANK: usize = 22;

/// Appends the line of text for the answer, with its newline.
///
/// Allocates room in the text. If the allocation fails, the text is unchanged.
pub fn push_said<A: Allocator>(text: &mut Vec<u8, A>, said: &Said) -> Result<(), AllocError>
    ensures ok { OnOk result (text.new.items ≡ text.old.items ++ said_text said.now) }
    ensures err { OnErr result (text.new.items ≡ text.old.items) }
{
    match *said {
        Said::Enq(answer) => push_line(text, enq_words(answer)),
        Said::Poll(answer) => push_line(text, poll_words(answer)),
        Said::Out(answer) => push_line(text, out_words(answer)),
        Said::Written => push_line(text, b"ok"),
        Said::Released => push_line(text, b"released"),
        Said::Shut => push_line(text, b"shut"),
        Said::Misuse => push_line(text, b"misuse"),
        Said::Bytes(line) => push_bytes(text, &line),
        Said::Told(told) => push_line(text, told_words(told)),
        Said::Refused => push_line(text, b"refused"),
        Said::Summary {
            line,
            served,
            withdrawn,
            told,
            left,
        } => push_summary(text, line, served, withdrawn, told, left),
    }
}

/// Returns the words that answer a request for the line.
fn enq_words(answer: Enq) -> &'static [u8]
    ensures { result.now ≡ said_words (Said.Enq answer) }
{
    match answer {
        Enq::Granted => b"granted",
        Enq::Queued => b"queued",
        Enq::Closed => b"closed",
        Enq::Busy => b"busy",
    }
}

/// Returns the words that answer a poll.
fn poll_words(answer: Poll) -> &'static [u8]
    ensures { result.now ≡ said_words (Said.Poll answer) }
{
    match answer {
        Poll::Granted => b"granted",
        Poll::Waiting => b"waiting",
        Poll::Closed => b"closed",
    }
}

/// Returns the words that answer a withdrawal.
fn out_words(answer: Out) -> &'static [u8]
    ensures { result.now ≡ said_words (Said.Out answer) }
{
    match answer {
        Out::Withdrawn => b"withdrawn",
        Out::Granted => b"granted",
        Out::Closed => b"closed",
    }
}

/// Returns the words for what an event returned.
fn told_words(told: Told) -> &'static [u8]
    ensures { result.now ≡ said_words (Said.Told told) }
{
    match told {
        Told::Went => b"went",
        Told::Granted => b"granted",
        Told::Queued => b"queued",
        Told::Waiting => b"waiting",
        Told::Closed => b"closed",
        Told::Busy => b"busy",
        Told::Free => b"free",
        Told::Withdrawn => b"withdrawn",
        Told::Released => b"released",
        Told::Shut => b"shut",
    }
}

/// Appends the answer of an event of a step script, followed by the rank.
///
/// The answer is what the event returned, or that it was refused. If an allocation fails, the text is unchanged.
pub fn push_ranked<A: Allocator>(
    text: &mut Vec<u8, A>,
    told: Option<Told>,
    rank: u64,
) -> Result<(), AllocError>
    ensures ok { OnOk result (text.new.items ≡ text.old.items ++ ranked_text told rank) }
    ensures err { OnErr result (text.new.items ≡ text.old.items) }
{
    let words = step_words(told);
    text.reserve(words.len() + MAX_RANK)?;
    text.extend_from_slice(words).unwrap();
    put_number(text, b" ", rank);
    text.push_reserved(b'\n');
    Ok(())
}

/// Returns the words for what an event returned, or for a refusal.
fn step_words(told: Option<Told>) -> &'static [u8]
    ensures { result.now ≡ said_words (step_said told) }
{
    match told {
        Some(told) => told_words(told),
        None => b"refused",
    }
}

/// Appends the words and a newline.
fn push_line<A: Allocator>(text: &mut Vec<u8, A>, words: &[u8]) -> Result<(), AllocError>
    ensures ok { OnOk result (text.new.items ≡ text.old.items ++ (words.now ++ 10 ∷ [])) }
    ensures err { OnErr result (text.new.items ≡ text.old.items) }
{
    text.reserve(words.len() + 1)?;
    text.extend_from_slice(words)?;
    text.push(b'\n')?;
    Ok(())
}

/// Appends the bytes as hex digits, and a newline.
fn push_bytes<A: Allocator>(text: &mut Vec<u8, A>, line: &Line64) -> Result<(), AllocError>
    ensures ok { OnOk result (text.new.items ≡ text.old.items
        ++ (encode_lower line.now.bytes ++ 10 ∷ [])) }
    ensures err { OnErr result (text.new.items ≡ text.old.items) }
{
    let mut digits = [0; 128];
    encode_to_slice(line.bytes.as_slice(), &mut digits).unwrap();
    push_line(text, &digits)
}

/// Appends the counts of a line, and a newline.
fn push_summary<A: Allocator>(
    text: &mut Vec<u8, A>,
    line: u64,
    served: u64,
    withdrawn: u64,
    told: u64,
    left: u64,
) -> Result<(), AllocError>
    ensures ok { OnOk result (text.new.items ≡ text.old.items
        ++ said_text (Said.Summary line served withdrawn told left)) }
    ensures err { OnErr result (text.new.items ≡ text.old.items) }
{
    text.reserve(MAX_SUMMARY)?;
    put_number(text, b"line ", line);
    put_number(text, b" served ", served);
    put_number(text, b" withdrawn ", withdrawn);
    put_number(text, b" told ", told);
    put_number(text, b" left ", left);
    text.push_reserved(b'\n');
    Ok(())
}

/// Appends words and a number. The caller has made room for them.
fn put_number<A: Allocator>(text: &mut Vec<u8, A>, words: &[u8], number: u64)
    requires { vec_len text.old + length words.now + 20 ≤ vec_capacity text.old }
    ensures items { text.new.items ≡ text.old.items ++ (words.now ++ decimal number) }
    ensures len { vec_len text.new ≤ vec_len text.old + length words.now + 20 }
    ensures capacity { vec_capacity text.old ≤ vec_capacity text.new }
{
    let mut buffer = Buffer::new();
    let digits = buffer.format(number);
    text.extend_from_slice(words).unwrap();
    text.extend_from_slice(digits.as_bytes()).unwrap();
}
