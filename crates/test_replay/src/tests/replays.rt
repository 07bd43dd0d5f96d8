//! Tests replays, which execute a script of calls, on lines of each kind.
use crate::tests::rows::{expect, expect_at};
use line_kinds::{ALL, Lock};
use linked_list_allocator::LocalHeap;
use qolb_run::{Kind, REPLAYED, ReplayError, read_all, run_schedule, run_schedule_with, run_steps};
use qolb_script::{ScriptError, Watched};
use std::alloc::Global;
use std::io;
use std::io::{Read, Write};
use std::test::Fail;

#[test]
fn kinds_are_the_plain_one_and_each_lock(rt: HostRuntime) -> Result<(), Fail> {
    expect(&rt, "kinds", REPLAYED.len(), ALL.len() + 1);
    expect(&rt, "the first", REPLAYED[0], None);
    for (lock, kind) in ALL.iter().zip(REPLAYED.iter().skip(1)) {
        expect(&rt, "a lock's kind", *kind, Some(*lock));
    }
    Ok(())
}

/// The reply to the script.
fn reply_to(alloc: Global, script: &str, kind: Option<Lock>) -> Result<String, Fail> {
    let mut reader = Watched::new(script.as_bytes());
    let mut text: Vec<u8> = Vec::new(alloc);
    run_schedule_with(alloc, &mut reader, &mut Watched::new(&mut text), kind)?;
    Ok(String::from_utf8(text)?)
}

/// The length of the reply to a `show`: the digits of 64 bytes, and a newline.
const ROW_OF_DIGITS: usize = 129;

#[test]
fn the_longest_reply_is_whole(rt: HostRuntime) -> Result<(), Fail> {
    let mut script = String::from_str(rt.alloc(), "nodes 1 lines 1\nenq 1 0\n")?;
    for _ in 1..100_000 {
        script.push_str("show 1 0\n")?;
    }
    let reply = reply_to(rt.alloc(), script.as_str(), None)?;
    let ends = "line 0 served 0 withdrawn 0 told 0 left 1\n";
    expect(&rt, "the begin", reply.starts_with("granted\n0000"), true);
    expect(&rt, "the end", reply.ends_with(ends), true);
    expect(
        &rt,
        "bytes of the reply",
        reply.len(),
        "granted\n".len() + 99_999 * ROW_OF_DIGITS + ends.len(),
    );
    Ok(())
}

/// Returns the text `first`, then `same` repeated `times` times, then `last`.
pub(crate) fn repeated(
    alloc: Global,
    first: &str,
    times: u32,
    same: &str,
    last: &str,
) -> Result<String, Fail> {
    let mut text = first.to_string(alloc)?;
    for _ in 0..times {
        text.push_str(same)?;
    }
    text.push_str(last)?;
    Ok(text)
}

#[test]
fn the_longest_script_is_replayed_by_shared_lines(rt: HostRuntime) -> Result<(), Fail> {
    let alloc = rt.alloc();
    let turn = "enq 1 0\ndeq 1 0\n";
    let script = repeated(alloc, "nodes 1 lines 1\n", 50_000, turn, "")?;
    let summary = "line 0 served 50000 withdrawn 0 told 0 left 0\n";
    let wanted = repeated(alloc, "", 50_000, "granted\nreleased\n", summary)?;
    let reply = reply_to(alloc, script.as_str(), Some(Lock::Ring))?;
    expect(&rt, "the reply", reply == wanted, true);
    Ok(())
}

const HAND_OVER: &str =
    "nodes 2 lines 1\nenq 1 0\nwrite 1 0 0 a1b2\nenq 2 0\npoll 2 0\ndeq 1 0\npoll 2 0\nshow 2 0\ndeq 2 0\n";

/// Scripts and their replies.
static REPLIES: [(&str, &str); 14] = [
    // no command
    (
        "nodes 1 lines 1\n",
        "line 0 served 0 withdrawn 0 told 0 left 0\n",
    ),
    // commands that a node's state does not allow
    (
        "nodes 1 lines 1\npoll 1 0\ndeq 1 0\nenq 1 0\nenq 1 0\ndeq 1 0\n",
        "misuse\nmisuse\ngranted\nmisuse\nreleased\nline 0 served 1 withdrawn 0 told 0 left 0\n",
    ),
    // the oldest request is served first, whichever node made it
    (
        "nodes 4 lines 1\nenq 4 0\nenq 3 0\nenq 1 0\nenq 2 0\ndeq 4 0\npoll 1 0\npoll 3 0\ndeq 3 0\npoll 2 0\npoll 1 0\ndeq 1 0\npoll 2 0\n",
        "granted\nqueued\nqueued\nqueued\nreleased\nwaiting\ngranted\nreleased\nwaiting\ngranted\nreleased\ngranted\nline 0 served 3 withdrawn 0 told 0 left 1\n",
    ),
    // a withdrawn node is busy until a release passes it
    (
        "nodes 3 lines 1\nenq 1 0\nenq 2 0\nenq 3 0\nout 2 0\nenq 2 0\ndeq 1 0\nenq 2 0\npoll 3 0\ndeq 3 0\npoll 2 0\n",
        "granted\nqueued\nqueued\nwithdrawn\nbusy\nreleased\nqueued\ngranted\nreleased\ngranted\nline 0 served 2 withdrawn 1 told 0 left 1\n",
    ),
    // a release passes all nodes that have withdrawn
    (
        "nodes 3 lines 1\nenq 1 0\nenq 2 0\nenq 3 0\nout 2 0\nout 3 0\ndeq 1 0\nenq 3 0\n",
        "granted\nqueued\nqueued\nwithdrawn\nwithdrawn\nreleased\ngranted\nline 0 served 1 withdrawn 2 told 0 left 1\n",
    ),
    // a node that withdraws when its turn has come holds the line
    (
        "nodes 2 lines 1\nenq 1 0\nenq 2 0\ndeq 1 0\nout 2 0\ndeq 2 0\n",
        "granted\nqueued\nreleased\ngranted\nreleased\nline 0 served 2 withdrawn 0 told 0 left 0\n",
    ),
    // the waiters are told in turn that the line is closed
    (
        "nodes 3 lines 1\nenq 1 0\nenq 2 0\nenq 3 0\nshut 1 0\npoll 3 0\npoll 2 0\npoll 3 0\nenq 1 0\nenq 2 0\n",
        "granted\nqueued\nqueued\nshut\nwaiting\nclosed\nclosed\nclosed\nclosed\nline 0 served 1 withdrawn 0 told 4 left 0\n",
    ),
    // a node that withdraws when its turn has come is told that the line is closed
    (
        "nodes 2 lines 1\nenq 1 0\nenq 2 0\nshut 1 0\nout 2 0\n",
        "granted\nqueued\nshut\nclosed\nline 0 served 1 withdrawn 0 told 1 left 0\n",
    ),
    // lines are independent
    (
        "nodes 2 lines 2\nenq 1 0\nenq 2 1\nenq 1 1\ndeq 2 1\npoll 1 1\nshut 1 1\nenq 2 1\nenq 2 0\nout 2 0\n",
        "granted\ngranted\nqueued\nreleased\ngranted\nshut\nclosed\nqueued\nwithdrawn\nline 0 served 0 withdrawn 1 told 0 left 1\nline 1 served 2 withdrawn 0 told 1 left 0\n",
    ),
    // a told node passes the withdrawn nodes behind it, so that they may make new requests
    (
        "nodes 4 lines 1\nenq 1 0\nenq 2 0\nenq 3 0\nenq 4 0\nout 3 0\nshut 1 0\nenq 3 0\npoll 2 0\nenq 3 0\npoll 4 0\n",
        "granted\nqueued\nqueued\nqueued\nwithdrawn\nshut\nbusy\nclosed\nqueued\nclosed\nline 0 served 1 withdrawn 1 told 2 left 1\n",
    ),
    // the second of two turns closes the line
    (
        "nodes 2 lines 1 lease 2\nenq 1 0\nwrite 1 0 0 07\nenq 2 0\ndeq 1 0\npoll 2 0\nenq 1 0\ndeq 2 0\npoll 1 0\nenq 2 0\n",
        "granted\nok\nqueued\nreleased\ngranted\nqueued\nreleased\nclosed\nclosed\nline 0 served 2 withdrawn 0 told 2 left 0\n",
    ),
    // each line has its own lease; a withdrawn request uses no turn of it
    (
        "nodes 3 lines 2 lease 1\nenq 1 0\nenq 2 1\nenq 1 1\nout 1 1\ndeq 2 1\nenq 1 1\ndeq 1 0\nenq 3 0\n",
        "granted\ngranted\nqueued\nwithdrawn\nreleased\nclosed\nreleased\nclosed\nline 0 served 1 withdrawn 0 told 1 left 0\nline 1 served 1 withdrawn 1 told 1 left 0\n",
    ),
    // more than 32 nodes
    (
        "nodes 33 lines 1",
        "line 0 served 0 withdrawn 0 told 0 left 0\n",
    ),
    // the last newline may be missing, and blanks do not count as words
    (
        "\n  nodes  1 lines 1  \n\n enq 1 0",
        "granted\nline 0 served 0 withdrawn 0 told 0 left 1\n",
    ),
];

#[test]
fn answers_scripts(rt: HostRuntime) -> Result<(), Fail> {
    for (script, reply) in &REPLIES {
        for kind in &REPLAYED {
            expect(
                &rt,
                script,
                reply_to(rt.alloc(), script, *kind)?.as_str(),
                *reply,
            );
        }
    }
    Ok(())
}

/// Pushes a line of text for each node from `first` up to, but not including, `end`: a word, the node's number and the
/// rest.
fn push_each(
    alloc: Global,
    text: &mut String,
    first: u64,
    end: u64,
    word: &str,
    rest: &str,
) -> Result<(), Fail> {
    for node in first..end {
        text.push_str(word)?;
        text.push(' ')?;
        text.push_str(node.to_string(alloc)?.as_str())?;
        text.push_str(rest)?;
    }
    Ok(())
}

/// A script in which 199 of 200 nodes withdraw behind the first, which then releases.
fn withdrawn_behind_one(alloc: Global) -> Result<String, Fail> {
    let mut script = "nodes 200 lines 1\n".to_string(alloc)?;
    push_each(alloc, &mut script, 1, 201, "enq", " 0\n")?;
    push_each(alloc, &mut script, 2, 201, "out", " 0\n")?;
    script.push_str("deq 1 0\n")?;
    Ok(script)
}

/// The reply to `withdrawn_behind_one`.
fn passed_behind_one(alloc: Global) -> Result<String, Fail> {
    let mut reply = "granted\n".to_string(alloc)?;
    for _ in 2..201 {
        reply.push_str("queued\n")?;
    }
    for _ in 2..201 {
        reply.push_str("withdrawn\n")?;
    }
    reply.push_str("released\nline 0 served 1 withdrawn 199 told 0 left 0\n")?;
    Ok(reply)
}

#[test]
fn a_release_passes_199_withdrawn_nodes(rt: HostRuntime) -> Result<(), Fail> {
    let script = withdrawn_behind_one(rt.alloc())?;
    let reply = passed_behind_one(rt.alloc())?;
    for kind in &REPLAYED {
        let found = reply_to(rt.alloc(), script.as_str(), *kind)?;
        expect_at(&rt, kind, found.as_str(), reply.as_str());
    }
    Ok(())
}

/// The hex digits of a line that has `digits` at `place`, and zeros elsewhere.
fn line_of(alloc: Global, place: usize, digits: &str) -> Result<String, Fail> {
    let mut line = String::new(alloc);
    for _ in 0..place {
        line.push_str("00")?;
    }
    line.push_str(digits)?;
    for _ in line.len()..128 {
        line.push('0')?;
    }
    Ok(line)
}

/// Scripts with a `show` command. Each entry also has the reply before the `show`, the position and digits of the bytes
/// that are not zero, and the reply after the `show`.
static SHOWN: [(&str, &str, usize, &str, &str); 3] = [
    (
        HAND_OVER,
        "granted\nok\nqueued\nwaiting\nreleased\ngranted\n",
        0,
        "a1b2",
        "released\nline 0 served 2 withdrawn 0 told 0 left 0\n",
    ),
    // masked writes leave the other bytes as they were, in this turn and in earlier ones
    (
        "nodes 2 lines 1\nenq 1 0\nwrite 1 0 0 a1b2c3d4\nwrite 1 0 2 FF\nenq 2 0\ndeq 1 0\npoll 2 0\nwrite 2 0 1 0e\nshow 2 0\n",
        "granted\nok\nok\nqueued\nreleased\ngranted\nok\n",
        0,
        "a10effd4",
        "line 0 served 1 withdrawn 0 told 0 left 1\n",
    ),
    // the last place of a line
    (
        "nodes 1 lines 1\nenq 1 0\nwrite 1 0 63 ff\nshow 1 0\n",
        "granted\nok\n",
        63,
        "ff",
        "line 0 served 0 withdrawn 0 told 0 left 1\n",
    ),
];

#[test]
fn shows_what_holders_wrote(rt: HostRuntime) -> Result<(), Fail> {
    let alloc = rt.alloc();
    for (script, before, place, digits, behind) in &SHOWN {
        let line = line_of(alloc, *place, digits)?;
        let reply = format!(in alloc; "{before}{line}\n{behind}")?;
        for kind in &REPLAYED {
            expect(
                &rt,
                script,
                reply_to(alloc, script, *kind)?.as_str(),
                reply.as_str(),
            );
        }
    }
    Ok(())
}

/// A reader that returns `left` bytes in total, at most `part` bytes per read.
///
/// The first byte of each read is an `x`, and the others are newlines. Therefore, the first line of such a script is
/// malformed, and no time is spent on the lines after it.
#[derive(Drop)]
struct BadLines {
    left: u64,
    part: usize,
}

impl Read for BadLines {
    fn read(&mut self, buf: &mut [u8]) -> io::Result<usize> {
        let room = self.part.min(buf.len());
        let given = self.left.min(room as u64) as usize;
        let read = &mut buf[..given];
        read.fill(b'\n');
        if let Some(first) = read.first_mut() {
            *first = b'x';
        }
        self.left -= given as u64;
        Ok(given)
    }
}

#[test]
fn takes_inputs_up_to_the_limit(rt: HostRuntime) {
    let mut reader = Watched::new(BadLines {
        left: 16_777_216,
        part: 65_536,
    });
    let mut text: Vec<u8> = Vec::new(rt.alloc());
    let mut writer = Watched::new(&mut text);
    let done = run_schedule(rt.alloc(), &mut reader, &mut writer, Kind::Plain);
    let refused = ReplayError::Script(ScriptError::BadLine(1));
    expect(&rt, "16,777,216 bytes", done, Err(refused));
}

#[test]
fn an_input_may_come_byte_by_byte(rt: HostRuntime) -> Result<(), Fail> {
    let mut reader = Watched::new(BadLines {
        left: 10_000,
        part: 1,
    });
    let input = read_all(rt.alloc(), &mut reader).ok().ok_or("an input")?;
    expect(&rt, "bytes read", input.len(), 10_000);
    Ok(())
}

#[test]
fn each_growth_of_an_input_is_refused(rt: HostRuntime) -> Result<(), Fail> {
    let mut refused = 0u32;
    for step in 1..400usize {
        let heap = LocalHeap::new(rt.alloc(), 32 * step)?;
        let mut reader = Watched::new(HAND_OVER.as_bytes());
        match read_all(&heap, &mut reader) {
            Ok(input) => expect_at(&rt, &step, input.as_slice(), HAND_OVER.as_bytes()),
            Err(error) => {
                expect_at(&rt, &step, error, ReplayError::Memory);
                refused = refused.saturating_add(1);
            }
        }
    }
    expect(&rt, "refused", refused > 0, true);
    Ok(())
}

/// The number of bytes of a script, how many of them are read or why none are, and how many bytes stay in the reader.
/// If two parts of 4,096 bytes are beyond the limit, the second one stays there.
static LENGTHS: [(u64, Result<usize, ReplayError>, u64); 3] = [
    (16_777_216, Ok(16_777_216), 0),
    (16_777_217, Err(ReplayError::Long), 0),
    (16_777_216 + 8_192, Err(ReplayError::Long), 4_096),
];

#[test]
fn an_input_is_read_up_to_the_limit_and_no_further(rt: HostRuntime) {
    for (bytes, wanted, left) in &LENGTHS {
        let mut reader = Watched::new(BadLines {
            left: *bytes,
            part: 65_536,
        });
        let read = read_all(rt.alloc(), &mut reader).map(|input| input.len());
        expect_at(
            &rt,
            bytes,
            (read, reader.into_inner().left),
            (*wanted, *left),
        );
    }
}

/// A reader that returns at most `part` bytes per read, and fails after `good` reads.
#[derive(Drop)]
struct FailingReader<'a> {
    rest: &'a [u8],
    part: usize,
    good: usize,
}

impl Read for FailingReader<'_> {
    fn read(&mut self, buf: &mut [u8]) -> io::Result<usize> {
        if self.good == 0 {
            return Err(io::Error::from(io::ErrorKind::Other));
        }
        self.good -= 1;
        let given = self.rest.len().min(self.part).min(buf.len());
        buf[..given].copy_from_slice(&self.rest[..given]);
        self.rest = &self.rest[given..];
        Ok(given)
    }
}

/// A writer that accepts one byte per write, and fails after `good` writes.
#[derive(Drop)]
struct FailingWriter {
    good: usize,
}

impl Write for FailingWriter {
    fn write(&mut self, buf: &[u8]) -> io::Result<usize> {
        if self.good == 0 || buf.is_empty() {
            return Err(io::Error::from(io::ErrorKind::Other));
        }
        self.good -= 1;
        Ok(1)
    }

    fn flush(&mut self) -> io::Result<()> {
        Ok(())
    }
}

/// A call that reads a script and writes its reply.
#[derive(Clone, Copy, Debug)]
enum Call {
    Schedule,
    Steps,
}

/// Makes the call.
fn replay<R: Read, W: Write>(
    alloc: Global,
    call: Call,
    reader: &mut Watched<R>,
    writer: &mut Watched<W>,
) -> Result<(), ReplayError> {
    match call {
        Call::Schedule => run_schedule(alloc, reader, writer, Kind::Plain),
        Call::Steps => run_steps(alloc, reader, writer),
    }
}

/// A turn of a node, as a script for each call, with its reply.
static TURNS: [(Call, &str, &str); 2] = [
    (
        Call::Schedule,
        "nodes 1 lines 1\nenq 1 0\ndeq 1 0\n",
        "granted\nreleased\nline 0 served 1 withdrawn 0 told 0 left 0\n",
    ),
    (
        Call::Steps,
        "nodes 1\nreset 1\nprepend 1\nhome 1\n",
        "went\ngranted\nreleased\nline 0 served 1 withdrawn 0 told 0 left 0\n",
    ),
];

#[test]
fn a_failed_read_ends_a_replay_before_it_writes(rt: HostRuntime) {
    for (call, script, reply) in &TURNS {
        // There is one read for each byte, and a last read that finds the end.
        let reads = script.len().saturating_add(1);
        for good in 0..reads.saturating_add(1) {
            let mut reader = Watched::new(FailingReader {
                rest: script.as_bytes(),
                part: 1,
                good,
            });
            let mut text: Vec<u8> = Vec::new(rt.alloc());
            let mut writer = Watched::new(&mut text);
            let done = replay(rt.alloc(), *call, &mut reader, &mut writer);
            let wanted = if good < reads {
                (Err(ReplayError::Read), true, b"".as_slice())
            } else {
                (Ok(()), false, reply.as_bytes())
            };
            let found = (done, reader.failed(), text.as_slice());
            expect_at(&rt, &(*call, good), found, wanted);
        }
    }
}

#[test]
fn a_failed_write_ends_a_replay(rt: HostRuntime) {
    for (call, script, reply) in &TURNS {
        for good in 0..reply.len().saturating_add(1) {
            let mut reader = Watched::new(script.as_bytes());
            let mut writer = Watched::new(FailingWriter { good });
            let done = replay(rt.alloc(), *call, &mut reader, &mut writer);
            let wanted = if good < reply.len() {
                (Err(ReplayError::Write), true)
            } else {
                (Ok(()), false)
            };
            expect_at(&rt, &(*call, good), (done, writer.failed()), wanted);
        }
    }
}

#[test]
fn an_input_is_not_read_behind_its_end(rt: HostRuntime) {
    // The second read finds the end.
    let mut reader = Watched::new(FailingReader {
        rest: HAND_OVER.as_bytes(),
        part: HAND_OVER.len(),
        good: 2,
    });
    let refused = read_all(rt.alloc(), &mut reader).err();
    expect(
        &rt,
        "refused, failed",
        (refused, reader.failed()),
        (None, false),
    );
}
