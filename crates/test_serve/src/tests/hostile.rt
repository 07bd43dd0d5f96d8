//! Tests the program with readers and writers that fail at one of their calls, or that transfer only a few bytes at a
//! time.
use crate::tests::runs::run;
use std::io::{self, Read, Write};
use std::test::Fail;

pub const HAND_OVER: &str =
    "nodes 2 lines 1\nenq 1 0\nwrite 1 0 0 a1b2\nenq 2 0\npoll 2 0\ndeq 1 0\npoll 2 0\nshow 2 0\ndeq 2 0\n";

pub const HANDED_OVER: &str =
    "granted\nok\nqueued\nwaiting\nreleased\ngranted\na1b20000000000000000000000000000000000000000000000000000000000000000000000000000000000000000000000000000000000000000000000000000\nreleased\nline 0 served 2 withdrawn 0 told 0 left 0\n";

pub const LATE_LINK: &str =
    "nodes 2\nreset 1\nprepend 1\nreset 2\nprepend 2\nhome 1\ndone 1\nload 1\nlink 2\nload 1\n";

pub const LINKED: &str =
    "went\ngranted\nwent\nwent\nwent\nreleased\nbusy\ngranted\nfree\nline 0 served 1 withdrawn 0 told 0 left 1\n";

pub const BOARD: &str = "board workers 1\n1 put 5\n1 put 9\n1 take\n1 take\n1 take\n";

pub const BOARD_REPORT: &str = "stored 2\nfull 0\ntaken 2\nempty 1\nleft 0\n";

const BANK: &str = "bank workers 1 lines 2\n1 in 0 10\n1 move 0 9 4\n1 out 9 9\n1 out 9 1\n";

const BANK_REPORT: &str = "in 10\nout 1\ntotal 9\n";

pub const HANDED_OVER_DRAWN: &str =
    "line 0\n\n         12345678\nnode   1 HHHH>...\nnode   2 ..ww<HH.\n\n. idle   w waits   t its turn has come   H holds   > hands over to <\nx withdrawn   c told that the line is closed   - closed   ! misuse\n";

const EARLY: &str = "nodes 1\nlink 1\n";

const EARLY_DRAWN: &str =
    "1\n.      1: link 1: refused; the line lies at home\n\n. Idle   r Ready   l Linking   w Queued   H Holding   h Leaving   m Marking\ng Granting   f Freeing   L Left   x Rolled   - Shut\n";

/// Command lines of each subcommand, each with a script and the output.
pub static RUNS: [(&[&str], &str, &str); 14] = [
    (&["replay", "--kind", "plain"], HAND_OVER, HANDED_OVER),
    (&["replay", "--kind", "ring"], HAND_OVER, HANDED_OVER),
    (&["replay", "--kind", "link"], HAND_OVER, HANDED_OVER),
    (&["replay", "--kind", "ticket"], HAND_OVER, HANDED_OVER),
    (&["steps"], LATE_LINK, LINKED),
    (&["board", "--kind", "ring"], BOARD, BOARD_REPORT),
    (&["board", "--kind", "ticket"], BOARD, BOARD_REPORT),
    (&["board"], BOARD, BOARD_REPORT),
    (&["bank", "--kind", "ring"], BANK, BANK_REPORT),
    (&["bank", "--kind", "ticket"], BANK, BANK_REPORT),
    (&["bank"], BANK, BANK_REPORT),
    (&["draw"], HAND_OVER, HANDED_OVER_DRAWN),
    (&["draw", "--steps"], EARLY, EARLY_DRAWN),
    (&["steps", "--explain"], LATE_LINK, LINKED),
];

/// The maximum number of bytes of a read or a write.
static PARTS: [usize; 3] = [1, 7, 4096];

/// A reader that returns at most `part` bytes per read, and fails once, after `good` reads.
#[derive(Drop)]
struct FailingReader<'a> {
    rest: &'a [u8],
    part: usize,
    good: usize,
}

impl<'a> Read for FailingReader<'a> {
    fn read(&mut self, buf: &mut [u8]) -> io::Result<usize> {
        if self.good == 0 {
            self.good = usize::MAX;
            return Err(io::Error::from(io::ErrorKind::Other));
        }
        self.good -= 1;
        let given = self.rest.len().min(self.part).min(buf.len());
        buf[..given].copy_from_slice(&self.rest[..given]);
        self.rest = &self.rest[given..];
        Ok(given)
    }
}

/// A writer that accepts at most `part` bytes per write. After `good` writes, it fails once or accepts no byte.
#[derive(Drop)]
struct FailingWriter {
    taken: Vec<u8>,
    part: usize,
    good: usize,
    fails: bool,
}

impl Write for FailingWriter {
    fn write(&mut self, buf: &[u8]) -> io::Result<usize> {
        if self.good == 0 {
            self.good = usize::MAX;
            return if self.fails {
                Err(io::Error::from(io::ErrorKind::Other))
            } else {
                Ok(0)
            };
        }
        self.good -= 1;
        let room = self.part.min(buf.len());
        self.taken.extend_from_slice(&buf[..room])?;
        Ok(room)
    }

    fn flush(&mut self) -> io::Result<()> {
        Ok(())
    }
}

#[test]
fn each_read_fails(rt: HostRuntime) -> Result<(), Fail> {
    for (words, script, reply) in &RUNS {
        let reply = *reply;
        for part in &PARTS {
            // The last read finds that no byte is left.
            let reads = script.len().div_ceil(*part).saturating_add(1);
            for good in 0..reads.saturating_add(1) {
                let mut reader = FailingReader {
                    rest: script.as_bytes(),
                    part: *part,
                    good,
                };
                let mut out: Vec<u8> = Vec::new(rt.alloc());
                let (status, err) = run(&rt, rt.alloc(), *words, &mut reader, &mut out)?;
                let want = if good < reads {
                    (4, b"".as_slice(), "read fault\n")
                } else {
                    (0, reply.as_bytes(), "")
                };
                assert_eq!(rt;
                    (status, out.as_slice(), err.as_str()),
                    want,
                    "{words:?} after {good} reads of {part}"
                );
            }
        }
    }
    Ok(())
}

/// The maximum number of bytes that a write accepts, and whether the last write fails; otherwise it accepts no byte.
static WRITES: [(usize, bool); 4] = [(1, true), (3, false), (7, true), (4096, false)];

#[test]
fn each_write_fails(rt: HostRuntime) -> Result<(), Fail> {
    for (words, script, reply) in &RUNS {
        for (part, fails) in &WRITES {
            let mut served = false;
            for good in 0..reply.len().saturating_add(1) {
                if served {
                    break;
                }
                let mut writer = FailingWriter {
                    taken: Vec::new(rt.alloc()),
                    part: *part,
                    good,
                    fails: *fails,
                };
                let mut reader = script.as_bytes();
                let (status, err) = run(&rt, rt.alloc(), *words, &mut reader, &mut writer)?;
                let reply = reply.as_bytes();
                let is_served = writer.taken.len() == reply.len();
                let want = if is_served {
                    (0, "")
                } else {
                    (4, "write fault\n")
                };
                let is_beginning = reply.starts_with(writer.taken.as_slice())
                    && (is_served || *part > 1 || writer.taken.len() == good);
                assert_eq!(rt;
                    (status, err.as_str(), is_beginning),
                    (want.0, want.1, true),
                    "{words:?} after {good} writes of {part}"
                );
                served = is_served;
            }
            assert!(rt; served, "{words:?} by writes of {part}");
        }
    }
    Ok(())
}
