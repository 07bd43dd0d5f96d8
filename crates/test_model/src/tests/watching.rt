//! Tests readers and writers that remember whether a read or a write has failed.
use crate::tests::rows::{expect, expect_at};
use qolb_script::{Fault, Watched};
use std::io;
use std::io::{Error, ErrorKind, Read, Write};
use std::test::Fail;

/// A reader that returns one byte for each read, after `interruptions` interruptions. After `left` reads it fails once
/// with `kind`.
#[derive(Drop)]
struct FailingReader {
    kind: ErrorKind,
    left: u64,
    interruptions: u64,
    met: u64,
}

impl Read for FailingReader {
    fn read(&mut self, buf: &mut [u8]) -> io::Result<usize> {
        if self.met < self.interruptions {
            self.met += 1;
            return Err(Error::from(ErrorKind::Interrupted));
        }
        self.met = 0;
        if self.left == 0 {
            self.left = 9;
            return Err(Error::from(self.kind));
        }
        self.left -= 1;
        if buf.is_empty() {
            return Ok(0);
        }
        buf[0] = b'x';
        Ok(1)
    }
}

/// A writer that takes one byte in each write, after `interruptions` interruptions.
#[derive(Drop)]
struct SlowWriter {
    taken: Vec<u8>,
    interruptions: u64,
    met: u64,
}

impl Write for SlowWriter {
    fn write(&mut self, buf: &[u8]) -> io::Result<usize> {
        if self.met < self.interruptions {
            self.met += 1;
            return Err(Error::from(ErrorKind::Interrupted));
        }
        self.met = 0;
        let part = &buf[..buf.len().min(1)];
        self.taken.extend_from_slice(part)?;
        Ok(part.len())
    }

    fn flush(&mut self) -> io::Result<()> {
        Ok(())
    }
}

/// A writer whose first write fails or takes no byte. Later writes take all bytes.
#[derive(Drop)]
struct FailingWriter {
    fails: bool,
    refused: bool,
}

impl Write for FailingWriter {
    fn write(&mut self, buf: &[u8]) -> io::Result<usize> {
        if self.refused {
            return Ok(buf.len());
        }
        self.refused = true;
        if self.fails {
            Err(Error::from(ErrorKind::Other))
        } else {
            Ok(0)
        }
    }

    fn flush(&mut self) -> io::Result<()> {
        Ok(())
    }
}

/// The number of interruptions before each read or write.
static INTERRUPTIONS: [u64; 5] = [0, 1, 2, 1_000, 100_000];

/// Error kinds other than an interruption.
static FAULTS: [ErrorKind; 8] = [
    ErrorKind::Other,
    ErrorKind::WouldBlock,
    ErrorKind::TimedOut,
    ErrorKind::UnexpectedEof,
    ErrorKind::ConnectionReset,
    ErrorKind::PermissionDenied,
    ErrorKind::IsADirectory,
    ErrorKind::BrokenPipe,
];

#[test]
fn a_failed_read_is_remembered(rt: HostRuntime) {
    for interruptions in &INTERRUPTIONS {
        for kind in &FAULTS {
            for left in 0..4u64 {
                let mut reader = Watched::new(FailingReader {
                    kind: *kind,
                    left,
                    interruptions: *interruptions,
                    met: 0,
                });
                let row = (*interruptions, *kind, left);
                let mut part = [0; 8];
                for _ in 0..left {
                    let found = (reader.failed(), reader.read(&mut part));
                    expect_at(&rt, &row, found, (false, Ok(1)));
                }
                for _ in 0..3 {
                    let found = (reader.read(&mut part), reader.failed());
                    expect_at(&rt, &row, found, (Err(Fault), true));
                }
            }
        }
    }
}

#[test]
fn short_and_interrupted_writes_go_on(rt: HostRuntime) -> Result<(), Fail> {
    for interruptions in &INTERRUPTIONS {
        let mut writer = Watched::new(SlowWriter {
            taken: Vec::new(rt.alloc()),
            interruptions: *interruptions,
            met: 0,
        });
        for part in ["abc", "", "d"] {
            expect_at(&rt, &part, writer.write_all(part.as_bytes()), Ok(()));
        }
        expect(&rt, "the writer", writer.failed(), false);
        let slow = writer.into_inner();
        expect_at(
            &rt,
            interruptions,
            slow.taken.as_slice(),
            b"abcd".as_slice(),
        );
    }
    Ok(())
}

#[test]
fn a_failed_write_is_remembered(rt: HostRuntime) {
    for fails in [true, false] {
        let mut writer = Watched::new(FailingWriter {
            fails,
            refused: false,
        });
        for _ in 0..2 {
            let found = (writer.write_all(b"abc"), writer.failed());
            expect_at(&rt, &fails, found, (Err(Fault), true));
        }
    }
}

#[test]
fn bytes_are_read_and_written(rt: HostRuntime) -> Result<(), Fail> {
    let mut reader = Watched::new(b"enq 1 0".as_slice());
    let mut part = [0; 4];
    let (none, some) = part.split_at_mut(0);
    for read in [4, 3, 0] {
        // With an empty buffer nothing is read, and this is not a failure.
        let found = (reader.read(none), reader.failed(), reader.read(some));
        expect_at(&rt, &read, found, (Ok(0), false, Ok(read)));
    }
    expect(&rt, "the reader", reader.failed(), false);
    let mut writer = Watched::new(Vec::new(rt.alloc()));
    let wrote = (writer.write_all(b"ok\n"), writer.failed());
    expect(&rt, "a write", wrote, (Ok(()), false));
    let written = writer.into_inner();
    expect(&rt, "written", written.as_slice(), b"ok\n".as_slice());
    Ok(())
}

#[test]
fn many_bytes_are_read_and_written_at_once(rt: HostRuntime) -> Result<(), Fail> {
    let alloc = rt.alloc();
    let bytes = vec![in alloc; b'x'; 100_000]?;
    let mut room = vec![in alloc; b'-'; 65_536]?;
    let mut reader = Watched::new(bytes.as_slice());
    for read in [65_536, 34_464, 0] {
        let found = (reader.read(room.as_mut_slice()), reader.failed());
        expect_at(&rt, &read, found, (Ok(read), false));
    }
    let is_filled = room.iter().all(|byte| *byte == b'x');
    expect(&rt, "the room is filled", is_filled, true);
    let mut writer = Watched::new(Vec::new(alloc));
    let wrote = (writer.write_all(bytes.as_slice()), writer.failed());
    expect(&rt, "a write", wrote, (Ok(()), false));
    let is_same = writer.into_inner().as_slice() == bytes.as_slice();
    expect(&rt, "the bytes are written", is_same, true);
    Ok(())
}
