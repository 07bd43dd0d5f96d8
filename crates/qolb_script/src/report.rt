//! The report with which a work script ends, and how it is written as text.
ghost use Rattle.std.specs.Prelude.{◌≡◌, ◌↔◌, true, IsErr, OnOk};
ghost use Rattle.std.specs.Io.KnownBytes.{Appends};
ghost use Rattle.qolb_script.specs.Watched.{inner_of, has_failed};
ghost use Rattle.qolb_script.specs.Reports.{figure, report_text};

use crate::watched::{Fault, Watched};
use itoa::{Buffer, Integer};
use std::io::Write;

/// The result of the work of all workers, as the program reports it.
#[derive(Clone, Copy, Debug, PartialEq, Eq)]
pub enum Report {
    /// The report of a board.
    ///
    /// It counts the tasks stored, the puts that found the board full, the tasks taken, the takes that found the board
    /// empty, and the tasks left.
    Board {
        stored: u64,
        full: u64,
        taken: u64,
        empty: u64,
        left: u64,
    },
    /// The report of a bank: the amount paid in, the amount paid out, and the sum of all balances.
    Bank {
        paid_in: u128,
        paid_out: u128,
        total: u128,
    },
}

/// Writes the report, one line for each number.
///
/// If a write fails, a part of the report may have been written.
pub fn write_report<W: Write>(report: &Report, out: &mut Watched<W>) -> Result<(), Fault>
    ensures fault { IsErr result ↔ (has_failed out.new ≡ true) }
    ensures bytes { OnOk result (Appends (W.contents (inner_of out.old))
        (W.contents (inner_of out.new)) (report_text report.now)) }
{
    match *report {
        Report::Board {
            stored,
            full,
            taken,
            empty,
            left,
        } => {
            write_figure(out, b"stored ", stored)?;
            write_figure(out, b"full ", full)?;
            write_figure(out, b"taken ", taken)?;
            write_figure(out, b"empty ", empty)?;
            write_figure(out, b"left ", left)
        }
        Report::Bank {
            paid_in,
            paid_out,
            total,
        } => {
            write_figure(out, b"in ", paid_in)?;
            write_figure(out, b"out ", paid_out)?;
            write_figure(out, b"total ", total)
        }
    }
}

/// Writes a line that consists of a word and a number.
fn write_figure<W: Write, N: Integer>(
    out: &mut Watched<W>,
    word: &[u8],
    number: N,
) -> Result<(), Fault>
    ensures fault { IsErr result ↔ (has_failed out.new ≡ true) }
    ensures bytes { OnOk result (Appends (W.contents (inner_of out.old))
        (W.contents (inner_of out.new)) (figure word.now (N.text number))) }
{
    let mut buffer = Buffer::new();
    out.write_all(word)?;
    out.write_all(buffer.format(number).as_bytes())?;
    out.write_all(b"\n")
}
