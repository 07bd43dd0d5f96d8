//! The errors that can occur while a script is read.
ghost use Rattle.std.specs.Prelude.{◌≡◌, ℕ};

use std::error::Error;
use std::fmt;

/// The error of a refused script.
///
/// Line numbers count from 1, and lines without words are counted, too.
#[derive(Clone, Copy, Debug, PartialEq, Eq)]
pub enum ScriptError {
    /// An allocation failed.
    Memory,
    /// The line does not have one of the forms that are allowed there.
    ///
    /// It has a byte that is not allowed in a script, an unknown first word, a wrong number of words, a wrong fixed
    /// word, or a word for bytes that is not hex or does not fit.
    BadLine(u64),
    /// A word of the line that must be a number is not a number, or is out of its range.
    Number(u64),
    /// The line is the first one past the largest number of commands that a script may have.
    TooMany(u64),
}

impl ScriptError {
    /// Returns the number of the error, from 1 to 4.
    pub fn number(&self) -> u8
        ensures memory { self.now ≡ ScriptError.Memory → result ≡ 1 }
        ensures bad_line { (line : ℕ) → self.now ≡ ScriptError.BadLine line → result ≡ 2 }
        ensures out_of_range { (line : ℕ) → self.now ≡ ScriptError.Number line → result ≡ 3 }
        ensures too_many { (line : ℕ) → self.now ≡ ScriptError.TooMany line → result ≡ 4 }
    {
        match self {
            ScriptError::Memory => 1,
            ScriptError::BadLine(_) => 2,
            ScriptError::Number(_) => 3,
            ScriptError::TooMany(_) => 4,
        }
    }
}

impl fmt::Display for ScriptError {
    ghost use Rattle.std.specs.Prelude.{Some};
    ghost use Rattle.qolb_script.specs.Errors.{error_text};

    ghost output = { λ error. Some (error_text error) };

    fn fmt<W: fmt::Write>(&self, f: &mut fmt::Formatter<W>) -> fmt::Result {
        match *self {
            ScriptError::Memory => f.write_str("out of memory"),
            ScriptError::BadLine(line) => write!(f, "bad line {line}"),
            ScriptError::Number(line) => write!(f, "bad line {line}"),
            ScriptError::TooMany(line) => write!(f, "bad line {line}"),
        }
    }
}

impl Error for ScriptError {}
