ghost use Rattle.std.specs.Prelude.{◌≡◌, ℕ};
ghost use Rattle.line_lanes.specs.Line.{zeros};

/// A line: 64 bytes, which are the unit that nodes share.
///
/// The field is public, so that each caller proves the length without an annotation.
#[derive(Clone, Copy, Debug, PartialEq, Eq)]
pub struct Line64 {
    pub bytes: [u8; 64],
}

/// A set of places of a line: bit k is set if byte k is in the set.
#[derive(Clone, Copy, Debug, PartialEq, Eq)]
pub struct Mask(pub u64);

impl Line64 {
    /// Returns the line of zeros.
    pub fn zero() -> Line64
        ensures { result.bytes ≡ zeros }
    {
        Line64 { bytes: [0; 64] }
    }

    /// Returns the line of these bytes.
    pub fn from_bytes(bytes: [u8; 64]) -> Line64
        ensures { result.bytes ≡ bytes }
    {
        Line64 { bytes }
    }

    /// Returns the bytes of the line.
    pub fn to_bytes(&self) -> [u8; 64]
        ensures { result ≡ self.now.bytes }
    {
        self.bytes
    }
}
