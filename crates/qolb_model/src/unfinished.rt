//! What `finish` returns if it could not finish a line: the line, the ports, and the reason.
ghost use Rattle.std.specs.Prelude.{◌≡◌, ℕ};

/// Why a line could not be finished.
#[derive(Clone, Copy, Debug, PartialEq, Eq)]
pub enum FinishError {
    /// The allocator returned no memory.
    Memory,
    /// This node has an open request, or holds the line. It is the smallest such node.
    Unquiet(u64),
    /// This node has no port among those handed in. It is the smallest such node, or 0 if a port is of another line.
    Missing(u64),
}

impl FinishError {
    /// Returns the error's number: 1, 2 or 3.
    pub fn number(&self) -> u8
        ensures memory { self.now ≡ FinishError.Memory → result ≡ 1 }
        ensures unquiet { (node : ℕ) → self.now ≡ FinishError.Unquiet node → result ≡ 2 }
        ensures missing { (node : ℕ) → self.now ≡ FinishError.Missing node → result ≡ 3 }
    {
        match self {
            FinishError::Memory => 1,
            FinishError::Unquiet(_) => 2,
            FinishError::Missing(_) => 3,
        }
    }
}

/// The line and its ports, which a refused `finish` returns with the cause.
#[derive(Drop)]
pub struct Unfinished<L, P> {
    pub why: FinishError,
    pub line: L,
    pub ports: Vec<P>,
}
