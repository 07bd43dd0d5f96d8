//! The bars of a timeline. Each bar shows the state of a node at a line over a range of commands.
ghost use Rattle.std.specs.Prelude.{◌≡◌, not};
ghost use Rattle.qolb_draw.specs.Svg as svg;
ghost use Rattle.qolb_draw.specs.Shapes as spec;

use crate::symbol::Symbol;

/// The state of a node at a line, which determines the kind of its bar.
#[derive(Clone, Copy, Debug, PartialEq, Eq)]
pub enum Stand {
    /// The node has no open request.
    Away,
    /// The node's request waits behind another.
    Waits,
    /// The node's turn has come, but the node has not looked yet.
    AtTurn,
    /// The node holds the line.
    Holds,
    /// The node has withdrawn its request, and the request has not been passed yet.
    Withdrawn,
}

impl Stand {
    /// Returns the state of a node that has this mark.
    pub fn of(mark: Symbol) -> Stand
        ensures { result ≡ spec.stand_of mark }
    {
        match mark {
            Symbol::Idle | Symbol::Shut | Symbol::Told | Symbol::Gives => Stand::Away,
            Symbol::Waits => Stand::Waits,
            Symbol::AtTurn | Symbol::Takes => Stand::AtTurn,
            Symbol::Holds => Stand::Holds,
            Symbol::Withdrawn => Stand::Withdrawn,
            Symbol::Misuse(stand) => stand,
        }
    }

    /// Returns `true` if this mark shows that a node in this state has left the state.
    pub fn ends_at(self, mark: Symbol) -> bool
        ensures { result ≡ not (spec.is_same (spec.stand_of mark) self) }
    {
        match self {
            Stand::Away => !matches!(
                mark,
                Symbol::Idle
                    | Symbol::Shut
                    | Symbol::Told
                    | Symbol::Gives
                    | Symbol::Misuse(Stand::Away)
            ),
            Stand::Waits => !matches!(mark, Symbol::Waits | Symbol::Misuse(Stand::Waits)),
            Stand::AtTurn => !matches!(
                mark,
                Symbol::AtTurn | Symbol::Takes | Symbol::Misuse(Stand::AtTurn)
            ),
            Stand::Holds => !matches!(mark, Symbol::Holds | Symbol::Misuse(Stand::Holds)),
            Stand::Withdrawn => !matches!(
                mark,
                Symbol::Withdrawn | Symbol::Misuse(Stand::Withdrawn)
            ),
        }
    }

    /// Returns the class of the state's bar.
    pub fn class(self) -> &'static [u8]
        ensures { result.now ≡ svg.class_of self }
    {
        match self {
            Stand::Away => b"away",
            Stand::Waits => b"waits",
            Stand::AtTurn => b"turn",
            Stand::Holds => b"holds",
            Stand::Withdrawn => b"withdrawn",
        }
    }

    /// Returns the words that the bar shows.
    pub fn words(self) -> &'static [u8]
        ensures { result.now ≡ svg.words_of self }
    {
        match self {
            Stand::Away => b" is away",
            Stand::Waits => b" waits",
            Stand::AtTurn => b" may take its turn",
            Stand::Holds => b" holds the line",
            Stand::Withdrawn => b" has withdrawn",
        }
    }
}
