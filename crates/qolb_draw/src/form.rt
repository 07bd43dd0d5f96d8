//! The two forms of a picture: plain text, and a timeline in SVG.

/// The form of a picture.
#[derive(Clone, Copy, Debug, PartialEq, Eq)]
pub enum Form {
    /// Plain text.
    Text,
    /// A timeline as an SVG.
    Svg,
}
