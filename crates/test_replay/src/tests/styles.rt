//! Tests the style of pictures, by reading the pictures themselves: all shapes must be visible on a light page and on a
//! dark page, and no two kinds of bars may look alike.
use crate::tests::rows::{expect, expect_at};
use std::process::Abort;

/// Red, green and blue.
type Colour = [u8; 3];

/// Returns the value of a colour channel, from two hex digits.
fn channel(high: u8, low: u8) -> Option<u8> {
    let value = |digit: u8| u8::try_from(char::from(digit).to_digit(16)?).ok();
    Some(value(high)?.saturating_mul(16).saturating_add(value(low)?))
}

/// Returns the colour that `#rrggbb` or `#rgb` denotes.
fn colour(text: &str) -> Option<Colour> {
    match text.strip_prefix("#")?.as_bytes() {
        [r, g, b] => Some([channel(*r, *r)?, channel(*g, *g)?, channel(*b, *b)?]),
        [r, s, g, h, b, c] => Some([channel(*r, *s)?, channel(*g, *h)?, channel(*b, *c)?]),
        _ => None,
    }
}

/// Returns the brightness of a colour, from 0 to 10,000 times 255 squared. The channels have the weights of the W3C's
/// guidelines for accessible pages, but are squared instead of raised to the power 2.4.
fn brightness(colour: Colour) -> u64 {
    [2_126u64, 7_152, 722]
        .iter()
        .zip(&colour)
        .fold(0, |sum, (weight, channel)| {
            let channel = u64::from(*channel);
            weight
                .saturating_mul(channel.saturating_mul(channel))
                .saturating_add(sum)
        })
}

/// A twentieth of the brightness of white, which the W3C's guidelines add to the brightness of both colours of a
/// contrast.
const GLARE: u64 = 32_512_500;

/// Returns the contrast between two colours in tenths: 10 for equal colours, 210 for black and white.
fn contrast(one: Colour, other: Colour) -> u64 {
    let (a, b) = (brightness(one), brightness(other));
    let (dark, light) = if a < b { (a, b) } else { (b, a) };
    light.saturating_add(GLARE).saturating_mul(10) / dark.saturating_add(GLARE)
}

/// Returns the distance between two colours: the sum of the differences of the channels, at most 765.
fn distance(one: Colour, other: Colour) -> u64 {
    one.iter().zip(&other).fold(
        0u64,
        |sum, (a, b)| sum.saturating_add(u64::from(a.abs_diff(*b))),
    )
}

/// A style sheet: its rules for a light page, and those that differ on a dark page.
#[derive(Clone, Copy)]
pub struct Sheet<'a> {
    by_day: &'a str,
    at_night: &'a str,
}

/// Returns the value that a part of a sheet gives to a property of `what`.
fn said<'a>(part: &'a str, what: &str, property: &str) -> Option<&'a str> {
    let rules = part.lines().find_map(|line| line
        .strip_prefix(what)?
        .strip_prefix("{")?
        .strip_suffix("}"))?;
    rules
        .split(';')
        .find_map(|rule| rule.strip_prefix(property)?.strip_prefix(":"))
}

impl<'a> Sheet<'a> {
    /// Returns the first sheet of a picture, with the text before and after it.
    pub fn first(picture: &'a str) -> Option<(&'a str, Sheet<'a>, &'a str)> {
        let (before, rest) = picture.split_once("<style>\n")?;
        let (by_day, rest) = rest.split_once("@media(prefers-color-scheme:dark){\n")?;
        let (at_night, behind) = rest.split_once("}\n</style>\n")?;
        Some((before, Sheet { by_day, at_night }, behind))
    }

    /// Returns the value of a property on a light page.
    fn said(self, what: &str, property: &str) -> Option<&'a str> {
        said(self.by_day, what, property)
    }

    /// Returns the colour of `what`, on a light page or on a dark one.
    fn colour(self, is_dark: bool, what: &str, property: &str) -> Option<Colour> {
        let night = if is_dark {
            said(self.at_night, what, property)
        } else {
            None
        };
        colour(night.or(self.said(what, property))?)
    }

    /// Returns `true` if the sheet says that something is not displayed or not visible.
    fn hides(self) -> bool {
        ["display", "visibility"].iter().any(|word| self.by_day.contains(*word)
            || self.at_night.contains(*word))
    }

    /// Returns `true` if the sheet hides nothing, and makes only the pointer's targets transparent.
    fn hides_points_alone(self) -> bool {
        let hides = self.hides() || self.at_night.contains("opacity");
        let others = self.by_day.lines().any(|line| line.contains("opacity")
            && !line.starts_with(".point{"));
        let point = (
            self.said(".point", "fill-opacity"),
            self.said(".point", "stroke"),
        );
        !hides && !others && point == (Some("0"), Some("none"))
    }
}

/// What must be visible on the page: the property with its colour, and its minimum contrast to the page in tenths.
static SEEN: [(&str, &str, u64); 11] = [
    ("text", "fill", 70),
    (".lane", "stroke", 12),
    (".waits", "fill", 14),
    (".turn", "fill", 14),
    (".holds", "fill", 25),
    (".withdrawn", "stroke", 25),
    (".arrow", "stroke", 45),
    ("#tip path,#told path", "fill", 45),
    ("#out path,#misuse path", "stroke", 45),
    ("#misuse circle", "stroke", 45),
    ("#call circle", "fill", 70),
];

/// The bars of timelines, from the least to the most visible.
const BARS: [&str; 3] = [".waits", ".turn", ".holds"];

/// What a picture of a step script shows besides.
static SEEN_IN_STEPS: [(&str, &str, u64); 5] = [
    (".rests", "stroke", 12),
    (".releases", "fill", 14),
    (".hand", "fill", 25),
    (".mailbox", "stroke", 25),
    (".home", "fill", 25),
];

/// How labels of signs are aligned and how large they are, that an arrow has its tip, and that shapes which are drawn
/// as lines have a line width.
static RULES: [(&str, &str, &str); 5] = [
    (".small", "text-anchor", "middle"),
    (".small", "font-size", "9px"),
    (".arrow", "marker-end", "url(#tip)"),
    (".arrow", "stroke-width", "2"),
    ("#out path,#misuse path", "stroke-width", "2"),
];

/// Returns `true` if `what` is not filled, on a dark page too, but responds to the pointer inside its outline.
fn is_hollow(sheet: Sheet, what: &str) -> bool {
    sheet.said(what, "fill") == Some("none")
        && said(sheet.at_night, what, "fill").is_none()
        && sheet.said(what, "pointer-events") == Some("all")
}

/// Checks that the colours of a picture are visible, on a light page and on a dark one.
pub fn are_seen<R: Abort>(rt: &R, sheet: Sheet) {
    for is_dark in [false, true] {
        let page = sheet.colour(is_dark, "svg", "background");
        // The sign of a misuse lies on a disc of the page's colour, so that it is seen on each bar.
        let disc = sheet.colour(is_dark, "#misuse circle", "fill");
        expect_at(rt, &("disc", is_dark), disc, page);
        let seen = |what: &str, property: &str| {
            Some(contrast(sheet.colour(is_dark, what, property)?, page?))
        };
        for (what, property, least) in &SEEN {
            expect_at(
                rt,
                &(*what, is_dark),
                seen(what, property) >= Some(*least),
                true,
            );
        }
        for (fainter, clearer) in BARS.iter().zip(BARS.iter().skip(1)) {
            let far = sheet
                .colour(is_dark, fainter, "fill")
                .zip(sheet.colour(is_dark, clearer, "fill"))
                .map(|(a, b)| distance(a, b));
            expect_at(
                rt,
                &(*fainter, is_dark),
                seen(fainter, "fill") < seen(clearer, "fill"),
                true,
            );
            expect_at(rt, &(*fainter, *clearer, is_dark), far >= Some(100), true);
        }
    }
    expect(rt, "hollow", is_hollow(sheet, ".withdrawn"), true);
    expect(rt, "hides points alone", sheet.hides_points_alone(), true);
    for (what, property, value) in &RULES {
        expect_at(
            rt,
            &(*what, *property),
            sheet.said(what, property),
            Some(*value),
        );
    }
}

/// Checks the same for the second sheet of a step picture, on the same page.
pub fn steps_are_seen<R: Abort>(rt: &R, sheet: Sheet, of_steps: Sheet) {
    for is_dark in [false, true] {
        let page = sheet.colour(is_dark, "svg", "background");
        for (what, property, least) in &SEEN_IN_STEPS {
            let seen = of_steps
                .colour(is_dark, what, property)
                .zip(page)
                .map(|(a, b)| contrast(a, b));
            expect_at(rt, &(*what, is_dark), seen >= Some(*least), true);
        }
        for bar in &BARS {
            let far = sheet
                .colour(is_dark, bar, "fill")
                .zip(of_steps.colour(is_dark, ".releases", "fill"))
                .map(|(a, b)| distance(a, b));
            expect_at(rt, &(*bar, is_dark), far >= Some(100), true);
        }
    }
    expect(rt, "hides something", of_steps.hides(), false);
    expect(rt, "hollow", is_hollow(of_steps, ".rests"), true);
    expect(rt, "hollow", is_hollow(of_steps, ".mailbox"), true);
    expect(
        rt,
        "a rule",
        of_steps.said(".home", "fill-opacity"),
        Some(".4"),
    );
    expect(rt, "a rule", of_steps.said(".at", "font-size"), Some("9px"));
    // A point's name is inside its bar, which responds to the pointer. On a dark page, the name has an outline as dark
    // as the page.
    expect(
        rt,
        "a rule",
        of_steps.said(".at", "pointer-events"),
        Some("none"),
    );
    let rim = said(of_steps.at_night, ".at", "stroke").and_then(colour);
    expect(rt, "rim", rim, sheet.colour(true, "svg", "background"));
}

/// The sign of a node that is told that the line is closed: a diamond of twelve pixels.
const DIAMOND: &str = "<path d='M0 -6L6 0L0 6L-6 0z'/>";

/// The signs of commands.
const SIGNS: [&str; 4] = ["call", "out", "told", "misuse"];

/// Returns the shape of a sign, which is on top of the area that responds to the pointer.
fn shape_of<'a>(signs: &'a str, name: &str) -> Option<&'a str> {
    let sign = signs.lines().find_map(|line| {
        line.strip_prefix("<g id='")?
            .strip_prefix(name)?
            .strip_prefix("'><rect class='point' ")?
            .strip_suffix("</g>")
    })?;
    sign.split_once("/>").map(|parts| parts.1)
}

/// Returns `true` if a shape is centred: it is not moved, and none of its numbers has two digits.
fn is_in_the_middle(shape: &str) -> bool {
    let is_moved = shape.contains("cx=") || shape.contains("cy=") || shape.contains("transform");
    let is_far = shape.bytes().zip(shape.bytes().skip(1)).any(|(one, next)| one.is_ascii_digit()
        && next.is_ascii_digit());
    !is_moved && !is_far
}

/// Checks that the signs can be distinguished. Each sign has a centred shape that reaches three pixels from its middle,
/// no two signs have the same shape, and an arrow has a tip.
pub fn signs_differ<R: Abort>(rt: &R, signs: &str) {
    for (place, name) in SIGNS.iter().enumerate() {
        let shape = shape_of(signs, name);
        let is_large = shape.is_some_and(|it| it.bytes().any(|byte| matches!(byte, b'3'..=b'9')));
        expect(rt, name, is_large, true);
        expect(rt, name, shape.is_some_and(is_in_the_middle), true);
        for other in SIGNS.iter().take(place) {
            expect_at(rt, &(*name, *other), shape != shape_of(signs, other), true);
        }
    }
    expect(rt, "told", shape_of(signs, "told"), Some(DIAMOND));
    expect(rt, "the tip", signs.contains("<marker id='tip' "), true);
}
