// The line of a frame.
use crate::fraction::{Fraction, read_fraction};

/// A view's name, and where it stands.
#[derive(Clone, Copy)]
pub struct Frame<'a> {
    pub name: &'a str,
    pub left: Fraction,
    pub top: Fraction,
    pub width: Fraction,
    pub height: Fraction,
}

// Whether the text has letters, digits and `_` alone, no digit first.
fn is_name(text: &str) -> bool {
    text.bytes().all(|b| b.is_ascii_alphanumeric() || b == b'_')
        && text.bytes().next().is_some_and(|b| !b.is_ascii_digit())
}

// Two fractions with a space between them.
fn point(text: &str) -> Option<(Fraction, Fraction)> {
    let (left, top) = text.split_once(' ')?;
    Some((read_fraction(left)?, read_fraction(top)?))
}

// Two fractions with a space between them that aren't negative.
fn sizes(text: &str) -> Option<(Fraction, Fraction)> {
    match point(text) {
        Some((width, height)) if !width.is_negative && !height.is_negative => Some((width, height)),
        _ => None,
    }
}

// The frame of this name at these numbers.
fn frame_at<'a>(name: &'a str, numbers: &str) -> Option<Frame<'a>> {
    let (left, rest) = numbers.split_once(' ')?;
    let (top, rest) = rest.split_once(' ')?;
    let (width, height) = sizes(rest)?;
    Some(Frame {
        name,
        left: read_fraction(left)?,
        top: read_fraction(top)?,
        width,
        height,
    })
}

/// The frame that the line says, if it says one whose width and height aren't negative.
pub fn read_frame(line: &str) -> Option<Frame<'_>> {
    match line.strip_prefix("frame ")?.split_once(' ') {
        Some((name, numbers)) if is_name(name) => frame_at(name, numbers),
        _ => None,
    }
}
