// Fractions, read exactly, and written as decimals.
use std::alloc::AllocError;

// The most digits of a part.
const DIGITS: usize = 13;

// The thousandths of a unit: an attribute has three decimals.
const UNIT: u128 = 1000;

/// A fraction, or a whole number over 1.
#[derive(Clone, Copy)]
pub struct Fraction {
    pub is_negative: bool,
    pub num: u64,
    pub den: u64,
}

// The number that the text writes, if it has digits alone, and not too many.
fn digits(text: &str) -> Option<u64> {
    if text.is_empty() || text.len() > DIGITS || !text.bytes().all(|b| b.is_ascii_digit()) {
        return None;
    }
    text.parse::<u64>().ok()
}

// A fraction without a sign, as its two parts.
fn parts(text: &str) -> Option<(u64, u64)> {
    match text.split_once('/') {
        Some((num, den)) => Some((digits(num)?, digits(den)?)),
        None => Some((digits(text)?, 1)),
    }
}

/// The fraction that the text writes, as `p/q` or as `p`, of at most 13 digits each, where q isn't 0.
pub fn read_fraction(text: &str) -> Option<Fraction> {
    let size = text.strip_prefix('-').unwrap_or(text);
    let (num, den) = parts(size)?;
    if den == 0 {
        return None;
    }
    Some(Fraction {
        is_negative: size.len() < text.len(),
        num,
        den,
    })
}

/// Appends the fraction as an attribute: a whole number, or one with three decimals, rounded to the nearest,
/// a half away from 0.
pub fn put_attribute(out: &mut String, word: &str, f: Fraction) -> Result<(), AllocError> {
    let den = u128::from(f.den.max(1));
    let thousandths = (2 * UNIT * u128::from(f.num) + den) / (2 * den);
    let sign = if f.is_negative && thousandths > 0 {
        "-"
    } else {
        ""
    };
    let whole = thousandths / UNIT;
    if u128::from(f.num) % den == 0 {
        write!(out, " {word}=\"{sign}{whole}\"")
    } else {
        let decimals = thousandths % UNIT;
        write!(out, " {word}=\"{sign}{whole}.{decimals:03}\"")
    }
}
