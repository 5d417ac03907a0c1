// Lines that pin an attribute which `diagnose` found ambiguous.
use frac_core::{Frac, Wide};
use span_text::NUMBER_DIGITS;
use tell_mend::Reader;

// No number has more digits after its first.
const MOST_DIGITS: usize = 20;

/// The number of digits after the first.
pub fn digits_behind(number: i64) -> usize {
    let mut left = number.unsigned_abs();
    for count in 0..MOST_DIGITS {
        if left <= 9 {
            return count;
        }
        left /= 10;
    }
    MOST_DIGITS
}

// Appends a line that keeps the attribute at a value. A fraction is kept by a multiplier. If a script can't
// write the value's parts, it only says that a line should name the attribute.
fn put_kept(reader: &mut Reader, out: &mut Vec<u8>, attr: &str, value: Frac) {
    let (num, den) = (value.num(), value.den());
    if digits_behind(num) >= NUMBER_DIGITS || digits_behind(den) >= NUMBER_DIGITS {
        return reader.put(out, b"a line that names it");
    }
    reader.put(out, b"constrain pin ");
    if den != 1 {
        reader.put_number(out, den);
        reader.put(out, b"*");
    }
    reader.put_all(out, &[attr.as_bytes(), b" == "]);
    reader.put_number(out, num);
    reader.put(out, b" @50");
}

/// Appends a line that pins an attribute with this value. The window gets a size, another size becomes as
/// small as its content, an edge stays.
pub fn put_pin(reader: &mut Reader, out: &mut Vec<u8>, attr: &str, value: Frac) {
    if attr == "window.width" || attr == "window.height" {
        reader.put(out, b"window WIDTH HEIGHT");
    } else if attr.ends_with(".width") || attr.ends_with(".height") {
        put_kept(reader, out, attr, Frac::zero());
    } else {
        put_kept(reader, out, attr, value);
    }
}
