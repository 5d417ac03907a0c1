// Characters of UTF-8 texts. A caret is placed below a character, not below a byte.
use span_text::pieces::word_len;
use tell_mend::cut;

// Whether the byte continues a character.
fn goes_on(b: u8) -> bool {
    b & 0xc0 == 0x80
}

/// The number of characters.
pub fn char_count(text: &[u8]) -> usize {
    let mut count: usize = 0;
    for b in text {
        if !goes_on(*b) {
            count = count.saturating_add(1);
        }
    }
    count
}

/// Where the character after the first `count` begins, or the text's end if it has no more.
pub fn char_place(text: &[u8], count: usize) -> usize {
    let mut before: usize = 0;
    for (place, b) in text.iter().enumerate() {
        if !goes_on(*b) {
            if before == count {
                return place;
            }
            before = before.saturating_add(1);
        }
    }
    text.len()
}

// The number of bytes of the first character.
fn char_len(text: &[u8]) -> usize {
    for (place, b) in text.iter().enumerate() {
        if place > 0 && !goes_on(*b) {
            return place;
        }
    }
    text.len()
}

/// The word or the character at the start of the text.
pub fn first_piece(text: &[u8]) -> &[u8] {
    let len = word_len(text).max(char_len(text));
    cut(text, len).0
}
