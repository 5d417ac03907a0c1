// Finds what may come where a line leaves the grammar: asks the grammar's reader about each sign and letter.
use crate::bytes::{cut, ends_in_word, word_start};
use crate::reader::Reader;

// More than the letters tried if any word of the grammar may come.
const TRIALS: usize = 20_000;

// No sign of the grammar: a line goes on with it only if it may with any text.
const ANY: &[u8] = b"\x01";

// Appends a word of the grammar in quotes.
fn put_word(reader: &mut Reader, out: &mut Vec<u8>, lead: &[u8], word: &[u8]) {
    reader.put_all(out, &[lead, b"`", word, b"`\n"]);
}

// Whether a line may go on with the letter.
fn takes_letter(reader: &mut Reader, front: &mut Vec<u8>, letter: u8) -> bool {
    letter.is_ascii_alphabetic() && reader.takes(front, &[letter])
}

// Appends the words of the grammar that begin with the front's text from `start` on and are longer.
//
// This is a depth-first search. The front grows by each letter that a line may go on with. If there is none,
// the word is whole, and the front shrinks by a letter.
fn put_words(
    reader: &mut Reader,
    front: &mut Vec<u8>,
    start: usize,
    lead: &[u8],
    out: &mut Vec<u8>,
) {
    let floor = front.len();
    let mut letter = b'A';
    let mut is_leaf = false;
    for _ in 0..TRIALS {
        if letter > b'z' {
            if is_leaf {
                put_word(reader, out, lead, cut(front, start).1);
            }
            if front.len() <= floor {
                return;
            }
            letter = front.pop().unwrap_or(b'z').saturating_add(1);
            is_leaf = false;
        } else if takes_letter(reader, front, letter) {
            reader.put(front, &[letter]);
            letter = b'A';
            is_leaf = true;
        } else {
            letter += 1;
        }
    }
    front.truncate(floor);
}

// Appends a sign in quotes, with the `=` that completes a relation.
fn put_sign(reader: &mut Reader, front: &mut Vec<u8>, sign: u8, out: &mut Vec<u8>) {
    let pair = [sign, b'='];
    if b"<=>".contains(&sign) && reader.takes(front, &pair) {
        put_word(reader, out, b"", &pair);
    } else if reader.takes(front, &[sign]) {
        put_word(reader, out, b"", &[sign]);
    }
}

// Appends the signs that a line may go on with.
fn put_signs(reader: &mut Reader, front: &mut Vec<u8>, out: &mut Vec<u8>) {
    for sign in 33..127u8 {
        if !sign.is_ascii_alphanumeric() && sign != b'_' {
            put_sign(reader, front, sign, out);
        }
    }
}

// Appends how the word at the end of the front may go on.
fn put_rest(reader: &mut Reader, front: &mut Vec<u8>, out: &mut Vec<u8>) {
    if reader.takes(front, b"_") {
        return reader.put(out, b"more of the name\n");
    }
    if reader.takes(front, b"7") {
        reader.put(out, b"more digits\n");
    }
    let start = word_start(front);
    put_words(reader, front, start, b"", out);
}

// Appends the names, numbers and words that may follow the front.
fn put_starts(reader: &mut Reader, front: &mut Vec<u8>, lead: &[u8], out: &mut Vec<u8>) {
    let is_name = reader.takes(front, b"_");
    if is_name {
        reader.put_all(out, &[lead, b"a name\n"]);
    }
    if reader.takes(front, b"7") {
        reader.put_all(out, &[lead, b"a number\n"]);
    }
    if !is_name {
        let start = front.len();
        put_words(reader, front, start, lead, out);
    }
}

// Appends what may follow a front that ends in a word, and what may follow it after a blank.
fn put_behind_word(reader: &mut Reader, front: &mut Vec<u8>, out: &mut Vec<u8>) {
    put_rest(reader, front, out);
    if !reader.takes(front, b" ") {
        return;
    }
    reader.put(front, b" ");
    if reader.takes(front, ANY) {
        reader.put(out, b"behind a blank any text\n");
    } else {
        put_starts(reader, front, b"behind a blank ", out);
    }
    front.pop();
}

// Appends what may follow the front.
fn put_expected(reader: &mut Reader, front: &mut Vec<u8>, out: &mut Vec<u8>) {
    if reader.takes(front, ANY) {
        return reader.put(out, b"any text\n");
    }
    if ends_in_word(front) {
        put_behind_word(reader, front, out);
    } else {
        put_starts(reader, front, b"", out);
    }
    put_signs(reader, front, out);
    if reader.leaves(front).is_none() {
        reader.put(out, b"the end of the line\n");
    }
}

/// What may come at this place of the line, one on each line: signs and words of the grammar in quotes, and
/// kinds of words.
pub fn expected(reader: &mut Reader, line: &[u8], at: usize) -> Vec<u8> {
    let mut out = Vec::new(reader.alloc());
    let mut front = Vec::new(reader.alloc());
    reader.put(&mut front, cut(line, at).0);
    put_expected(reader, &mut front, &mut out);
    drop(front);
    out
}
