// Classes of bytes.
ghost use Rattle.std.specs.Prelude.{◌≡◌};
ghost use Rattle.span_text.specs.Classes as class;

/// A space or a tab.
pub fn is_space(b: u8) -> bool
    ensures { result ≡ class.is_space b }
{
    b == b' ' || b == b'\t'
}

/// A digit from 0 to 9.
pub fn is_digit(b: u8) -> bool
    ensures { result ≡ class.is_digit b }
{
    b.is_ascii_digit()
}

/// A letter or `_`.
pub fn is_letter(b: u8) -> bool
    ensures { result ≡ class.is_letter b }
{
    b.is_ascii_alphabetic() || b == b'_'
}

/// A letter, a digit or `_`.
pub fn is_word(b: u8) -> bool
    ensures { result ≡ class.is_word b }
{
    is_letter(b) || is_digit(b)
}
