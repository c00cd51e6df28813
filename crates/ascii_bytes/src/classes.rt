//! Classes of bytes.
ghost use Rattle.std.specs.Prelude.{◌≡◌, ℕ, Bool};
ghost use Rattle.ascii_bytes.specs.Classes.{is_blank, is_digit, is_hex_digit, is_letter, is_letter_or_digit, is_plain_byte, is_white, is_word_byte};

/// `0` to `9`.
pub fn is_digit(byte: u8) -> bool
    ensures { result ≡ is_digit byte }
{
    matches!(byte, b'0'..=b'9')
}

/// `A` to `Z` and `a` to `z`.
pub fn is_letter(byte: u8) -> bool
    ensures { result ≡ is_letter byte }
{
    matches!(byte, b'A'..=b'Z' | b'a'..=b'z')
}

/// A letter or a digit.
pub fn is_letter_or_digit(byte: u8) -> bool
    ensures { result ≡ is_letter_or_digit byte }
{
    is_letter(byte) || is_digit(byte)
}

/// A hexadecimal digit of either case.
pub fn is_hex_digit(byte: u8) -> bool
    ensures { result ≡ is_hex_digit byte }
{
    matches!(byte, b'0'..=b'9' | b'A'..=b'F' | b'a'..=b'f')
}

/// A space or a tab.
pub fn is_blank(byte: u8) -> bool
    ensures { result ≡ is_blank byte }
{
    byte == b' ' || byte == b'\t'
}

/// White space of XML 1.0 (production 3): a space, a tab, a line feed or a carriage return.
pub fn is_white(byte: u8) -> bool
    ensures { result ≡ is_white byte }
{
    is_blank(byte) || byte == b'\n' || byte == b'\r'
}

/// A letter, a digit, `_` or `-`.
pub fn is_word_byte(byte: u8) -> bool
    ensures { result ≡ is_word_byte byte }
{
    is_letter_or_digit(byte) || byte == b'_' || byte == b'-'
}

/// A letter, a digit, or one of `_`, `-`, `.` and `+`.
pub fn is_plain_byte(byte: u8) -> bool
    ensures { result ≡ is_plain_byte byte }
{
    is_word_byte(byte) || byte == b'.' || byte == b'+'
}

/// A class of bytes, for the calls that go over a text byte by byte.
pub trait ByteClass {
    ghost has: { ℕ → Bool };

    /// Whether the byte is in the class.
    fn has(byte: u8) -> bool
        ensures { result ≡ has byte };
}

/// The class of [`is_blank`].
pub struct Blank;

/// The class of [`is_white`].
pub struct White;

/// The class of [`is_plain_byte`].
pub struct Plain;

impl ByteClass for Blank {
    ghost has = { is_blank };

    fn has(byte: u8) -> bool {
        is_blank(byte)
    }
}

impl ByteClass for White {
    ghost has = { is_white };

    fn has(byte: u8) -> bool {
        is_white(byte)
    }
}

impl ByteClass for Plain {
    ghost has = { is_plain_byte };

    fn has(byte: u8) -> bool {
        is_plain_byte(byte)
    }
}
