//! The classes of bytes in names.

ghost use Rattle.std.specs.Prelude.{◌≡◌};
ghost use Rattle.pom_grammar.specs.Characters.{is_name_start, is_name_byte};

use ascii_bytes::{is_digit, is_letter};

pub(crate) fn is_name_start(byte: u8) -> bool
    ensures { result ≡ is_name_start byte }
{
    is_letter(byte) || matches!(byte, b'_' | b':' | 0x80..=0xff)
}

pub(crate) fn is_name_byte(byte: u8) -> bool
    ensures { result ≡ is_name_byte byte }
{
    is_name_start(byte) || is_digit(byte) || byte == b'-' || byte == b'.'
}
