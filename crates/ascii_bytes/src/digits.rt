//! Digits and the numbers that they stand for.
ghost use Rattle.std.specs.Prelude.{◌≡◌, ◌≤◌, true, length};
ghost use Rattle.std.specs.List.{list_all};
ghost use Rattle.ascii_bytes.specs.Classes.{is_digit};
ghost use Rattle.ascii_bytes.specs.Digits.{decimal, decimal_digit, hex_digit};

use crate::classes::is_digit;

/// The value of a decimal digit.
pub fn decimal_digit(byte: u8) -> Option<u8>
    ensures { result ≡ decimal_digit byte }
{
    if is_digit(byte) {
        Some(byte - b'0')
    } else {
        None
    }
}

/// The value of a hexadecimal digit of either case.
pub fn hex_digit(byte: u8) -> Option<u8>
    ensures { result ≡ hex_digit byte }
{
    match byte {
        b'0'..=b'9' => Some(byte - b'0'),
        b'A'..=b'F' => Some(byte - b'A' + 10),
        b'a'..=b'f' => Some(byte - b'a' + 10),
        _ => None,
    }
}

/// The number of which these are the decimal digits, at most 19.
pub fn decimal(text: &[u8]) -> u64
    requires few { length text.now ≤ 19 }
    requires digits { list_all is_digit text.now ≡ true }
    ensures { result ≡ decimal text.now }
{
    let mut number = 0u64;
    for byte in text {
        number = number * 10 + (*byte - b'0') as u64;
    }
    number
}
