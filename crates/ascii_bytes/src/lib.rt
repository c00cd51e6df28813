//! Bytes of ASCII: their classes, texts trimmed and cut at bytes, and the digits of numbers.
#![tactic(auto)]

mod classes;
mod digits;
mod parts;

pub use classes::{
    Blank, ByteClass, Plain, White, is_blank, is_digit, is_hex_digit, is_letter,
    is_letter_or_digit, is_plain_byte, is_white, is_word_byte,
};
pub use digits::{decimal, decimal_digit, hex_digit};
pub use parts::{class_end, cut_at, trim_end, trim_start};
