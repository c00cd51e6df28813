//! Texts and runs of bytes as words.
ghost use Rattle.std.specs.Prelude.{◌≡◌, ℕ, List, IfOk, MatchResult, string_bytes};
ghost use Rattle.std.specs.Str.{IsUtf8};
ghost use Rattle.hex.specs.Hex.{IsBytes};
ghost use Rattle.case_words.specs.HexWord.{hex_word as hex_word_of};

use crate::case_error::CaseError;
use res_base::Text;
use std::alloc::{AllocError, Global};

/// The word of some bytes.
pub fn hex_word(alloc: Global, bytes: &[u8]) -> Result<String, AllocError>
    ensures { IfOk result (λ word. string_bytes word ≡ hex_word_of bytes.now) }
{
    if bytes.is_empty() {
        String::from_str(alloc, "-")
    } else {
        hex::encode(alloc, bytes)
    }
}

fn decoded(alloc: Global, word: &str) -> Result<Vec<u8>, CaseError>
    ensures { (bytes : List ℕ) → IsBytes bytes → hex_word_of bytes ≡ word.now → MatchResult result (λ made. made.items ≡ bytes) (λ e. e ≡ CaseError.NoMemory) }
{
    if word == "-" {
        return Ok(Vec::new(alloc));
    }
    Ok(hex::decode(alloc, word)?)
}

/// The bytes whose word this is. A word with capital letters is that of no bytes.
pub fn bytes_of(alloc: Global, word: &str) -> Result<Vec<u8>, CaseError>
    ensures read { IfOk result (λ bytes. hex_word_of bytes.items ≡ word.now) }
    ensures inverse { (bytes : List ℕ) → IsBytes bytes → hex_word_of bytes ≡ word.now → MatchResult result (λ made. made.items ≡ bytes) (λ e. e ≡ CaseError.NoMemory) }
{
    let bytes = decoded(alloc, word)?;
    if hex_word(alloc, bytes.as_slice())?.as_str() != word {
        return Err(CaseError::OutOfForm);
    }
    Ok(bytes)
}

/// The text whose word this is.
pub fn text_of(alloc: Global, word: &str) -> Result<Text, CaseError>
    ensures read { IfOk result (λ text. hex_word_of text ≡ word.now) }
    ensures inverse { (text : List ℕ) → IsBytes text → IsUtf8 text → hex_word_of text ≡ word.now → MatchResult result (λ made. made ≡ text) (λ e. e ≡ CaseError.NoMemory) }
{
    match String::from_utf8(bytes_of(alloc, word)?) {
        Ok(text) => Ok(Text::from_string(text)),
        Err(_) => Err(CaseError::OutOfForm),
    }
}
