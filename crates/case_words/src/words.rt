//! The words of a line.
ghost use Rattle.std.specs.Prelude.{◌≡◌, ◌==◌, ◌<◌, ◌∷◌, [], map, length, IfOk, IfSome, MatchOption, string_bytes};
ghost use Rattle.std.specs.List.{slice_split};
ghost use Rattle.case_words.specs.Words.{joined as joined_texts, pieces_of as pieces_in, texts_of};

use std::alloc::{AllocError, Global};

/// What stands before and behind the first separator, an ASCII character.
pub fn split_first(text: &str, separator: char) -> Option<(&str, &str)>
    requires { separator < 128 }
    ensures parts { MatchOption result (pieces_in separator text.now ≡ text.now ∷ []) (λ parts. pieces_in separator text.now ≡ parts.0.now ∷ pieces_in separator parts.1.now) }
    ensures shorter { IfSome result (λ parts. length parts.1.now < length text.now) }
{
    text.split_once(separator)
}

/// What stands between the separators, an ASCII character. The text itself where it has none.
pub fn pieces_of(alloc: Global, text: &str, separator: char) -> Result<Vec<&str>, AllocError>
    requires { separator < 128 }
    ensures { IfOk result (λ pieces. texts_of pieces.items ≡ pieces_in separator text.now) }
{
    let mut pieces = Vec::new(alloc);
    let mut rest = text;
    while let Some((piece, behind)) = split_first(rest, separator) {
        pieces.push(piece)?;
        rest = behind;
    }
    pieces.push(rest)?;
    Ok(pieces)
}

/// The words in order, with the separator between two.
pub fn joined(alloc: Global, words: &[String], separator: &str) -> Result<String, AllocError>
    ensures { IfOk result (λ line. string_bytes line ≡ joined_texts separator.now (map string_bytes words.now)) }
{
    words.join(alloc, separator)
}
