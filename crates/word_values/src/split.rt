//! Texts with bars between their members.
ghost use Rattle.std.specs.Prelude.{◌≡◌, ◌<◌, ◌∷◌, [], length, IfOk, IfSome, MatchOption};
ghost use Rattle.word_values.specs.Split.{members_of, texts_of};

use std::alloc::{AllocError, Global};

// What stands before and behind the first bar.
fn split_first(text: &str) -> Option<(&str, &str)>
    ensures parts { MatchOption result (members_of text.now ≡ text.now ∷ [])
        (λ parts. members_of text.now ≡ parts.0.now ∷ members_of parts.1.now) }
    ensures shorter { IfSome result (λ parts. length parts.1.now < length text.now) }
{
    text.split_once('|')
}

/// The members of a text, with a bar between two. A text without a bar is one member.
pub(crate) fn members_of(alloc: Global, text: &str) -> Result<Vec<&str>, AllocError>
    ensures { IfOk result (λ members. texts_of members.items ≡ members_of text.now) }
{
    let mut members = Vec::new(alloc);
    let mut rest = text;
    while let Some((member, behind)) = split_first(rest) {
        members.push(member)?;
        rest = behind;
    }
    members.push(rest)?;
    Ok(members)
}
