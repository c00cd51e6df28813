//! Parts of texts, and where a text leaves a word.
ghost use Rattle.std.specs.Prelude.{◌≡◌, ◌≢◌, ◌++◌, ◌↔◌, ℕ, IfNone, IfSome, IsTrue, List};
ghost use Rattle.cache_layout.specs.Places.{IsBefore, common};

/// A text in two parts.
#[derive(Clone, Copy)]
pub(crate) struct Parts<'a> {
    pub first: &'a [u8],
    pub rest: &'a [u8],
}

/// What stands before the first such byte, and the text from there on. Without one the rest is
/// empty.
pub(crate) fn part(text: &[u8], byte: u8) -> Parts<'_>
    ensures whole { text.now ≡ result.first.now ++ result.rest.now }
    ensures before { IsBefore byte result.first.now result.rest.now }
{
    for (i, b) in text.iter().enumerate() {
        if *b == byte {
            return Parts {
                first: &text[..i],
                rest: &text[i..],
            };
        }
    }
    Parts {
        first: text,
        rest: &[],
    }
}

/// How many bytes at the start of a word and of a text are the same.
pub(crate) fn common(word: &[u8], text: &[u8]) -> usize
    ensures { result ≡ common word.now text.now }
{
    let end = word.len().min(text.len());
    for i in 0..end {
        if word[i] != text[i] {
            return i;
        }
    }
    end
}

/// What stands behind a word with which the text begins.
pub(crate) fn behind<'a>(text: &'a [u8], word: &[u8]) -> Option<&'a [u8]>
    ensures rest { IfSome result (λ rest. text.now ≡ word.now ++ rest.now) }
    ensures none { IfNone result ((rest : List ℕ) → text.now ≢ word.now ++ rest) }
{
    text.strip_prefix(word)
}

pub(crate) fn is_word(text: &[u8], word: &[u8]) -> bool
    ensures { IsTrue result ↔ (text.now ≡ word.now) }
{
    text == word
}
