//! Prefixes.
ghost use Rattle.std.specs.Prelude.{◌≡◌};
ghost use Rattle.std.specs.List.{list_all};
ghost use Rattle.word_values.specs.Prefixes.{is_printable, prefix_given};
ghost use Rattle.word_values.specs.Refusals.{Answers};

use crate::given::{Given, text_or};
use crate::refusals::{WordKind, WordsErr};
use res_base::Text;
use std::alloc::Global;

fn is_printable(text: &[u8]) -> bool
    ensures { result ≡ list_all is_printable text.now }
{
    text.iter().all(|byte| matches!(*byte, b' '..=b'~'))
}

/// What is to stand before each path that is printed.
pub(crate) fn prefix_given<G: Given>(alloc: Global, given: &G) -> Result<Text, WordsErr>
    ensures { Answers (prefix_given (G.texts given.now)) result }
{
    let text = text_or(given, "prefix", "");
    if !is_printable(text.as_bytes()) {
        return Err(WordsErr::BadWords(WordKind::Prefix, 0));
    }
    Ok(Text::of(alloc, text)?)
}
