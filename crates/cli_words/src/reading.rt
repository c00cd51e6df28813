//! Words that are read by `clap`.
ghost use Rattle.std.specs.Prelude.{◌≡◌, true, map, string_bytes};
ghost use Rattle.clap.specs.Words.{app_of, is_simple_and_free};
ghost use Rattle.cli_words.specs.Reading.{Finds, IsRefusalOf};

use clap::error::ErrorKind;
use clap::{ArgMatches, Command};
use word_values::{WordKind, WordsErr};

// Why words are refused that `clap` refuses for a reason of that kind.
fn refusal_of(kind: ErrorKind) -> WordsErr
    ensures { IsRefusalOf kind result }
{
    match kind {
        ErrorKind::OutOfMemory => WordsErr::NoMemory,
        _ => WordsErr::BadWords(WordKind::Usage, 0),
    }
}

/// Reads words, of which the first is the command's name.
pub(crate) fn matches_in<'a>(
    command: Command<'a>,
    words: &'a [String],
) -> Result<ArgMatches<'a>, WordsErr>
    requires { is_simple_and_free (app_of command) ≡ true }
    ensures { Finds (app_of command.entry) (map string_bytes words.entry.now) result }
{
    match command.try_get_matches_from(words) {
        Ok(matches) => Ok(matches),
        Err(error) => Err(refusal_of(error.kind())),
    }
}
