//! What `clap` found in words.
ghost use Rattle.std.specs.Prelude.{◌≡◌, option_map};
ghost use Rattle.clap.specs.Words.{all_of, first_of, found_of, rows_of};
ghost use Rattle.word_values.specs.Split.{texts_of};

use clap::ArgMatches;
use word_values::Given;

/// What `clap` found in words.
#[derive(Drop)]
pub(crate) struct Found<'a> {
    matches: ArgMatches<'a>,
}

impl<'a> Found<'a> {
    pub(crate) fn new(matches: ArgMatches<'a>) -> Found<'a>
        ensures { result.matches ≡ matches.entry }
    {
        Found { matches }
    }

    /// The texts at the places of that name, in order, where there are any.
    pub(crate) fn texts(&self, name: &str) -> Option<&[&'a str]>
        ensures { option_map (λ texts. texts_of texts.now) result ≡ all_of name.now (rows_of (found_of self.now.matches)) }
    {
        self.matches.get_raw(name)
    }
}

impl Given for Found<'_> {
    ghost use Rattle.clap.specs.Words.{first_of, found_of, rows_of};

    ghost texts = { λ found name. first_of name (rows_of (found_of found.matches)) };

    fn text(&self, name: &str) -> Option<&str> {
        self.matches.get_str(name)
    }
}
