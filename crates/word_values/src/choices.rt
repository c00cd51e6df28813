//! Choices by name.
ghost use Rattle.std.specs.Prelude.{◌≡◌, ℕ, List, Option};
ghost use Rattle.word_values.specs.Choices.{choice_given, configuration_in, fetch_output, mode_in, output_given, output_in, pool_in, resolve_output, rule_in, switch_in};

use crate::given::Given;
use crate::job::{Command, Output, Pool};
use crate::refusals::{WordKind, WordsErr};
use cache_policy::Mode;
use reconcile_rules::Rule;
use scope_rules::Configuration;

/// A choice whose cases have names in words.
pub(crate) trait Named {
    ghost named: { List ℕ → Option Self };

    /// The case of that name.
    fn named(text: &str) -> Option<Self>
    where
        Self: Sized,
        ensures { result ≡ named text.now };
}

impl Named for Configuration {
    ghost named = { configuration_in };

    fn named(text: &str) -> Option<Configuration> {
        match text {
            "default" => Some(Configuration::Default),
            "compile" => Some(Configuration::Compile),
            "runtime" => Some(Configuration::Runtime),
            _ => None,
        }
    }
}

impl Named for Rule {
    ghost named = { rule_in };

    fn named(text: &str) -> Option<Rule> {
        match text {
            "default" => Some(Rule::Default),
            "relaxed" => Some(Rule::Relaxed),
            "strict" => Some(Rule::Strict),
            "semver" => Some(Rule::Semver),
            _ => None,
        }
    }
}

impl Named for Mode {
    ghost named = { mode_in };

    fn named(text: &str) -> Option<Mode> {
        match text {
            "missing" => Some(Mode::Missing),
            "offline" => Some(Mode::Offline),
            "refresh" => Some(Mode::Refresh),
            _ => None,
        }
    }
}

impl Named for Pool {
    ghost named = { pool_in };

    fn named(text: &str) -> Option<Pool> {
        match text {
            "board" => Some(Pool::Board),
            "wave" => Some(Pool::Wave),
            _ => None,
        }
    }
}

impl Named for bool {
    ghost named = { switch_in };

    fn named(text: &str) -> Option<bool> {
        match text {
            "on" => Some(true),
            "off" => Some(false),
            _ => None,
        }
    }
}

/// The case that is given for an option, or the one that stands where none is.
pub(crate) fn choice_given<T: Named + Copy, G: Given>(
    kind: WordKind,
    usual: T,
    given: &G,
    name: &str,
) -> Result<T, WordsErr>
    ensures { result ≡ choice_given kind usual T.named (G.texts given.now name.now) }
{
    let Some(text) = given.text(name) else {
        return Ok(usual);
    };
    match T::named(text) {
        Some(case) => Ok(case),
        None => Err(WordsErr::BadWords(kind, 0)),
    }
}

fn resolve_output(text: &str) -> Option<Output>
    ensures { result ≡ resolve_output text.now }
{
    match text {
        "plain" => Some(Output::Plain),
        "tree" => Some(Output::Tree),
        "json" => Some(Output::Json),
        _ => None,
    }
}

fn fetch_output(text: &str) -> Option<Output>
    ensures { result ≡ fetch_output text.now }
{
    match text {
        "plain" => Some(Output::Plain),
        "classpath" => Some(Output::Classpath),
        "json" => Some(Output::Json),
        _ => None,
    }
}

// What a command prints, by its name in words.
fn output_in(command: Command, text: &str) -> Option<Output>
    ensures { result ≡ output_in command text.now }
{
    match command {
        Command::Resolve => resolve_output(text),
        Command::Fetch => fetch_output(text),
        Command::Sample => None,
    }
}

/// What a command is told to print.
pub(crate) fn output_given<G: Given>(command: Command, given: &G) -> Result<Output, WordsErr>
    ensures { result ≡ output_given command (G.texts given.now) }
{
    let Some(text) = given.text("output") else {
        return Ok(Output::Plain);
    };
    match output_in(command, text) {
        Some(output) => Ok(output),
        None => Err(WordsErr::BadWords(WordKind::Output, 0)),
    }
}
