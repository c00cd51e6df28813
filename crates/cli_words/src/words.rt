//! The words of a command.
ghost use Rattle.std.specs.Prelude.{◌≡◌, false, map, string_bytes, IfOk};
ghost use Rattle.cli_words.specs.Words.{command_in, command_named, job_in, job_of_command, options_job, sample_job};
ghost use Rattle.word_values.specs.Fits.{IsFit, is_sample};
ghost use Rattle.word_values.specs.Refusals.{Answers};

use crate::found::Found;
use crate::reading::matches_in;
use crate::tables::{resolve_command, sample_command};
use std::alloc::Global;
use word_values::{Command, Given, Job, WordKind, WordsErr, read_job, read_sample};

// The job of `resolve` or `fetch`.
fn options_job(alloc: Global, command: Command, words: &[String]) -> Result<Job, WordsErr>
    ensures value { Answers (options_job command (map string_bytes words.now)) result }
    ensures fits { is_sample command ≡ false → IfOk result IsFit }
{
    let command_words = resolve_command(alloc)?;
    let matches = matches_in(command_words, words)?;
    let found = Found::new(matches);
    match found.texts("roots") {
        Some(roots) => read_job(alloc, command, &found, roots),
        None => read_job(alloc, command, &found, &[]),
    }
}

fn sample_job(alloc: Global, words: &[String]) -> Result<Job, WordsErr>
    ensures value { Answers (sample_job (map string_bytes words.now)) result }
    ensures fits { IfOk result IsFit }
{
    let command_words = sample_command(alloc)?;
    let matches = matches_in(command_words, words)?;
    let found = Found::new(matches);
    read_sample(alloc, found.text("seed"), found.text("count"))
}

fn command_named(name: &str) -> Option<Command>
    ensures { result ≡ command_named name.now }
{
    match name {
        "resolve" => Some(Command::Resolve),
        "fetch" => Some(Command::Fetch),
        "sample" => Some(Command::Sample),
        _ => None,
    }
}

// The command that the first word names, of words that are not too many.
#[tactic(auto, using(crate::proofs::First::too_many, crate::proofs::First::no_word, crate::proofs::First::first_word))]
fn command_in(words: &[String]) -> Result<Command, WordsErr>
    ensures { result ≡ command_in (map string_bytes words.now) }
{
    if words.len() > 4096 {
        return Err(WordsErr::BadWords(WordKind::TooMany, 4096));
    }
    let Some(name) = words.first() else {
        return Err(WordsErr::BadWords(WordKind::NoCommand, 0));
    };
    match command_named(name.as_str()) {
        Some(command) => Ok(command),
        None => Err(WordsErr::BadWords(WordKind::UnknownCommand, 0)),
    }
}

fn job_of_command(alloc: Global, command: Command, words: &[String]) -> Result<Job, WordsErr>
    ensures value { Answers (job_of_command command (map string_bytes words.now)) result }
    ensures fits { IfOk result IsFit }
{
    match command {
        Command::Resolve => options_job(alloc, Command::Resolve, words),
        Command::Fetch => options_job(alloc, Command::Fetch, words),
        Command::Sample => sample_job(alloc, words),
    }
}

/// The job that the words of a command ask for. The first word is the command's name, and the
/// others are read by `clap` as one simple command (`docs/FORMATS.md`, "Words").
///
/// # Errors
///
/// The first refusal, by kind and place: of the number of words, of the command's name, of the
/// words as a whole by `clap` (`Usage`), and then of the values in their order. `NoMemory` where
/// there is no memory.
pub fn job_of(alloc: Global, words: &[String]) -> Result<Job, WordsErr>
    ensures value { Answers (job_in (map string_bytes words.now)) result }
    ensures fits { IfOk result IsFit }
{
    let command = command_in(words)?;
    job_of_command(alloc, command, words)
}
