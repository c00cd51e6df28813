//! The job of `sample`.
ghost use Rattle.std.specs.Prelude.{◌≡◌, ◌≤◌, IfOk, option_map};
ghost use Rattle.word_values.specs.Fits.{IsFit};
ghost use Rattle.word_values.specs.Refusals.{Answers};
ghost use Rattle.word_values.specs.Samples.{place_given, sample_ask, sample_given, sample_job, sample_root};

use crate::job::{Command, Job, Output, Pool};
use crate::numbers::number_between;
use crate::refusals::{WordKind, WordsErr};
use cache_policy::Mode;
use reconcile_rules::Rule;
use res_base::{Check, Coord, List, Module, NoMemory, Text};
use resolution::Ask;
use scope_rules::Configuration;
use std::alloc::Global;

// The number at a place that is never left out.
fn place_given(kind: WordKind, least: u64, most: u64, text: Option<&str>) -> Result<u64, WordsErr>
    ensures value { result ≡ place_given kind least most (option_map (λ text. text.now) text.entry) }
    ensures least { IfOk result (λ number. least ≤ number) }
    ensures most { IfOk result (λ number. number ≤ most) }
{
    let Some(text) = text else {
        return Err(WordsErr::BadWords(WordKind::Usage, 0));
    };
    match number_between(least, most, text) {
        Some(number) => Ok(number),
        None => Err(WordsErr::BadWords(kind, 0)),
    }
}

fn sample_root(alloc: Global) -> Result<Coord, NoMemory>
    ensures { IfOk result (λ root. root ≡ sample_root) }
{
    Ok(Coord {
        module: Module {
            org: Text::of(alloc, "s.m")?,
            name: Text::of(alloc, "m0")?,
        },
        version: Text::of(alloc, "1.0")?,
    })
}

fn sample_ask(alloc: Global) -> Result<Ask, NoMemory>
    ensures { IfOk result (λ ask. ask ≡ sample_ask) }
{
    let mut roots = List::new(alloc);
    roots.push(sample_root(alloc)?)?;
    Ok(Ask {
        roots,
        forced: List::new(alloc),
        boms: List::new(alloc),
        excludes: List::new(alloc),
        configuration: Configuration::Default,
        rule: Rule::Default,
        rounds: 1000,
        repos: 1,
        files: false,
    })
}

fn sample_job(alloc: Global, seed: u64, count: u32) -> Result<Job, NoMemory>
    ensures { IfOk result (λ job. job ≡ sample_job seed count) }
{
    let ask = sample_ask(alloc)?;
    let mut addresses = List::new(alloc);
    addresses.push(Text::of(alloc, "http://sample")?)?;
    let mut checks = List::new(alloc);
    checks.push(Check::NoCheck)?;
    Ok(Job {
        command: Command::Sample,
        ask,
        addresses,
        parallel: 6,
        retries: 1,
        checks,
        mode: Mode::Missing,
        ttl: 86_400,
        pool: Pool::Board,
        eager: false,
        limit: 4_294_967_296,
        output: Output::Plain,
        prefix: Text::new(alloc),
        sample: Some((seed, count)),
    })
}

/// The job of `sample`, from the texts of its seed, which fits 64 bits, and of its count, 1 to
/// 10,000.
pub fn read_sample(alloc: Global, seed: Option<&str>, count: Option<&str>) -> Result<Job, WordsErr>
    ensures value { Answers
        (sample_given (option_map (λ text. text.now) seed.entry) (option_map (λ text. text.now) count.entry))
        result }
    ensures fits { IfOk result IsFit }
{
    let seed = place_given(WordKind::Seed, 0, u64::MAX, seed)?;
    let count = place_given(WordKind::Count, 1, 10_000, count)?;
    let job = sample_job(alloc, seed, count as u32)?;
    Ok(job)
}
