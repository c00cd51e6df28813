//! The values of a command's options, in the order in which they are read.
ghost use Rattle.std.specs.Prelude.{◌≡◌, ◌≤◌, false, IfOk, length};
ghost use Rattle.word_values.specs.Fits.{IsFit, is_sample};
ghost use Rattle.word_values.specs.Refusals.{Answers};
ghost use Rattle.word_values.specs.Split.{texts_of};
ghost use Rattle.word_values.specs.Values.{cache_given, job_from, job_given, links_given, roots_given, rules_given, shows_given};

use crate::addresses::addresses_given;
use crate::checks::checks_given;
use crate::choices::{choice_given, output_given};
use crate::coordinates::{Boms, Forced, Roots};
use crate::exclusions::Excludes;
use crate::given::Given;
use crate::job::{Command, Job, Output, Pool};
use crate::members::{list_given, read_members};
use crate::numbers::number_given;
use crate::prefixes::prefix_given;
use crate::refusals::{WordKind, WordsErr};
use cache_policy::Mode;
use reconcile_rules::Rule;
use res_base::{Check, Coord, Exclusion, List, Text};
use resolution::Ask;
use scope_rules::Configuration;
use std::alloc::Global;

/// How versions are chosen.
#[derive(Drop)]
pub(crate) struct Rules {
    configuration: Configuration,
    rule: Rule,
    forced: List<Coord>,
    boms: List<Coord>,
    excludes: List<Exclusion>,
    rounds: u32,
}

/// How files are asked for and checked.
#[derive(Drop)]
pub(crate) struct Links {
    parallel: u32,
    retries: u32,
    checks: List<Check>,
}

/// How the cache and the links are used together.
#[derive(Clone, Copy, Drop)]
pub(crate) struct Cache {
    mode: Mode,
    ttl: u64,
    pool: Pool,
    eager: bool,
    limit: u64,
}

/// What is printed.
#[derive(Drop)]
pub(crate) struct Shows {
    output: Output,
    prefix: Text,
}

fn rules_given<G: Given>(alloc: Global, given: &G) -> Result<Rules, WordsErr>
    ensures { Answers (rules_given (G.texts given.now)) result }
{
    let configuration = choice_given(
        WordKind::Configuration,
        Configuration::Default,
        given,
        "configuration",
    )?;
    let rule = choice_given(WordKind::Rule, Rule::Default, given, "rule")?;
    let forced = list_given::<Forced, G>(alloc, WordKind::Force, given, "force")?;
    let boms = list_given::<Boms, G>(alloc, WordKind::Bom, given, "bom")?;
    let excludes = list_given::<Excludes, G>(alloc, WordKind::Exclude, given, "exclude")?;
    let rounds = number_given(WordKind::Rounds, 1, 1000, 200, given, "rounds")?;
    Ok(Rules {
        configuration,
        rule,
        forced,
        boms,
        excludes,
        rounds: rounds as u32,
    })
}

fn links_given<G: Given>(alloc: Global, given: &G) -> Result<Links, WordsErr>
    ensures { Answers (links_given (G.texts given.now)) result }
{
    let parallel = number_given(WordKind::Parallel, 1, 16, 6, given, "parallel")?;
    let retries = number_given(WordKind::Retries, 0, 3, 1, given, "retries")?;
    let checks = checks_given(alloc, given)?;
    Ok(Links {
        parallel: parallel as u32,
        retries: retries as u32,
        checks,
    })
}

fn cache_given<G: Given>(given: &G) -> Result<Cache, WordsErr>
    ensures { result ≡ cache_given (G.texts given.now) }
{
    let mode = choice_given(WordKind::Mode, Mode::Missing, given, "mode")?;
    let ttl = number_given(WordKind::Ttl, 0, 31_536_000, 86_400, given, "ttl")?;
    let pool = choice_given(WordKind::Pool, Pool::Board, given, "pool")?;
    let eager = choice_given(WordKind::Eager, false, given, "eager")?;
    let limit = number_given(
        WordKind::Limit,
        1,
        4_294_967_296,
        4_294_967_296,
        given,
        "limit",
    )?;
    Ok(Cache {
        mode,
        ttl,
        pool,
        eager,
        limit,
    })
}

fn shows_given<G: Given>(alloc: Global, command: Command, given: &G) -> Result<Shows, WordsErr>
    ensures { Answers (shows_given command (G.texts given.now)) result }
{
    let output = output_given(command, given)?;
    let prefix = prefix_given(alloc, given)?;
    Ok(Shows { output, prefix })
}

// The roots, at least one.
fn roots_given(alloc: Global, roots: &[&str]) -> Result<List<Coord>, WordsErr>
    ensures { Answers (roots_given (texts_of roots.now)) result }
{
    if roots.is_empty() {
        return Err(WordsErr::BadWords(WordKind::Usage, 0));
    }
    read_members::<Roots>(alloc, WordKind::Roots, roots)
}

fn job_from(
    command: Command,
    addresses: List<Text>,
    rules: Rules,
    links: Links,
    cache: Cache,
    shows: Shows,
    roots: List<Coord>,
) -> Job
    requires { length addresses ≤ 16 }
    ensures { result ≡ job_from command addresses rules links cache shows roots }
{
    let ask = Ask {
        roots,
        forced: rules.forced,
        boms: rules.boms,
        excludes: rules.excludes,
        configuration: rules.configuration,
        rule: rules.rule,
        rounds: rules.rounds,
        repos: addresses.len() as u32,
        files: matches!(command, Command::Fetch),
    };
    Job {
        command,
        ask,
        addresses,
        parallel: links.parallel,
        retries: links.retries,
        checks: links.checks,
        mode: cache.mode,
        ttl: cache.ttl,
        pool: cache.pool,
        eager: cache.eager,
        limit: cache.limit,
        output: shows.output,
        prefix: shows.prefix,
        sample: None,
    }
}

/// The job of a command, `resolve` or `fetch`, from the texts of its options and of its roots.
///
/// Values are read in one order, and the first that does not read is refused: `repositories`,
/// `configuration`, `rule`, `force`, `bom`, `exclude`, `rounds`, `parallel`, `retries`, `checks`,
/// `mode`, `ttl`, `pool`, `eager`, `limit`, `output`, `prefix`, and then the roots.
pub fn read_job<G: Given>(
    alloc: Global,
    command: Command,
    given: &G,
    roots: &[&str],
) -> Result<Job, WordsErr>
    ensures value { Answers (job_given command (G.texts given.now) (texts_of roots.now)) result }
    ensures fits { is_sample command ≡ false → IfOk result IsFit }
{
    let addresses = addresses_given(alloc, given)?;
    let rules = rules_given(alloc, given)?;
    let links = links_given(alloc, given)?;
    let cache = cache_given(given)?;
    let shows = shows_given(alloc, command, given)?;
    let roots = roots_given(alloc, roots)?;
    Ok(job_from(command, addresses, rules, links, cache, shows, roots))
}
