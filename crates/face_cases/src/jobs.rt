//! What words ask for.
//!
//! - `words H..`: the words of a command, from its name on. The answer is the refusal, KIND and
//!   PLACE, or `ok` and then ` NAME=VALUE` for each value of the job: `command`, `address` (H) for
//!   each, `configuration`, `rule`, `force` and `bom` (`ORG:NAME:VERSION`) for each, `exclude`
//!   (`ORG:NAME`) for each, `rounds`, `parallel`, `retries`, `checks` (with bars between them),
//!   `mode`, `ttl`, `pool`, `eager` (`on` or `off`), `limit`, `output`, `prefix` (H), and `root`
//!   for each. Of `sample` they are `command`, `seed` and `count`.
use cache_policy::Mode;
use case_words::case_error::CaseError;
use case_words::hex_word::{hex_word, text_of};
use case_words::names::{coord_word, rule_word};
use case_words::words::joined;
use cli_words::{Command, Job, Output, Pool, WordsErr, job_of};
use reconcile_rules::Rule;
use res_base::{Check, Coord, Exclusion, List, Text};
use resolution::Ask;
use scope_rules::Configuration;
use std::alloc::{AllocError, Global};

fn words_of(alloc: Global, fields: &[&str]) -> Result<Vec<String>, CaseError> {
    let mut words = Vec::new(alloc);
    for field in fields {
        words.push(text_of(alloc, field)?.into_string())?;
    }
    Ok(words)
}

fn configuration_text(configuration: Configuration) -> &'static str {
    match configuration {
        Configuration::Default => "default",
        Configuration::Compile => "compile",
        Configuration::Runtime => "runtime",
    }
}

fn rule_text(rule: Rule) -> &'static str {
    match rule {
        Rule::Default => "default",
        Rule::Relaxed => "relaxed",
        Rule::Strict => "strict",
        Rule::Semver => "semver",
    }
}

fn check_text(check: Check) -> &'static str {
    match check {
        Check::Sha1 => "sha1",
        Check::Md5 => "md5",
        Check::Sha256 => "sha256",
        Check::NoCheck => "none",
    }
}

fn mode_text(mode: Mode) -> &'static str {
    match mode {
        Mode::Missing => "missing",
        Mode::Offline => "offline",
        Mode::Refresh => "refresh",
    }
}

fn pool_text(pool: Pool) -> &'static str {
    match pool {
        Pool::Board => "board",
        Pool::Wave => "wave",
    }
}

fn output_text(output: Output) -> &'static str {
    match output {
        Output::Plain => "plain",
        Output::Tree => "tree",
        Output::Json => "json",
        Output::Classpath => "classpath",
    }
}

fn switch_text(is_on: bool) -> &'static str {
    if is_on { "on" } else { "off" }
}

fn put(alloc: Global, line: &mut Vec<String>, name: &str, value: &str) -> Result<(), AllocError> {
    let pair = format!(in alloc; "{name}={value}")?;
    line.push(pair)?;
    Ok(())
}

fn put_number(
    alloc: Global,
    line: &mut Vec<String>,
    name: &str,
    value: u64,
) -> Result<(), AllocError> {
    let text = format!(in alloc; "{value}")?;
    put(alloc, line, name, text.as_str())
}

fn put_bytes(
    alloc: Global,
    line: &mut Vec<String>,
    name: &str,
    bytes: &[u8],
) -> Result<(), AllocError> {
    let word = hex_word(alloc, bytes)?;
    put(alloc, line, name, word.as_str())
}

fn put_coords(
    alloc: Global,
    line: &mut Vec<String>,
    name: &str,
    coords: &[Coord],
) -> Result<(), AllocError> {
    for coord in coords {
        let word = coord_word(alloc, coord)?;
        put(alloc, line, name, word.as_str())?;
    }
    Ok(())
}

fn put_excludes(
    alloc: Global,
    line: &mut Vec<String>,
    excludes: &[Exclusion],
) -> Result<(), AllocError> {
    for exclusion in excludes {
        let word = rule_word(alloc, exclusion)?;
        put(alloc, line, "exclude", word.as_str())?;
    }
    Ok(())
}

fn put_addresses(
    alloc: Global,
    line: &mut Vec<String>,
    addresses: &[Text],
) -> Result<(), AllocError> {
    for address in addresses {
        put_bytes(alloc, line, "address", address.as_bytes())?;
    }
    Ok(())
}

fn checks_word(alloc: Global, checks: &[Check]) -> Result<String, AllocError> {
    let mut names = Vec::new(alloc);
    for check in checks {
        names.push(String::from_str(alloc, check_text(*check))?)?;
    }
    joined(alloc, names.as_slice(), "|")
}

fn put_ask(alloc: Global, line: &mut Vec<String>, ask: &Ask) -> Result<(), AllocError> {
    put(
        alloc,
        line,
        "configuration",
        configuration_text(ask.configuration),
    )?;
    put(alloc, line, "rule", rule_text(ask.rule))?;
    put_coords(alloc, line, "force", ask.forced.as_slice())?;
    put_coords(alloc, line, "bom", ask.boms.as_slice())?;
    put_excludes(alloc, line, ask.excludes.as_slice())?;
    put_number(alloc, line, "rounds", u64::from(ask.rounds))
}

fn put_cache(alloc: Global, line: &mut Vec<String>, job: &Job) -> Result<(), AllocError> {
    let checks = checks_word(alloc, job.checks.as_slice())?;
    put_number(alloc, line, "parallel", u64::from(job.parallel))?;
    put_number(alloc, line, "retries", u64::from(job.retries))?;
    put(alloc, line, "checks", checks.as_str())?;
    put(alloc, line, "mode", mode_text(job.mode))?;
    put_number(alloc, line, "ttl", job.ttl)?;
    put(alloc, line, "pool", pool_text(job.pool))?;
    put(alloc, line, "eager", switch_text(job.eager))?;
    put_number(alloc, line, "limit", job.limit)
}

fn put_job(
    alloc: Global,
    line: &mut Vec<String>,
    command: &str,
    job: &Job,
) -> Result<(), AllocError> {
    put(alloc, line, "command", command)?;
    put_addresses(alloc, line, job.addresses.as_slice())?;
    put_ask(alloc, line, &job.ask)?;
    put_cache(alloc, line, job)?;
    put(alloc, line, "output", output_text(job.output))?;
    put_bytes(alloc, line, "prefix", job.prefix.as_bytes())?;
    put_coords(alloc, line, "root", job.ask.roots.as_slice())
}

fn put_sample(alloc: Global, line: &mut Vec<String>, job: &Job) -> Result<(), AllocError> {
    put(alloc, line, "command", "sample")?;
    if let Some((seed, count)) = job.sample {
        put_number(alloc, line, "seed", seed)?;
        put_number(alloc, line, "count", u64::from(count))?;
    }
    Ok(())
}

fn job_line(alloc: Global, job: &Job) -> Result<String, AllocError> {
    let mut line = Vec::new(alloc);
    line.push(String::from_str(alloc, "ok")?)?;
    match job.command {
        Command::Resolve => put_job(alloc, &mut line, "resolve", job)?,
        Command::Fetch => put_job(alloc, &mut line, "fetch", job)?,
        Command::Sample => put_sample(alloc, &mut line, job)?,
    }
    joined(alloc, line.as_slice(), " ")
}

pub fn words(alloc: Global, fields: &[&str]) -> Result<String, CaseError> {
    let words = words_of(alloc, fields)?;
    match job_of(alloc, words.as_slice()) {
        Ok(job) => Ok(job_line(alloc, &job)?),
        Err(WordsErr::BadWords(kind, place)) => {
            let kind = kind.text();
            Ok(format!(in alloc; "{kind} {place}")?)
        }
        Err(WordsErr::NoMemory) => Err(CaseError::NoMemory),
    }
}
