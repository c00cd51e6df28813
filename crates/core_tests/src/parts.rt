//! What sessions are made of, and what is told of them.
ghost use Rattle.std.specs.Prelude.{◌≡◌, IfOk};
ghost use Rattle.res_base.specs.declared.key.Role.TheVariants.{Pom};

use arrival_core::Claim;
use reconcile_rules::Rule;
use res_base::{
    Coord, DepRecord, FileKey, List, Module, NoMemory, PomRecord, Role, Text, pom_path,
};
use resolution::{Ask, Choice, Choices, Progress, Settled, Verdict};
use scope_rules::Configuration;
use std::alloc::Global;

/// `x:NAME:VERSION`.
pub(crate) fn coord(alloc: Global, name: &str, version: &str) -> Result<Coord, NoMemory> {
    Ok(Coord {
        module: Module {
            org: Text::of(alloc, "x")?,
            name: Text::of(alloc, name)?,
        },
        version: Text::of(alloc, version)?,
    })
}

/// The key of the POM of `x:NAME:1` in a repository.
pub(crate) fn key(alloc: Global, name: &str, repo: u32) -> Result<FileKey, NoMemory>
    ensures { IfOk result (λ made. made.role ≡ Pom) }
{
    Ok(FileKey {
        repo,
        role: Role::Pom,
        path: pom_path(alloc, &coord(alloc, name, "1")?)?,
    })
}

/// A project with these dependencies.
pub(crate) fn pom(alloc: Global, at: Coord, deps: List<DepRecord>) -> Result<PomRecord, NoMemory> {
    let Coord { module, version } = at;
    let Module { org, name } = module;
    Ok(PomRecord {
        parent: None,
        org,
        name,
        version,
        packaging: Text::new(alloc),
        properties: List::new(alloc),
        deps,
        managed: List::new(alloc),
        moved: None,
    })
}

/// The resolution of `x:NAME:1` for each of these names, within nine rounds.
pub(crate) fn ask(alloc: Global, names: &str, files: bool) -> Result<Ask, NoMemory>
    ensures { IfOk result (λ made. made.repos ≡ 3) }
{
    let mut roots: List<Coord> = List::new(alloc);
    for name in names.split_ascii_whitespace() {
        roots.push(coord(alloc, name, "1")?)?;
    }
    Ok(Ask {
        roots,
        forced: List::new(alloc),
        boms: List::new(alloc),
        excludes: List::new(alloc),
        configuration: Configuration::Default,
        rule: Rule::Default,
        rounds: 9,
        repos: 3,
        files,
    })
}

/// A letter of a key's path: with 2 that of the project, with 4 that of its version.
pub(crate) fn letter_at(key: &FileKey, place: usize) -> char {
    match key.path.as_str().as_bytes().get(place) {
        Some(letter) => char::from(*letter),
        None => '?',
    }
}

/// The project and its version, `p` for its POM, `l` for a listing or `f` for a file, and the
/// repository.
fn key_word(alloc: Global, key: &FileKey) -> Result<String, NoMemory> {
    let (name, version) = (letter_at(key, 2), letter_at(key, 4));
    let kind = match key.role {
        Role::Pom => 'p',
        Role::Listing => 'l',
        Role::Artifact => 'f',
    };
    Ok(format!(in alloc; "{name}{version}{kind}{}", key.repo)?)
}

/// The answer of a claim: its letter where it is none, and the key that it names.
pub(crate) fn answer(alloc: Global, claim: &Claim) -> Result<String, NoMemory> {
    match claim {
        Claim::Over => Ok(format!(in alloc; "O")?),
        Claim::Stuck(key) => Ok(format!(in alloc; "S{}", key_word(alloc, key)?.as_str())?),
        Claim::TooMany => Ok(format!(in alloc; "T")?),
        Claim::NoneNow => Ok(format!(in alloc; "N")?),
        Claim::Claimed(key) => key_word(alloc, key),
    }
}

fn key_words(alloc: Global, keys: &[FileKey]) -> Result<String, NoMemory> {
    let mut words = String::new(alloc);
    for key in keys {
        words.push_str(key_word(alloc, key)?.as_str())?;
    }
    Ok(words)
}

/// Each module with its version, or `!` where there is none.
fn choice_words(alloc: Global, choices: &Choices) -> Result<String, NoMemory> {
    let mut words = String::new(alloc);
    for row in choices.rows.as_slice() {
        words.push_str(row.module.name.as_str())?;
        words.push_str(match &row.choice {
            Choice::Version(version) => version.as_str(),
            Choice::Clash(_) => "!",
        })?;
    }
    Ok(words)
}

/// Each project with its version and repository.
fn node_words(alloc: Global, settled: &Settled) -> Result<String, NoMemory> {
    let mut words = String::new(alloc);
    for node in settled.nodes.as_slice() {
        let (name, version) = (node.coord.module.name.as_str(), node.coord.version.as_str());
        let word = format!(in alloc; "{name}{version}.{}", node.repo)?;
        words.push_str(word.as_str())?;
    }
    Ok(words)
}

/// How far the rounds come: `W`, the round, the choices and the needed keys, or `D`, the round, the
/// projects that settled and the number of edges.
pub(crate) fn progress(alloc: Global, progress: &Progress) -> Result<String, NoMemory> {
    match progress {
        Progress::Waiting {
            round,
            choices,
            needs,
        } => {
            let chosen = choice_words(alloc, choices)?;
            let words = key_words(alloc, needs.as_slice())?;
            Ok(format!(in alloc; "W{round}:{}:{}", chosen.as_str(), words.as_str())?)
        }
        Progress::Over(Verdict::Settled(settled)) => {
            let words = node_words(alloc, settled)?;
            let edges = settled.edges.len();
            Ok(format!(in alloc; "D{}:{}:{edges}", settled.round, words.as_str())?)
        }
        Progress::Over(_) => Ok(format!(in alloc; "F")?),
    }
}

/// How far the rounds come, whether there is a verdict, and the answer of a claim there.
pub(crate) fn told(
    alloc: Global,
    at: &Progress,
    has_verdict: bool,
    claim: &Claim,
) -> Result<String, NoMemory> {
    let mark = if has_verdict { "=" } else { "-" };
    let (at, answer) = (progress(alloc, at)?, answer(alloc, claim)?);
    Ok(format!(in alloc; "{} {mark} {}", at.as_str(), answer.as_str())?)
}
