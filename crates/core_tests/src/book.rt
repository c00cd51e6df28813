//! A book beside the core: what became of each key, and what a claim answers by that.
ghost use Rattle.std.specs.Prelude.{◌≡◌};

use super::parts::told;
use arrival_core::{Claim, CoreLimits};
use project_lookup::Known;
use res_base::{Copied, FileKey, NoMemory, Role, Steps, file_path};
use resolution::{Ask, Node, Progress, Settled, Verdict};
use round_core::rounds_plain;
use std::alloc::Global;
use std::sync::ledger::Ledger;

/// How a session goes: its settings, how many ends there are to one arrival, whether the cache lacks
/// keys, and how many turns there are.
#[derive(Clone, Copy, Drop)]
pub(crate) struct Way {
    pub(crate) eager: bool,
    pub(crate) files: bool,
    pub(crate) retries: u32,
    pub(crate) limits: CoreLimits,
    pub(crate) ends: u8,
    pub(crate) lacks: bool,
    pub(crate) turns: u32,
}

/// What became of a key.
#[derive(Clone, Copy, Drop)]
pub(crate) struct Fate {
    pub(crate) known: bool,
    pub(crate) holder: Option<u32>,
    pub(crate) breaks: u32,
    pub(crate) lacking: bool,
}

#[derive(Drop)]
pub(crate) struct Row {
    pub(crate) key: FileKey,
    pub(crate) fate: Fate,
}

/// How many events came, and how often each answer of a claim.
#[derive(Clone, Copy, Drop)]
pub(crate) struct Tally {
    pub(crate) events: usize,
    pub(crate) claimed: u32,
    pub(crate) none_now: u32,
    pub(crate) too_many: u32,
    pub(crate) stuck: u32,
    pub(crate) over: u32,
}

/// What became of all keys, and what arrived.
#[derive(Drop)]
pub(crate) struct Book {
    pub(crate) rows: Vec<Row>,
    pub(crate) tally: Tally,
    pub(crate) known: Known,
}

impl Tally {
    pub(crate) const NOTHING: Tally = Tally {
        events: 0,
        claimed: 0,
        none_now: 0,
        too_many: 0,
        stuck: 0,
        over: 0,
    };

    /// With one answer more.
    pub(crate) fn with(self, claim: &Claim) -> Tally {
        let mut tally = self;
        match claim {
            Claim::Claimed(_) => tally.claimed = self.claimed.saturating_add(1),
            Claim::NoneNow => tally.none_now = self.none_now.saturating_add(1),
            Claim::TooMany => tally.too_many = self.too_many.saturating_add(1),
            Claim::Stuck(_) => tally.stuck = self.stuck.saturating_add(1),
            Claim::Over => tally.over = self.over.saturating_add(1),
        }
        tally
    }

    /// The two together, with the greater number of events.
    pub(crate) fn and(self, other: Tally) -> Tally {
        Tally {
            events: self.events.max(other.events),
            claimed: self.claimed.saturating_add(other.claimed),
            none_now: self.none_now.saturating_add(other.none_now),
            too_many: self.too_many.saturating_add(other.too_many),
            stuck: self.stuck.saturating_add(other.stuck),
            over: self.over.saturating_add(other.over),
        }
    }
}

pub(crate) fn fate_of(rows: &[Row], key: &FileKey) -> Fate {
    for row in rows {
        if row.key == *key {
            return row.fate;
        }
    }
    Fate {
        known: false,
        holder: None,
        breaks: 0,
        lacking: false,
    }
}

pub(crate) fn put(
    alloc: Global,
    rows: &mut Vec<Row>,
    key: &FileKey,
    fate: Fate,
) -> Result<(), NoMemory> {
    for row in rows.iter_mut() {
        if row.key == *key {
            row.fate = fate;
            return Ok(());
        }
    }
    rows.push(Row {
        key: key.copy(alloc)?,
        fate,
    })?;
    Ok(())
}

fn is_free(fate: Fate, retries: u32) -> bool {
    !fate.known && fate.holder.is_none() && fate.breaks <= retries && !fate.lacking
}

fn lesser<'a>(least: Option<&'a FileKey>, key: &'a FileKey) -> &'a FileKey {
    match least {
        Some(other) if other < key => other,
        _ => key,
    }
}

fn least<'a>(keys: &'a [FileKey]) -> Option<&'a FileKey> {
    let mut least: Option<&FileKey> = None;
    for key in keys {
        least = Some(lesser(least, key));
    }
    least
}

fn least_free<'a>(rows: &[Row], retries: u32, keys: &'a [FileKey]) -> Option<&'a FileKey> {
    let mut least: Option<&FileKey> = None;
    for key in keys {
        if is_free(fate_of(rows, key), retries) {
            least = Some(lesser(least, key));
        }
    }
    least
}

fn is_any_held(rows: &[Row]) -> bool {
    for row in rows {
        if row.fate.holder.is_some() {
            return true;
        }
    }
    false
}

/// The same key in each repository after its own.
fn put_later(alloc: Global, hints: &mut Vec<FileKey>, key: &FileKey) -> Result<(), NoMemory> {
    for repo in 0..3 {
        if repo > key.repo {
            hints.push(FileKey {
                repo,
                role: key.role,
                path: key.path.copy(alloc)?,
            })?;
        }
    }
    Ok(())
}

/// Files have no hints.
fn hints(alloc: Global, eager: bool, needs: &[FileKey]) -> Result<Vec<FileKey>, NoMemory> {
    let mut hints = Vec::new(alloc);
    for key in needs {
        if eager && key.role != Role::Artifact {
            put_later(alloc, &mut hints, key)?;
        }
    }
    Ok(hints)
}

/// The jar of a project, in the repository in which the project was found.
fn jar(alloc: Global, node: &Node) -> Result<FileKey, NoMemory> {
    Ok(FileKey {
        repo: node.repo,
        role: Role::Artifact,
        path: file_path(alloc, &node.coord, "jar", "")?,
    })
}

fn jars(alloc: Global, rows: &[Row], settled: &Settled) -> Result<Vec<FileKey>, NoMemory> {
    let mut jars = Vec::new(alloc);
    for node in settled.nodes.as_slice() {
        let key = jar(alloc, node)?;
        if !fate_of(rows, &key).known {
            jars.push(key)?;
        }
    }
    Ok(jars)
}

/// What the session needs where the rounds come so far.
fn needs(
    alloc: Global,
    rows: &[Row],
    files: bool,
    rounds: &Progress,
) -> Result<Vec<FileKey>, NoMemory> {
    match rounds {
        Progress::Waiting { needs, .. } => Ok(needs.copy(alloc)?.into_vec()),
        Progress::Over(Verdict::Settled(settled)) if files => jars(alloc, rows, settled),
        Progress::Over(_) => Ok(Vec::new(alloc)),
    }
}

/// A hint, where no need is free and a key is held.
fn hinted(alloc: Global, book: &Book, way: Way, needs: &[FileKey]) -> Result<Claim, NoMemory> {
    if book.tally.claimed >= way.limits.hint_claims {
        return Ok(Claim::NoneNow);
    }
    let hints = hints(alloc, way.eager, needs)?;
    match least_free(book.rows.as_slice(), way.retries, hints.as_slice()) {
        Some(hint) => Ok(Claim::Claimed(hint.copy(alloc)?)),
        None => Ok(Claim::NoneNow),
    }
}

/// What a claim answers where these are the needs.
fn claimed(alloc: Global, book: &Book, way: Way, needs: &[FileKey]) -> Result<Claim, NoMemory> {
    let rows = book.rows.as_slice();
    let Some(first) = least(needs) else {
        return Ok(Claim::Over);
    };
    match least_free(rows, way.retries, needs) {
        Some(_) if book.tally.claimed >= way.limits.claims => Ok(Claim::TooMany),
        Some(need) => Ok(Claim::Claimed(need.copy(alloc)?)),
        None if is_any_held(rows) => hinted(alloc, book, way, needs),
        None => Ok(Claim::Stuck(first.copy(alloc)?)),
    }
}

/// How far the rounds come from nothing, and what a claim answers.
pub(crate) fn expected<L: Ledger>(
    alloc: Global,
    book: &Book,
    ask: &Ask,
    way: Way,
    steps: &mut Steps<L>,
) -> Result<String, NoMemory>
    requires { ask.now.repos ≡ book.now.known.repos }
{
    let rounds = rounds_plain(alloc, &book.known, ask, steps)?;
    let needs = needs(alloc, book.rows.as_slice(), way.files, &rounds)?;
    let claim = claimed(alloc, book, way, needs.as_slice())?;
    let is_over = matches!(&rounds, Progress::Over(_));
    told(alloc, &rounds, is_over, &claim)
}
