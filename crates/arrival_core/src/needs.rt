//! What a session needs where the rounds come so far.
ghost use Rattle.std.specs.Prelude.{◌≡◌, IfOk, List, filter, not};
ghost use Rattle.arrival_core.specs.Resolving.{standing_of};
ghost use Rattle.claim_rules.specs.Sessions.{is_known, is_over_at, needs_at};
ghost use Rattle.res_base.specs.Known.{Known as Map, known_of};
ghost use Rattle.res_base.specs.declared.key.FileKey.{FileKey as Key};
ghost use Rattle.resolution.specs.declared.verdict.Verdict.{Verdict as Outcome};
ghost use Rattle.round_core.specs.Reads.{files_if};

use project_lookup::Known;
use res_base::{Copied, FileKey, List, NoMemory};
use round_core::{Progress, Verdict, artifacts};
use std::alloc::Global;

/// The artifacts that a verdict wants.
fn wanted(alloc: Global, files: bool, verdict: &Verdict) -> Result<List<FileKey>, NoMemory>
    ensures { IfOk result (λ made. made ≡ files_if files verdict.now) }
{
    if !files {
        return Ok(List::new(alloc));
    }
    match verdict {
        Verdict::Settled(settled) => artifacts(alloc, settled),
        Verdict::Clashes(_) => Ok(List::new(alloc)),
        Verdict::Failed(_) => Ok(List::new(alloc)),
        Verdict::Unsettled(_) => Ok(List::new(alloc)),
    }
}

/// The keys that are not known.
fn unknown(alloc: Global, known: &Known, keys: List<FileKey>) -> Result<Vec<FileKey>, NoMemory>
    ensures { IfOk result (λ made. made.items ≡ filter (λ key. not (is_known (known_of known.now.pairs) key)) keys) }
{
    let mut made = Vec::new(alloc);
    for key in keys.into_vec() {
        if known.at(&key).is_none() {
            made.push(key)?;
        }
    }
    Ok(made)
}

/// What the session needs where the rounds come so far.
pub(crate) fn needs_of(
    alloc: Global,
    known: &Known,
    files: bool,
    progress: &Progress,
) -> Result<Vec<FileKey>, NoMemory>
    ensures { IfOk result (λ made. made.items ≡ needs_at (standing_of progress.now) (files_if files) (known_of known.now.pairs)) }
{
    match progress {
        Progress::Waiting { needs, .. } => Ok(needs.copy(alloc)?.into_vec()),
        Progress::Over(verdict) => {
            let keys = wanted(alloc, files, verdict)?;
            unknown(alloc, known, keys)
        }
    }
}

/// Whether the session is over, where these are its needs.
pub(crate) fn is_over(progress: &Progress, needs: &[FileKey]) -> bool
    ensures { (files : Outcome → List Key) (known : Map) → needs.now ≡ needs_at (standing_of progress.now) files known
        → result ≡ is_over_at (standing_of progress.now) files known }
{
    match progress {
        Progress::Waiting { .. } => false,
        Progress::Over(_) => needs.is_empty(),
    }
}
