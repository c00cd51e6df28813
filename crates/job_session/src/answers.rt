//! What is to be said of a board that was worked through.
ghost use Rattle.std.specs.Prelude.{◌≡◌, ◌<◌, true, IfOk, length};
ghost use Rattle.arrival_core.specs.Resolving.{resolver_of};
ghost use Rattle.class_path.specs.Files.{AreFileRows};
ghost use Rattle.claim_rules.specs.Claims.{claim_of};
ghost use Rattle.digest_check.specs.KeyAnswers.{key_url};
ghost use Rattle.job_session.specs.Answers.{IsSaidAt, MaySay, PrintsVerdict, WantsKnown, files_of, lacks, printed};
ghost use Rattle.res_base.specs.Known.{known_of};
ghost use Rattle.resolution.specs.Settlements.{HasRepositories, IfSettled, IsSettlement};
ghost use Rattle.word_values.specs.Fits.{IsFit};

use super::laws::{files_known, session_over};
use arrival_core::{Claim, Core};
use cache_policy::Mode;
use class_path::{FileRow, file_rows};
use command_lines::{Refusal, render};
use line_streams::Said;
use pool_rules::Finish;
use project_lookup::Known;
use res_base::{FileKey, List, NoMemory, Text, url_of};
use resolution::{Progress, Verdict};
use round_core::settled_laws;
use std::alloc::Global;
use word_values::Job;

/// The URL of a key.
fn key_url(alloc: Global, job: &Job, key: &FileKey) -> Result<Text, NoMemory>
    requires { key.now.repo < length job.now.addresses }
    ensures { IfOk result (λ url. url ≡ key_url job.now.addresses key.now) }
{
    let address = job.addresses.as_slice()[key.repo as usize].as_str();
    url_of(alloc, address, key.path.as_str())
}

/// What is said of a key that is needed and was not got.
fn lacking(alloc: Global, job: &Job, key: &FileKey) -> Result<Refusal, NoMemory>
    requires { key.now.repo < length job.now.addresses }
    ensures { IfOk result (λ refusal. refusal ≡ lacks job.now key.now) }
{
    let url = key_url(alloc, job, key)?;
    Ok(match job.mode {
        Mode::Missing => Refusal::Repository(url),
        Mode::Offline => Refusal::NotCached(url),
        Mode::Refresh => Refusal::Repository(url),
    })
}

/// What is known of the files of a verdict, where files are asked for and it is settled.
fn files_of(
    alloc: Global,
    job: &Job,
    verdict: &Verdict,
    known: &Known,
) -> Result<List<FileRow>, NoMemory>
    requires fit { IsFit job.now }
    requires settlement { IfSettled verdict.now IsSettlement }
    requires repositories { IfSettled verdict.now (HasRepositories (length job.now.addresses)) }
    requires known { WantsKnown job.now verdict.now (known_of known.now.pairs) }
    ensures rows { IfOk result (λ rows. rows ≡ files_of job.now verdict.now (known_of known.now.pairs)) }
    ensures fit { IfOk result (AreFileRows (length job.now.addresses)) }
{
    files_known();
    if !job.ask.files {
        return Ok(List::new(alloc));
    }
    match verdict {
        Verdict::Settled(settled) => file_rows(alloc, settled, known, &job.addresses),
        Verdict::Clashes(_) => Ok(List::new(alloc)),
        Verdict::Failed(_) => Ok(List::new(alloc)),
        Verdict::Unsettled(_) => Ok(List::new(alloc)),
    }
}

/// What is said of a verdict over all that is known.
fn say_verdict(alloc: Global, job: &Job, verdict: &Verdict, known: &Known) -> Result<Said, NoMemory>
    requires fit { IsFit job.now }
    requires settlement { IfSettled verdict.now IsSettlement }
    requires repositories { IfSettled verdict.now (HasRepositories (length job.now.addresses)) }
    requires known { WantsKnown job.now verdict.now (known_of known.now.pairs) }
    ensures { IfOk result (λ said. said
        ≡ printed job.now verdict.now (known_of known.now.pairs) (length known.now.pairs)) }
{
    let files = files_of(alloc, job, verdict, known)?;
    let reads = known.len() as u64;
    Ok(Said::Prints(render(alloc, job, verdict, &files, reads)?))
}

/// What is said of a core whose session is over.
fn say_over(alloc: Global, job: &Job, core: &Core) -> Result<Said, NoMemory>
    requires fit { IsFit job.now }
    requires ask { core.now.ask ≡ job.now.ask }
    requires caught_up { core.now.caught_up ≡ true }
    requires over { claim_of core.now.settings (resolver_of core.now.ask) core.now.history ≡ Claim.Over }
    ensures { IfOk result (PrintsVerdict job.now core.now.history) }
{
    session_over();
    settled_laws();
    match core.progress() {
        Progress::Waiting { .. } => unreachable!(),
        Progress::Over(verdict) => say_verdict(alloc, job, verdict, core.known()),
    }
}

/// What is to be said of a board that was worked through.
pub(crate) fn said_at(
    alloc: Global,
    job: &Job,
    core: &Core,
    finish: &Finish,
) -> Result<Said, NoMemory>
    requires fit { IsFit job.now }
    requires ask { core.now.ask ≡ job.now.ask }
    requires ends { MaySay job.now core.now finish.now }
    ensures { IfOk result (IsSaidAt job.now core.now.history finish.now) }
{
    match finish {
        Finish::Over => say_over(alloc, job, core),
        Finish::Stuck(key, _) => lacking(alloc, job, key)?.said(alloc),
        Finish::TooMany => Refusal::TooManyFiles.said(alloc),
        Finish::Disk(call) => Refusal::Disk(*call).said(alloc),
        Finish::Memory => Err(NoMemory),
    }
}
