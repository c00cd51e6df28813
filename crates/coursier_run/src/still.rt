//! The top call.
ghost use Rattle.std.specs.Prelude.{◌≡◌, ◌<◌, ◌≤◌, ◌⊎◌, ℕ, List, true, IfOk, Ok, Err, drop, map, string_bytes, vec_len};
ghost use Rattle.std.specs.List.{AllZip};
ghost use Rattle.cache_images.specs.Sound.{IsFaithful, IsSound};
ghost use Rattle.cli_words.specs.Words.{job_in};
ghost use Rattle.coursier_run.specs.Conclusions.{IsConcluded, NothingFailed};
ghost use Rattle.coursier_run.specs.Justified.{FirstAsks, IsJustified, IsWorldOf, WithFirst};
ghost use Rattle.coursier_run.specs.Promises.{AnswersRefusal, BlamesDisk, BlamesLink, FailedFor, LacksFile, NeedsMany, PrintsVerdict, RefusesWords};
ghost use Rattle.disk_base.specs.Runs.{Keeps};
ghost use Rattle.job_session.specs.Asks.{AsksWithin};
ghost use Rattle.job_session.specs.Faithful.{TellsFaithful};
ghost use Rattle.line_streams.specs.Outcomes.{Ends, streams};
ghost use Rattle.link_base.specs.Links.{LinkKept, Rows};
ghost use Rattle.pool_rules.specs.Counts.{counts_of};
ghost use Rattle.res_base.specs.Causes.{Rose};
ghost use Rattle.word_values.specs.Fits.{is_sample};
ghost use Rattle.word_values.specs.declared.job.Job.{Job as Asked};
ghost use Rattle.word_values.specs.declared.refusals.WordKind.{WordKind as Kind};
ghost use Rattle.word_values.specs.declared.refusals.WordsErr.TheVariants.{BadWords};

use super::run::run_job;
use arrival_core::rounds_lawful;
use cli_words::job_of;
use command_lines::Refusal;
use disk_base::Disk;
use job_session::verdicts_stay;
use line_streams::{Said, tell};
use link_base::{Clock, Link, Sink};
use res_base::NoMemory;
use resolution::Verdict;
use session_rules::{stuck_broken, too_many_needed};
use std::alloc::Global;
use std::thread::Threads;
use word_values::WordsErr;

/// How a call ended, and the disk after it.
#[derive(Drop)]
pub struct Served<D> {
    /// 0: all is settled, and what was asked for went out. 1: it is not, and why went out. 2: the
    /// words are refused. 3: a repository failed. 4: the disk failed. 5: out of memory. 6: a stream
    /// failed. 7: a file is not in the cache, and nobody may be asked. 8: too many files are needed.
    pub status: u8,
    pub disk: D,
}

/// What is to be said of the words, and the disk.
fn say<L: Link, D: Disk, C: Clock>(
    alloc: Global,
    words: &[String],
    link: &mut L,
    disk: D,
    clock: &mut C,
) -> (Result<Said, NoMemory>, D)
    ensures justified { IfOk result.0 (IsJustified (λ w. L.agrees link.old w × TellsFaithful D.told w disk)
        (map string_bytes words.now)
        (counts_of L.faults L.asked L.failed_urls D.faults D.last link.old disk)
        (counts_of L.faults L.asked L.failed_urls D.faults D.last link.new result.1)) }
    ensures untouched { (kind : Kind) (place : ℕ) → job_in (map string_bytes words.now) ≡ Err (BadWords kind place)
        → (link.new ≡ link.old) × (result.1 ≡ disk) × (clock.new ≡ clock.old) }
    ensures few { (job : Asked) → job_in (map string_bytes words.now) ≡ Ok job
        → AsksWithin (λ w. L.agrees link.old w × TellsFaithful D.told w disk) job
        (Rose (L.faults link.old) (L.faults link.new)) (L.asked link.old) (L.asked link.new) }
    ensures own { (job : Asked) → job_in (map string_bytes words.now) ≡ Ok job → is_sample job.command ≡ true
        → (link.new ≡ link.old) × (result.1 ≡ disk) × (clock.new ≡ clock.old) }
    ensures kept { LinkKept L.agrees L.faults L.asked L.failed_urls link.old link.new }
    ensures sound { Keeps D.told D.moment D.since IsSound disk result.1 }
    ensures faithful { (w : Rows) → L.agrees link.old w → Keeps D.told D.moment D.since (IsFaithful w) disk result.1 }
{
    match job_of(alloc, words) {
        Ok(job) => run_job(alloc, &job, link, disk, clock),
        Err(WordsErr::BadWords(kind, place)) => (Refusal::Words(kind, place).said(alloc), disk),
        Err(WordsErr::NoMemory) => (Err(NoMemory), disk),
    }
}

/// Does what the words say, over one link.
fn serve<L: Link, D: Disk, C: Clock, O: Sink>(
    alloc: Global,
    words: &[String],
    link: &mut L,
    disk: D,
    clock: &mut C,
    out: &mut O,
    err: &mut O,
) -> Served<D>
    ensures ends { Ends (IsJustified (λ w. L.agrees link.old w × TellsFaithful D.told w disk)
        (map string_bytes words.now)
        (counts_of L.faults L.asked L.failed_urls D.faults D.last link.old disk)
        (counts_of L.faults L.asked L.failed_urls D.faults D.last link.new result.disk))
        (streams O.written out.old out.new err.old err.new)
        (Rose (O.faults out.old) (O.faults out.new)) (Rose (O.faults err.old) (O.faults err.new)) result.status }
    ensures untouched { (kind : Kind) (place : ℕ) → job_in (map string_bytes words.now) ≡ Err (BadWords kind place)
        → (link.new ≡ link.old) × (result.disk ≡ disk) × (clock.new ≡ clock.old) }
    ensures few { (job : Asked) → job_in (map string_bytes words.now) ≡ Ok job
        → AsksWithin (λ w. L.agrees link.old w × TellsFaithful D.told w disk) job
        (Rose (L.faults link.old) (L.faults link.new)) (L.asked link.old) (L.asked link.new) }
    ensures own { (job : Asked) → job_in (map string_bytes words.now) ≡ Ok job → is_sample job.command ≡ true
        → (link.new ≡ link.old) × (result.disk ≡ disk) × (clock.new ≡ clock.old) }
    ensures kept { LinkKept L.agrees L.faults L.asked L.failed_urls link.old link.new }
    ensures sound { Keeps D.told D.moment D.since IsSound disk result.disk }
    ensures faithful { (w : Rows) → L.agrees link.old w
        → Keeps D.told D.moment D.since (IsFaithful w) disk result.disk }
{
    let (said, disk) = say(alloc, words, link, disk, clock);
    let status = tell(alloc, said, out, err);
    Served { status, disk }
}

/// Does what the words say, over the cache on a disk, with the first link.
pub fn run_still<R: Threads + Sync, L: Link + Send, D: Disk + Send, C: Clock, O: Sink>(
    _rt: &R,
    alloc: Global,
    words: &[String],
    links: &mut Vec<L>,
    disk: D,
    clock: &mut C,
    out: &mut O,
    err: &mut O,
) -> Served<D>
    requires some { 0 < vec_len links.old }

    // How the call ended: what was said, why, and how much of it went out.
    ensures ends { WithFirst L.faults L.asked L.failed_urls D.faults D.last links.old.items links.new.items disk result.disk
        (λ before now. Ends (IsJustified (IsWorldOf L.agrees D.told links.old.items disk) (map string_bytes words.now) before now)
        (streams O.written out.old out.new err.old err.new)
        (Rose (O.faults out.old) (O.faults out.new)) (Rose (O.faults err.old) (O.faults err.new)) result.status) }

    // Status by status.
    ensures statuses { result.status ≤ 8 }
    ensures printed { result.status ≤ 1 → PrintsVerdict (IsWorldOf L.agrees D.told links.old.items disk)
        (map string_bytes words.now) (streams O.written out.old out.new err.old err.new) result.status }
    ensures refused { result.status ≡ 2
        → RefusesWords (map string_bytes words.now) (streams O.written out.old out.new err.old err.new) }
    ensures blamed { result.status ≡ 3
        → BlamesLink (IsWorldOf L.agrees D.told links.old.items disk) (λ job key. WithFirst L.faults L.asked L.failed_urls
        D.faults D.last links.old.items links.new.items disk result.disk (λ before now. FailedFor before now job key))
        (map string_bytes words.now) (streams O.written out.old out.new err.old err.new) }
    ensures disk_failed { result.status ≡ 4 → BlamesDisk (D.faults disk) (D.faults result.disk) (D.last result.disk)
        (streams O.written out.old out.new err.old err.new) }
    ensures stream_failed { result.status ≡ 6
        → Rose (O.faults out.old) (O.faults out.new) ⊎ Rose (O.faults err.old) (O.faults err.new) }
    ensures lacking { result.status ≡ 7
        → LacksFile (IsWorldOf L.agrees D.told links.old.items disk) (map string_bytes words.now)
        (streams O.written out.old out.new err.old err.new) }
    ensures many { result.status ≡ 8
        → NeedsMany (IsWorldOf L.agrees D.told links.old.items disk) (map string_bytes words.now)
        (streams O.written out.old out.new err.old err.new) }

    // Where nothing failed, `resolve` and `fetch` come to their answer.
    ensures complete { IsConcluded (IsWorldOf L.agrees D.told links.old.items disk) (map string_bytes words.now)
        (NothingFailed (WithFirst L.faults L.asked L.failed_urls D.faults D.last links.old.items links.new.items disk
        result.disk (λ before now. Rose before.faults now.faults)) (Rose (D.faults disk) (D.faults result.disk))
        (Rose (O.faults out.old) (O.faults out.new)) (Rose (O.faults err.old) (O.faults err.new))) result.status }

    // Refused words get their line, and nothing else is touched.
    ensures refusal { AnswersRefusal (Rose (O.faults err.old) (O.faults err.new)) (map string_bytes words.now)
        (streams O.written out.old out.new err.old err.new) result.status }
    ensures untouched { (kind : Kind) (place : ℕ) → job_in (map string_bytes words.now) ≡ Err (BadWords kind place)
        → (links.new.items ≡ links.old.items) × (result.disk ≡ disk) × (clock.new ≡ clock.old) }

    // How often the first link is asked for a job; a job of `sample` touches nothing.
    ensures few { (job : Asked) → job_in (map string_bytes words.now) ≡ Ok job
        → FirstAsks L.faults L.asked (IsWorldOf L.agrees D.told links.old.items disk) job links.old.items links.new.items }
    ensures own { (job : Asked) → job_in (map string_bytes words.now) ≡ Ok job → is_sample job.command ≡ true
        → (links.new.items ≡ links.old.items) × (result.disk ≡ disk) × (clock.new ≡ clock.old) }

    // What stands after it.
    ensures kept { AllZip (LinkKept L.agrees L.faults L.asked L.failed_urls) links.old.items links.new.items }
    ensures first_alone { drop 1 links.new.items ≡ drop 1 links.old.items }
    ensures len { vec_len links.new ≡ vec_len links.old }
    ensures sound { Keeps D.told D.moment D.since IsSound disk result.disk }
    ensures faithful { (w : Rows) → IsWorldOf L.agrees D.told links.old.items disk w
        → Keeps D.told D.moment D.since (IsFaithful w) disk result.disk }
{
    verdicts_stay();
    rounds_lawful();
    stuck_broken::<Verdict>();
    too_many_needed::<Verdict>();
    serve(alloc, words, &mut links[0], disk, clock, out, err)
}
