//! Jobs.
ghost use Rattle.std.specs.Prelude.{◌≡◌, true, IfOk};
ghost use Rattle.cache_images.specs.Sound.{IsFaithful, IsSound};
ghost use Rattle.cache_store.specs.Causes.{IsFromDisk};
ghost use Rattle.command_lines.specs.Refusals.{said_of};
ghost use Rattle.coursier_run.specs.Justified.{IsDone, IsDoneBy};
ghost use Rattle.disk_base.specs.Runs.{Keeps};
ghost use Rattle.disk_base.specs.declared.disk_errors.DiskCall.{DiskCall};
ghost use Rattle.job_session.specs.Asks.{AsksWithin};
ghost use Rattle.job_session.specs.Faithful.{TellsFaithful};
ghost use Rattle.link_base.specs.Links.{LinkKept, Rows};
ghost use Rattle.pool_rules.specs.Counts.{counts_of};
ghost use Rattle.res_base.specs.Causes.{Rose};
ghost use Rattle.word_values.specs.Fits.{IsFit, is_sample};

use super::sample::say_sample;
use cache_store::{OpenFault, Store, StoreErr};
use command_lines::Refusal;
use disk_base::Disk;
use job_session::session;
use line_streams::Said;
use link_base::{Clock, Link};
use res_base::NoMemory;
use std::alloc::Global;
use word_values::{Command, Job};

/// What is said of a disk that could not be opened as a store.
fn not_opened(alloc: Global, err: StoreErr) -> Result<Said, NoMemory>
    requires { IsFromDisk err }
    ensures { IfOk result (λ said. (call : DiskCall) × (err ≡ StoreErr.DiskFault call) × (said ≡ said_of (Refusal.Disk call))) }
{
    match err {
        StoreErr::DiskFault(call) => Refusal::Disk(call).said(alloc),
        StoreErr::NoMemory => Err(NoMemory),
        StoreErr::Full => Err(NoMemory),
        StoreErr::PartUnknown(_) => Err(NoMemory),
        StoreErr::Differs(_, _) => Err(NoMemory),
    }
}

/// Does a job of `resolve` or `fetch` over the cache on a disk, at this moment in seconds, and gives
/// the disk back.
fn say_cached<L: Link, D: Disk>(
    alloc: Global,
    job: &Job,
    moment: u64,
    link: &mut L,
    disk: D,
) -> (Result<Said, NoMemory>, D)
    requires fit { IsFit job.now }
    ensures done { IfOk result.0 (IsDone (λ w. L.agrees link.old w × TellsFaithful D.told w disk) job.now
        (counts_of L.faults L.asked L.failed_urls D.faults D.last link.old disk)
        (counts_of L.faults L.asked L.failed_urls D.faults D.last link.new result.1)) }
    ensures few { AsksWithin (λ w. L.agrees link.old w × TellsFaithful D.told w disk) job.now
        (Rose (L.faults link.old) (L.faults link.new)) (L.asked link.old) (L.asked link.new) }
    ensures kept { LinkKept L.agrees L.faults L.asked L.failed_urls link.old link.new }
    ensures sound { Keeps D.told D.moment D.since IsSound disk result.1 }
    ensures faithful { (w : Rows) → L.agrees link.old w → Keeps D.told D.moment D.since (IsFaithful w) disk result.1 }
{
    match Store::open(alloc, disk) {
        Ok(store) => session(alloc, job, moment, store, link),
        Err(OpenFault { disk, err }) => (not_opened(alloc, err), disk),
    }
}

/// Does a job, and gives what is to be said, and the disk back.
pub(crate) fn run_job<L: Link, D: Disk, C: Clock>(
    alloc: Global,
    job: &Job,
    link: &mut L,
    disk: D,
    clock: &mut C,
) -> (Result<Said, NoMemory>, D)
    requires fit { IsFit job.now }
    ensures done { IfOk result.0 (IsDoneBy (λ w. L.agrees link.old w × TellsFaithful D.told w disk) job.now
        (counts_of L.faults L.asked L.failed_urls D.faults D.last link.old disk)
        (counts_of L.faults L.asked L.failed_urls D.faults D.last link.new result.1)) }
    ensures few { AsksWithin (λ w. L.agrees link.old w × TellsFaithful D.told w disk) job.now
        (Rose (L.faults link.old) (L.faults link.new)) (L.asked link.old) (L.asked link.new) }
    ensures own { is_sample job.now.command ≡ true → (link.new ≡ link.old) × (result.1 ≡ disk) × (clock.new ≡ clock.old) }
    ensures kept { LinkKept L.agrees L.faults L.asked L.failed_urls link.old link.new }
    ensures sound { Keeps D.told D.moment D.since IsSound disk result.1 }
    ensures faithful { (w : Rows) → L.agrees link.old w → Keeps D.told D.moment D.since (IsFaithful w) disk result.1 }
{
    match job.command {
        Command::Resolve => say_cached(alloc, job, clock.moment(), link, disk),
        Command::Fetch => say_cached(alloc, job, clock.moment(), link, disk),
        Command::Sample => (say_sample(alloc, job), disk),
    }
}
