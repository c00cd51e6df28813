//! Sessions.
ghost use Rattle.std.specs.Prelude.{◌≡◌, IfOk};
ghost use Rattle.cache_images.specs.Sound.{IsFaithful, IsSound};
ghost use Rattle.cache_store.specs.Stands.{disk_of};
ghost use Rattle.disk_base.specs.Runs.{Keeps};
ghost use Rattle.fetch_pool.specs.Boards.{IsIdle};
ghost use Rattle.job_session.specs.Answers.{IsSession};
ghost use Rattle.job_session.specs.Asks.{AsksWithin};
ghost use Rattle.job_session.specs.Beginnings.{IsFreshCore, plan_for as its_plan};
ghost use Rattle.job_session.specs.Faithful.{TellsFaithful};
ghost use Rattle.link_base.specs.Links.{LinkKept, Rows};
ghost use Rattle.pool_rules.specs.Counts.{counts_of};
ghost use Rattle.res_base.specs.Causes.{Rose};
ghost use Rattle.word_values.specs.Fits.{IsFit};

use super::answers::said_at;
use super::begin::{fresh_core, plan_for};
use super::laws::{fresh_ready, ready_to_say};
use arrival_core::{Core, rounds_lawful};
use cache_store::Store;
use disk_base::Disk;
use fetch_pool::{Board, Finished, finish_alone};
use line_streams::Said;
use link_base::Link;
use pool_rules::Plan;
use res_base::{List, NoMemory};
use resolution::Verdict;
use session_rules::few_asked;
use std::alloc::Global;
use word_values::Job;

/// Works a fresh board through, and gives what is to be said, and the disk back.
fn work_through<L: Link, D: Disk>(
    alloc: Global,
    job: &Job,
    moment: u64,
    core: Core,
    plan: Plan,
    store: Store<D>,
    link: &mut L,
) -> (Result<Said, NoMemory>, D)
    requires fit { IsFit job.now }
    requires core { IsFreshCore job.now core }
    requires plan { plan ≡ its_plan job.now moment }
    requires idle { IsIdle D.told store }
    ensures session { IfOk result.0 (IsSession
        (λ w. L.agrees link.old w × TellsFaithful D.told w (disk_of store)) job.now moment
        (counts_of L.faults L.asked L.failed_urls D.faults D.last link.old (disk_of store))
        (counts_of L.faults L.asked L.failed_urls D.faults D.last link.new result.1)) }
    ensures few { AsksWithin (λ w. L.agrees link.old w × TellsFaithful D.told w (disk_of store)) job.now
        (Rose (L.faults link.old) (L.faults link.new)) (L.asked link.old) (L.asked link.new) }
    ensures kept { LinkKept L.agrees L.faults L.asked L.failed_urls link.old link.new }
    ensures sound { Keeps D.told D.moment D.since IsSound (disk_of store) result.1 }
    ensures faithful { (w : Rows) → L.agrees link.old w
        → Keeps D.told D.moment D.since (IsFaithful w) (disk_of store) result.1 }
{
    fresh_ready();
    ready_to_say();
    rounds_lawful();
    few_asked::<Verdict>();
    let board = Board {
        core,
        store,
        plan,
        ended: None,
        parts: List::new(alloc),
    };
    let Finished { board, finish } = finish_alone(alloc, board, link);
    let said = said_at(alloc, job, &board.core, &finish);
    let Board { store, .. } = board;
    (said, store.into_disk())
}

/// Works a job through with one link over a store, at this moment in seconds, and gives what is to
/// be said, and the disk back.
pub fn session<L: Link, D: Disk>(
    alloc: Global,
    job: &Job,
    moment: u64,
    store: Store<D>,
    link: &mut L,
) -> (Result<Said, NoMemory>, D)
    requires fit { IsFit job.now }
    requires idle { IsIdle D.told store }
    ensures session { IfOk result.0 (IsSession
        (λ w. L.agrees link.old w × TellsFaithful D.told w (disk_of store)) job.now moment
        (counts_of L.faults L.asked L.failed_urls D.faults D.last link.old (disk_of store))
        (counts_of L.faults L.asked L.failed_urls D.faults D.last link.new result.1)) }
    ensures few { AsksWithin (λ w. L.agrees link.old w × TellsFaithful D.told w (disk_of store)) job.now
        (Rose (L.faults link.old) (L.faults link.new)) (L.asked link.old) (L.asked link.new) }
    ensures kept { LinkKept L.agrees L.faults L.asked L.failed_urls link.old link.new }
    ensures sound { Keeps D.told D.moment D.since IsSound (disk_of store) result.1 }
    ensures faithful { (w : Rows) → L.agrees link.old w
        → Keeps D.told D.moment D.since (IsFaithful w) (disk_of store) result.1 }
{
    match fresh_core(alloc, job) {
        Ok(core) => match plan_for(alloc, job, moment) {
            Ok(plan) => work_through(alloc, job, moment, core, plan, store, link),
            Err(NoMemory) => (Err(NoMemory), store.into_disk()),
        },
        Err(NoMemory) => (Err(NoMemory), store.into_disk()),
    }
}
