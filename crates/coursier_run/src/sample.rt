//! A session over a repository that is made up from a seed.
ghost use Rattle.std.specs.Prelude.{◌≡◌, true, Some, IfOk};
ghost use Rattle.coursier_run.specs.Justified.{IsSampled};
ghost use Rattle.sample_world.specs.World.{sample_rows};
ghost use Rattle.word_values.specs.Fits.{IsFit, is_sample};

use super::laws::empty_disks;
use cache_store::Store;
use disk_base::MemDisk;
use job_session::session;
use line_streams::Said;
use link_base::MemLink;
use res_base::{List, NoMemory, World};
use sample_world::make_world;
use std::alloc::Global;
use word_values::Job;

/// Works a job through over a world and an empty cache, both in memory.
fn say_over(alloc: Global, job: &Job, world: World, seed: u64, count: u32) -> Result<Said, NoMemory>
    requires fit { IsFit job.now }
    requires sample { job.now.sample ≡ Some (seed, count) }
    requires world { world.rows ≡ sample_rows seed count }
    ensures { IfOk result (IsSampled job.now) }
{
    empty_disks();
    let mut link = MemLink::new(alloc, world, List::new(alloc));
    match Store::open(alloc, MemDisk::new(alloc)) {
        Ok(store) => {
            let (said, _disk) = session(alloc, job, 0, store, &mut link);
            said
        }
        Err(_fault) => Err(NoMemory),
    }
}

/// Works a job of `sample` through, over a repository and a cache of its own.
pub(crate) fn say_sample(alloc: Global, job: &Job) -> Result<Said, NoMemory>
    requires fit { IsFit job.now }
    requires sample { is_sample job.now.command ≡ true }
    ensures { IfOk result (IsSampled job.now) }
{
    let (seed, count) = job.sample.unwrap();
    let world = make_world(alloc, seed, count)?;
    say_over(alloc, job, world, seed, count)
}
