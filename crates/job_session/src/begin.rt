//! A session before anything is known.
ghost use Rattle.std.specs.Prelude.{◌≡◌, [], false, IfOk};
ghost use Rattle.job_session.specs.Beginnings.{IsFreshCore, is_eager, plan_for, settings_for};
ghost use Rattle.word_values.specs.Fits.{IsFit};

use arrival_core::{Core, CoreLimits};
use cache_policy::Mode;
use pool_rules::Plan;
use res_base::{Copied, NoMemory};
use std::alloc::Global;
use word_values::Job;

/// So many claims are made at most, and hints only while fewer than half of them were made.
const LIMITS: CoreLimits = CoreLimits {
    claims: 4_194_304,
    hint_claims: 2_097_152,
};

/// Whether files are claimed before it is sure that they are needed: where nobody may be asked,
/// none is.
fn is_eager(job: &Job) -> bool
    ensures { result ≡ is_eager job.now }
{
    match job.mode {
        Mode::Offline => false,
        Mode::Missing => job.eager,
        Mode::Refresh => job.eager,
    }
}

/// The core of a job, which knows nothing.
pub(crate) fn fresh_core(alloc: Global, job: &Job) -> Result<Core, NoMemory>
    requires { IsFit job.now }
    ensures { IfOk result (IsFreshCore job.now) }
{
    let ask = job.ask.copy(alloc)?;
    Core::new(alloc, ask, is_eager(job), job.retries, LIMITS)
}

/// How the files of a job are asked for, at this moment in seconds.
pub(crate) fn plan_for(alloc: Global, job: &Job, moment: u64) -> Result<Plan, NoMemory>
    ensures { IfOk result (λ plan. plan ≡ plan_for job.now moment) }
{
    Ok(Plan {
        addresses: job.addresses.copy(alloc)?,
        checks: job.checks.copy(alloc)?,
        mode: job.mode,
        ttl: job.ttl,
        limit: job.limit,
        moment,
    })
}
