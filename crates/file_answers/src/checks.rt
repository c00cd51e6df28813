//! Checksum files, asked for in the order of the checks.
ghost use Rattle.std.specs.Prelude.{◌≡◌, ◌+◌, ◌≤◌, IfOk, None, count_by};
ghost use Rattle.res_base.specs.Causes.{HasCause};
ghost use Rattle.res_base.specs.Paths.{url_at};
ghost use Rattle.res_base.specs.World.{at};
ghost use Rattle.file_answers.specs.Asking.{FailedBeside, has_file};
ghost use Rattle.file_answers.specs.Demands.{demand_of, MayDemand};
ghost use Rattle.link_base.specs.FilePaths.{IsFilePath};
ghost use Rattle.link_base.specs.Links.{Rows, LinkKept};

use crate::Demand;
use crate::wanted::wanted_digest;
use link_base::{Link, LinkErr};
use res_base::Check;
use std::alloc::Global;

/// What a list of checks asks of the file at a path below an address. The first check that decides
/// counts: `none` always does, another where its checksum file stands beside the file, is no longer
/// than 64 KiB and holds a digest. Only the checksum files up to there are asked for, in the order of
/// the checks, and the file itself is not: so it may be asked for afterwards, in pieces.
pub fn ask_checks<L: Link>(
    alloc: Global,
    link: &mut L,
    address: &str,
    path: &str,
    checks: &[Check],
) -> Result<Demand, LinkErr>
    requires { IsFilePath path.now }
    ensures answer { (w : Rows) → L.agrees link.old w
        → IfOk result (λ demand. demand ≡ demand_of (at w) (url_at address.now path.now) checks.now) }
    ensures kind { IfOk result (MayDemand checks.now) }
    ensures cause { HasCause LinkErr.Failed (L.faults link.old) (L.faults link.new) result }
    ensures few { L.asked link.new ≤ L.asked link.old + count_by has_file checks.now }
    ensures closed { L.open_file link.old ≡ None → L.open_file link.new ≡ None }
    ensures failed { FailedBeside (url_at address.now path.now) (L.failed_urls link.old) (L.failed_urls link.new) result }
    ensures kept { LinkKept L.agrees L.faults L.asked L.failed_urls link.old link.new }
{
    for check in checks {
        if *check == Check::NoCheck {
            return Ok(Demand::AnyBytes);
        }
        if let Some(digest) = wanted_digest(alloc, link, address, path, *check)? {
            return Ok(Demand::DigestOf(*check, digest));
        }
    }
    Ok(Demand::Undecided)
}
