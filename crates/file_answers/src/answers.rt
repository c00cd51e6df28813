//! The answer to a file under a list of checks.
ghost use Rattle.std.specs.Prelude.{◌≡◌, ◌+◌, ◌≤◌, IfOk, None};
ghost use Rattle.res_base.specs.Causes.{HasCause, Rose};
ghost use Rattle.res_base.specs.Paths.{url_at};
ghost use Rattle.res_base.specs.World.{at};
ghost use Rattle.digest_check.specs.KeyAnswers.{answer_at};
ghost use Rattle.file_answers.specs.Asking.{files_of, FailedBeside, FitsLimit};
ghost use Rattle.file_answers.specs.Demands.{MayAnswer};
ghost use Rattle.link_base.specs.FilePaths.{IsFilePath};
ghost use Rattle.link_base.specs.Links.{Rows, LinkKept};

use crate::checks::ask_checks;
use link_base::{Got, Link, LinkErr};
use res_base::{Answer, Check};
use std::alloc::Global;

/// The answer to the file at a path below an address, under a list of checks and a limit in bytes:
/// absent, too large, or its bytes where the first check that decides accepts them, or their damage.
/// Where no check decides the answer is damage without a check.
///
/// The file is asked for first, and then the checksum files, as `ask_checks` does.
pub fn ask_file<L: Link>(
    alloc: Global,
    link: &mut L,
    address: &str,
    path: &str,
    checks: &[Check],
    limit: u64,
) -> Result<Answer, LinkErr>
    requires { IsFilePath path.now }
    ensures answer { (w : Rows) → L.agrees link.old w
        → IfOk result (λ answer. answer ≡ answer_at (at w) checks.now limit (url_at address.now path.now)) }
    ensures within { IfOk result (FitsLimit limit) }
    ensures kind { IfOk result (MayAnswer checks.now) }
    ensures cause { HasCause LinkErr.Failed (L.faults link.old) (L.faults link.new) result }
    ensures asked { Rose (L.asked link.old) (L.asked link.new) }
    ensures few { L.asked link.new ≤ L.asked link.old + files_of checks.now }
    ensures closed { L.open_file link.new ≡ None }
    ensures failed { FailedBeside (url_at address.now path.now) (L.failed_urls link.old) (L.failed_urls link.new) result }
    ensures kept { LinkKept L.agrees L.faults L.asked L.failed_urls link.old link.new }
{
    let bytes = match link.get(alloc, address, path, limit)? {
        Got::Bytes(bytes) => bytes,
        Got::Absent => return Ok(Answer::Absent),
        Got::TooLarge => return Ok(Answer::TooLarge),
    };
    let demand = ask_checks(alloc, link, address, path, checks)?;
    Ok(demand.judge(bytes))
}
