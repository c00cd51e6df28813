//! The answer to a key.
ghost use Rattle.std.specs.Prelude.{◌≡◌, ◌+◌, ◌≤◌, [], IfOk, None, slice_get, unwrap_or};
ghost use Rattle.res_base.specs.Causes.{HasCause, Rose};
ghost use Rattle.digest_check.specs.KeyAnswers.{answer, key_url, limit_of};
ghost use Rattle.file_answers.specs.Asking.{files_of, FailedBeside, FitsLimit};
ghost use Rattle.file_answers.specs.Demands.{MayAnswer};
ghost use Rattle.link_base.specs.FilePaths.{IsFilePath};
ghost use Rattle.link_base.specs.Links.{Rows, LinkKept};

use crate::ask_file;
use digest_check::TEXT_LIMIT;
use link_base::{Link, LinkErr};
use res_base::{Answer, Check, FileKey, List, Role, Text};
use std::alloc::Global;

/// The address of the repository at a place of a list; empty where there is none.
fn address_of(addresses: &List<Text>, repo: u32) -> &str
    ensures { result.now ≡ unwrap_or (slice_get addresses.now repo) [] }
{
    match addresses.get(repo as usize) {
        Some(address) => address.as_str(),
        None => "",
    }
}

/// The greatest length of a file: its own for POMs and listings, this one for artifacts.
fn limit_of(role: Role, limit: u64) -> u64
    ensures { result ≡ limit_of role limit }
{
    match role {
        Role::Pom | Role::Listing => TEXT_LIMIT,
        Role::Artifact => limit,
    }
}

/// The answer to a key over repositories, under a list of checks and a limit for artifacts: that of
/// `ask_file` at the key's path, below the address of its repository. POMs and listings have a
/// limit of their own, 16 MiB.
pub fn ask_key<L: Link>(
    alloc: Global,
    link: &mut L,
    addresses: &List<Text>,
    checks: &[Check],
    limit: u64,
    key: &FileKey,
) -> Result<Answer, LinkErr>
    requires { IsFilePath key.now.path }
    ensures answer { (w : Rows) → L.agrees link.old w
        → IfOk result (λ got. got ≡ answer w addresses.now checks.now limit key.now) }
    ensures within { IfOk result (FitsLimit (limit_of key.now.role limit)) }
    ensures kind { IfOk result (MayAnswer checks.now) }
    ensures cause { HasCause LinkErr.Failed (L.faults link.old) (L.faults link.new) result }
    ensures asked { Rose (L.asked link.old) (L.asked link.new) }
    ensures few { L.asked link.new ≤ L.asked link.old + files_of checks.now }
    ensures closed { L.open_file link.new ≡ None }
    ensures failed { FailedBeside (key_url addresses.now key.now) (L.failed_urls link.old) (L.failed_urls link.new) result }
    ensures kept { LinkKept L.agrees L.faults L.asked L.failed_urls link.old link.new }
{
    let address = address_of(addresses, key.repo);
    let limit = limit_of(key.role, limit);
    ask_file(alloc, link, address, key.path.as_str(), checks, limit)
}
