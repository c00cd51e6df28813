//! The digest that a checksum file wants a file to have.
ghost use Rattle.std.specs.Prelude.{◌≡◌, ◌≢◌, ◌≤◌, ◌+◌, ◌++◌, IfOk, IfSome, IsTrue, None};
ghost use Rattle.res_base.specs.Causes.{HasCause};
ghost use Rattle.res_base.specs.Paths.{url_at};
ghost use Rattle.res_base.specs.World.{at};
ghost use Rattle.res_base.specs.declared.reading.Check.TheVariants.{NoCheck};
ghost use Rattle.digest_check.specs.ChecksumFiles.{suffix_of};
ghost use Rattle.digest_check.specs.KeyAnswers.{wanted};
ghost use Rattle.file_answers.specs.Demands.{is_of};
ghost use Rattle.link_base.specs.FilePaths.{IsFilePath};
ghost use Rattle.link_base.specs.Links.{Rows, failed_after, LinkKept};

use digest_check::{CHECKSUM_LIMIT, find_digest, suffix};
use link_base::{Got, Link, LinkErr};
use res_base::{Check, Digest, NoMemory, Text};
use std::alloc::Global;

/// The path of the checksum file of a check beside the file at a path.
fn path_beside(alloc: Global, path: &str, check: Check) -> Result<Text, NoMemory>
    ensures { IfOk result (λ made. made ≡ path.now ++ suffix_of check) }
{
    let suffix = suffix(check);
    Ok(Text::from_string(format!(in alloc; "{path}{suffix}")?))
}

/// The digest in the checksum file of a check beside a file; none where there is no such file, or it
/// is too long, or holds no digest of that kind.
pub(crate) fn wanted_digest<L: Link>(
    alloc: Global,
    link: &mut L,
    address: &str,
    path: &str,
    check: Check,
) -> Result<Option<Digest>, LinkErr>
    requires path { IsFilePath path.now }
    requires kind { check ≢ NoCheck }
    ensures answer { (w : Rows) → L.agrees link.old w
        → IfOk result (λ found. found ≡ wanted (at w) (url_at address.now path.now) check) }
    ensures kind { IfOk result (λ found. IfSome found (λ digest. IsTrue (is_of check digest))) }
    ensures cause { HasCause LinkErr.Failed (L.faults link.old) (L.faults link.new) result }
    ensures few { L.asked link.new ≤ L.asked link.old + 1 }
    ensures closed { L.open_file link.old ≡ None → L.open_file link.new ≡ None }
    ensures failed { L.failed_urls link.new
        ≡ failed_after (L.failed_urls link.old) (url_at address.now path.now ++ suffix_of check) result }
    ensures kept { LinkKept L.agrees L.faults L.asked L.failed_urls link.old link.new }
{
    let beside = path_beside(alloc, path, check)?;
    match link.get(alloc, address, beside.as_str(), CHECKSUM_LIMIT)? {
        Got::Bytes(bytes) => Ok(find_digest(check, bytes.as_slice())),
        Got::Absent | Got::TooLarge => Ok(None),
    }
}
