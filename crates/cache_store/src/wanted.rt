//! Wanted digests, and the line of a part's record.
ghost use Rattle.std.specs.Prelude.{◌≡◌, ℕ, List, IfErr, IfOk, length as size};
ghost use Rattle.cache_images.specs.Sound.{RecordFits};
ghost use Rattle.cache_store.specs.Contents.{TellsRecord};
ghost use Rattle.cache_store.specs.Parts.{HasBytes};
ghost use Rattle.digest_check.specs.Digests.{digests_of};
ghost use Rattle.cache_store.specs.Wanted.{IsDigestOrMemory, TellsDigest, other_digest};

use crate::StoreErr;
use crate::part::Part;
use cache_layout::{Record, record_line, record_lines_read};
use digest_check::Digests;
use res_base::{Check, Copied, Digest, List, NoMemory, Text};
use std::alloc::Global;

/// The digest of the same kind as the wanted one, where it is another one.
fn other_digest(wanted: Digest, digests: &Digests) -> Option<Digest>
    ensures { result ≡ other_digest wanted digests.now }
{
    let got = match wanted {
        Digest::Sha1(_) => Digest::Sha1(digests.sha1),
        Digest::Md5(_) => Digest::Md5(digests.md5),
        Digest::Sha256(_) => Digest::Sha256(digests.sha256),
    };
    if got == wanted { None } else { Some(got) }
}

/// Whether these digests have the wanted one, if one is wanted.
fn compared(wanted: Option<Digest>, digests: &Digests) -> Result<(), StoreErr>
    ensures digest { (bytes : List ℕ) → digests.now ≡ digests_of bytes → TellsDigest wanted bytes result }
    ensures only { IfErr result IsDigestOrMemory }
{
    match wanted {
        None => Ok(()),
        Some(digest) => match other_digest(digest, digests) {
            None => Ok(()),
            Some(got) => Err(StoreErr::Differs(digest, got)),
        },
    }
}

/// The line of the record of a part with these digests.
fn line_of(
    alloc: Global,
    digests: &Digests,
    checks: &List<Check>,
    length: u64,
    moment: u64,
) -> Result<Text, NoMemory>
    ensures fits { IfOk result (λ line. (bytes : List ℕ) → length ≡ size bytes → digests.now ≡ digests_of bytes
        → RecordFits line bytes) }
    ensures tells { IfOk result (λ line. TellsRecord line checks.now moment) }
{
    record_lines_read();
    let checks = checks.copy(alloc)?;
    let sha1 = digests.sha1;
    let sha256 = digests.sha256;
    let entry = Record {
        checks,
        sha1,
        sha256: Some(sha256),
        length,
        moment,
    };
    record_line(alloc, &entry)
}

/// The line of the record of a part, unless its content has another digest than the wanted one.
pub(crate) fn sealed_line(
    alloc: Global,
    part: &Part,
    checks: &List<Check>,
    wanted: Option<Digest>,
    moment: u64,
) -> Result<Text, StoreErr>
    ensures fits { IfOk result (λ line. (bytes : List ℕ) → HasBytes part.now bytes → RecordFits line bytes) }
    ensures tells { IfOk result (λ line. TellsRecord line checks.now moment) }
    ensures digest { (bytes : List ℕ) → HasBytes part.now bytes → TellsDigest wanted bytes result }
    ensures only { IfErr result IsDigestOrMemory }
{
    let digests = part.sums.so_far()?;
    compared(wanted, &digests)?;
    let line = line_of(alloc, &digests, checks, part.length, moment)?;
    Ok(line)
}
