//! Why a repository gave no project or no file.
ghost use Rattle.std.specs.Prelude.{◌≡◌, ◌++◌, IfOk, codes};
ghost use Rattle.hex.specs.Hex.{encode_lower};
ghost use Rattle.verdict_print.specs.Reasons.{checked_text, damage_text, digest_or_dash, digest_text, failed_text, fault_text, field_text, reason_text};

use crate::texts::numbered;
use res_base::{Check, Damage, Digest, Field, NoMemory, ReadFault, Reason, Text};
use std::alloc::Global;

fn field_text(field: Field) -> &'static str
    ensures { result.now ≡ field_text field }
{
    match field {
        Field::ParentOrg => "parent.groupId",
        Field::ParentName => "parent.artifactId",
        Field::ParentVersion => "parent.version",
        Field::Org => "groupId",
        Field::Name => "artifactId",
        Field::Version => "version",
    }
}

fn no_coordinates(alloc: Global, field: Field) -> Result<Text, NoMemory>
    ensures { IfOk result (λ text. text ≡ codes "no-coordinates " ++ field_text field) }
{
    let mut text = Text::of(alloc, "no-coordinates ")?;
    text.push_str(field_text(field))?;
    Ok(text)
}

fn fault_text(alloc: Global, fault: ReadFault) -> Result<Text, NoMemory>
    ensures { IfOk result (λ text. text ≡ fault_text fault) }
{
    match fault {
        ReadFault::BadText(place) => numbered(alloc, "bad-text", place),
        ReadFault::Doctype(place) => numbered(alloc, "doctype", place),
        ReadFault::TooDeep(place) => numbered(alloc, "too-deep", place),
        ReadFault::UnknownEncoding(place) => numbered(alloc, "unknown-encoding", place),
        ReadFault::NotProject => Text::of(alloc, "not-project"),
        ReadFault::NoCoordinates(field) => no_coordinates(alloc, field),
        ReadFault::NotMetadata => Text::of(alloc, "not-metadata"),
    }
}

fn hex_text(alloc: Global, bytes: &[u8]) -> Result<Text, NoMemory>
    ensures { IfOk result (λ text. text ≡ encode_lower bytes.now) }
{
    Ok(Text::from_string(hex::encode(alloc, bytes)?))
}

fn digest_text(alloc: Global, digest: Digest) -> Result<Text, NoMemory>
    ensures { IfOk result (λ text. text ≡ digest_text digest) }
{
    match digest {
        Digest::Sha1(bytes) => hex_text(alloc, &bytes),
        Digest::Md5(bytes) => hex_text(alloc, &bytes),
        Digest::Sha256(bytes) => hex_text(alloc, &bytes),
    }
}

fn digest_or_dash(alloc: Global, digest: Option<Digest>) -> Result<Text, NoMemory>
    ensures { IfOk result (λ text. text ≡ digest_or_dash digest) }
{
    match digest {
        None => Text::of(alloc, "-"),
        Some(digest) => digest_text(alloc, digest),
    }
}

/// A check that failed, and both digests.
fn failed_text(
    alloc: Global,
    check: &str,
    wanted: Option<Digest>,
    got: Option<Digest>,
) -> Result<Text, NoMemory>
    ensures { IfOk result (λ text. text ≡ failed_text check.now wanted got) }
{
    let mut text = Text::of(alloc, "damaged ")?;
    text.push_str(check)?;
    text.push_str(" ")?;
    text.push_str(digest_or_dash(alloc, wanted)?.as_str())?;
    text.push_str(" ")?;
    text.push_str(digest_or_dash(alloc, got)?.as_str())?;
    Ok(text)
}

fn checked_text(
    alloc: Global,
    check: Check,
    wanted: Option<Digest>,
    got: Option<Digest>,
) -> Result<Text, NoMemory>
    ensures { IfOk result (λ text. text ≡ checked_text check wanted got) }
{
    match check {
        Check::Sha1 => failed_text(alloc, "sha1", wanted, got),
        Check::Md5 => failed_text(alloc, "md5", wanted, got),
        Check::Sha256 => failed_text(alloc, "sha256", wanted, got),
        Check::NoCheck => Text::of(alloc, "damaged none"),
    }
}

fn not_readable(alloc: Global, fault: ReadFault) -> Result<Text, NoMemory>
    ensures { IfOk result (λ text. text ≡ codes "not-readable " ++ fault_text fault) }
{
    let mut text = Text::of(alloc, "not-readable ")?;
    text.push_str(fault_text(alloc, fault)?.as_str())?;
    Ok(text)
}

fn damage_text(alloc: Global, damage: Damage) -> Result<Text, NoMemory>
    ensures { IfOk result (λ text. text ≡ damage_text damage) }
{
    checked_text(alloc, damage.check, damage.wanted, damage.got)
}

/// Why a repository gave nothing, in words.
pub(crate) fn reason_text(alloc: Global, reason: Reason) -> Result<Text, NoMemory>
    ensures { IfOk result (λ text. text ≡ reason_text reason) }
{
    match reason {
        Reason::Absent => Text::of(alloc, "absent"),
        Reason::NotReadable(fault) => not_readable(alloc, fault),
        Reason::Damaged(damage) => damage_text(alloc, damage),
        Reason::TooLarge => Text::of(alloc, "too-large"),
        Reason::BadName => Text::of(alloc, "name"),
    }
}
