//! Why bytes gave no project, as printed.
ghost use Rattle.std.specs.Prelude.{◌≡◌, IfOk, string_bytes};
ghost use Rattle.project_cases.specs.Reasons.{damage_line as damage_line_of, digest_word as digest_word_of, fault_line as fault_line_of, field_word as field_word_of, reason_line as reason_line_of};

use res_base::{Check, Damage, Digest, Field, ReadFault, Reason};
use std::alloc::{AllocError, Global};
use value_cases::digests::digest_line;

fn field_word(field: Field) -> &'static str
    ensures { result.now ≡ field_word_of field }
{
    match field {
        Field::ParentOrg => "parent.groupId",
        Field::ParentName => "parent.artifactId",
        Field::ParentVersion => "parent.version",
        Field::Org => "groupId",
        Field::Name => "artifactId",
        Field::Version => "version",
    }
}

pub fn fault_line(alloc: Global, fault: ReadFault) -> Result<String, AllocError>
    ensures { IfOk result (λ line. string_bytes line ≡ fault_line_of fault) }
{
    match fault {
        ReadFault::BadText(place) => format!(in alloc; "bad-text {place}"),
        ReadFault::Doctype(place) => format!(in alloc; "doctype {place}"),
        ReadFault::TooDeep(place) => format!(in alloc; "too-deep {place}"),
        ReadFault::UnknownEncoding(place) => format!(in alloc; "unknown-encoding {place}"),
        ReadFault::NotProject => String::from_str(alloc, "not-project"),
        ReadFault::NoCoordinates(field) => {
            let field = field_word(field);
            format!(in alloc; "no-coordinates {field}")
        }
        ReadFault::NotMetadata => String::from_str(alloc, "not-metadata"),
    }
}

fn digest_word(alloc: Global, digest: Option<Digest>) -> Result<String, AllocError>
    ensures { IfOk result (λ word. string_bytes word ≡ digest_word_of digest) }
{
    match digest {
        None => String::from_str(alloc, "-"),
        Some(digest) => digest_line(alloc, digest),
    }
}

fn damage_line(alloc: Global, damage: Damage) -> Result<String, AllocError>
    ensures { IfOk result (λ line. string_bytes line ≡ damage_line_of damage) }
{
    let wanted = digest_word(alloc, damage.wanted)?;
    let got = digest_word(alloc, damage.got)?;
    match damage.check {
        Check::Sha1 => format!(in alloc; "sha1 {wanted} {got}"),
        Check::Md5 => format!(in alloc; "md5 {wanted} {got}"),
        Check::Sha256 => format!(in alloc; "sha256 {wanted} {got}"),
        Check::NoCheck => String::from_str(alloc, "none"),
    }
}

pub fn reason_line(alloc: Global, reason: Reason) -> Result<String, AllocError>
    ensures { IfOk result (λ line. string_bytes line ≡ reason_line_of reason) }
{
    match reason {
        Reason::Absent => String::from_str(alloc, "absent"),
        Reason::NotReadable(fault) => {
            let fault = fault_line(alloc, fault)?;
            format!(in alloc; "not-readable {fault}")
        }
        Reason::Damaged(damage) => {
            let damage = damage_line(alloc, damage)?;
            format!(in alloc; "damaged {damage}")
        }
        Reason::TooLarge => String::from_str(alloc, "too-large"),
        Reason::BadName => String::from_str(alloc, "name"),
    }
}
