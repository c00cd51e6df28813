//! The reader of answers.
ghost use Rattle.std.specs.Prelude.{◌≡◌, ◌≢◌, ◌+◌, true, IfOk, OnOk};
ghost use Rattle.answer_reading.specs.Readings.{fault_in_listing, fault_in_pom, may_answer, read_bytes as reading_of_bytes, reading_of, steps_of, steps_of_bytes};
ghost use Rattle.project_lookup.specs.KnownPairs.{stands_at};

use meta_record::{ListingErr, read_listing};
use pom_record::{PomErr, read_pom};
use res_base::{Answer, NoMemory, ReadFault, Reading, Role, Steps};
use std::alloc::Global;
use std::sync::ledger::Ledger;

/// The fault of bytes that are no project file.
fn pom_fault(refusal: PomErr) -> Result<ReadFault, NoMemory>
    ensures value { IfOk result (λ fault. fault ≡ fault_in_pom refusal) }
    ensures due { OnOk result (refusal ≢ PomErr.NoMemory) }
{
    match refusal {
        PomErr::BadText(place) => Ok(ReadFault::BadText(place)),
        PomErr::Doctype(place) => Ok(ReadFault::Doctype(place)),
        PomErr::TooDeep(place) => Ok(ReadFault::TooDeep(place)),
        PomErr::UnknownEncoding(place) => Ok(ReadFault::UnknownEncoding(place)),
        PomErr::NotProject => Ok(ReadFault::NotProject),
        PomErr::NoCoordinates(field) => Ok(ReadFault::NoCoordinates(field)),
        PomErr::NoMemory => Err(NoMemory),
    }
}

/// The fault of bytes that are no listing.
fn listing_fault(refusal: ListingErr) -> Result<ReadFault, NoMemory>
    ensures value { IfOk result (λ fault. fault ≡ fault_in_listing refusal) }
    ensures due { OnOk result (refusal ≢ ListingErr.NoMemory) }
{
    match refusal {
        ListingErr::BadText(place) => Ok(ReadFault::BadText(place)),
        ListingErr::Doctype(place) => Ok(ReadFault::Doctype(place)),
        ListingErr::TooDeep(place) => Ok(ReadFault::TooDeep(place)),
        ListingErr::UnknownEncoding(place) => Ok(ReadFault::UnknownEncoding(place)),
        ListingErr::NotMetadata => Ok(ReadFault::NotMetadata),
        ListingErr::NoMemory => Err(NoMemory),
    }
}

/// What is read of the bytes of a file.
fn read_bytes<L: Ledger>(
    alloc: Global,
    role: Role,
    bytes: &[u8],
    steps: &mut Steps<L>,
) -> Result<Reading, NoMemory>
    ensures value { IfOk result (λ made. made ≡ reading_of_bytes role bytes.now) }
    ensures role { IfOk result (λ made. stands_at made role ≡ true) }
    ensures steps { steps.new ≡ steps.old + steps_of_bytes role bytes.now }
{
    match role {
        Role::Pom => match read_pom(alloc, bytes, steps) {
            Ok(pom) => Ok(Reading::Pom(pom)),
            Err(refusal) => Ok(Reading::NotReadable(pom_fault(refusal)?)),
        },
        Role::Listing => match read_listing(alloc, bytes, steps) {
            Ok(versions) => Ok(Reading::Listing(versions)),
            Err(refusal) => Ok(Reading::NotReadable(listing_fault(refusal)?)),
        },
        Role::Artifact => Ok(Reading::Stored(bytes.len() as u64)),
    }
}

/// What is read of an answer to a key of a role: the record of a project file, the versions of a
/// listing, or why the bytes are neither; of an artifact its length; and what else was answered.
///
/// Only artifacts go to the store. It takes one step for each byte of a project file or a listing,
/// and else none. The reading has the role of the key.
pub fn read_answer<L: Ledger>(
    alloc: Global,
    role: Role,
    answer: Answer,
    steps: &mut Steps<L>,
) -> Result<Reading, NoMemory>
    requires { may_answer answer role ≡ true }
    ensures value { IfOk result (λ made. made ≡ reading_of role answer) }
    ensures role { IfOk result (λ made. stands_at made role ≡ true) }
    ensures steps { steps.new ≡ steps.old + steps_of role answer }
{
    match answer {
        Answer::Bytes(bytes) => read_bytes(alloc, role, bytes.as_slice(), steps),
        Answer::Stored(length) => Ok(Reading::Stored(length)),
        Answer::Absent => Ok(Reading::Absent),
        Answer::Damaged(damage) => Ok(Reading::Damaged(damage)),
        Answer::TooLarge => Ok(Reading::TooLarge),
    }
}
