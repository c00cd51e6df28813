//! What repositories answer, and what is read of it.
use crate::{Copied, List, NoMemory, PomRecord, Text};
use std::alloc::Global;

/// How the bytes of a file are checked: by the digest in the file of the same URL with `.sha1`,
/// `.md5` or `.sha256` at its end, or not at all.
#[derive(Clone, Copy, Debug, PartialEq, Eq, Drop)]
pub enum Check {
    Sha1,
    Md5,
    Sha256,
    /// Accepts every file.
    NoCheck,
}

/// A digest, by its kind.
#[derive(Clone, Copy, Debug, PartialEq, Eq, Drop)]
pub enum Digest {
    Sha1([u8; 20]),
    Md5([u8; 16]),
    Sha256([u8; 32]),
}

/// The check that a file's bytes failed, the digest that was wanted and the one that they have.
/// With `NoCheck` and no digests: no check of the list decided.
#[derive(Clone, Copy, Debug, PartialEq, Eq, Drop)]
pub struct Damage {
    pub check: Check,
    pub wanted: Option<Digest>,
    pub got: Option<Digest>,
}

/// A coordinate of a project, or of its parent.
#[derive(Clone, Copy, Debug, PartialEq, Eq, Drop)]
pub enum Field {
    ParentOrg,
    ParentName,
    ParentVersion,
    Org,
    Name,
    Version,
}

/// Why bytes gave no POM or listing. The numbers are places in the bytes.
#[derive(Clone, Copy, Debug, PartialEq, Eq, Drop)]
pub enum ReadFault {
    /// No document goes on from more bytes than these.
    BadText(u64),
    /// A document type declaration begins here.
    Doctype(u64),
    /// Here begins an element inside of too many others.
    TooDeep(u64),
    /// Here stands the name of an encoding that is not read.
    UnknownEncoding(u64),
    /// The root is not `project`.
    NotProject,
    /// A coordinate is absent.
    NoCoordinates(Field),
    /// The root is not `metadata`.
    NotMetadata,
}

/// What a repository answers for a file.
#[derive(Drop)]
pub enum Answer {
    Bytes(List<u8>),
    /// The file went to the store; this is its length in bytes.
    Stored(u64),
    Absent,
    Damaged(Damage),
    /// The file has more bytes than the limit.
    TooLarge,
}

/// What is read of an answer.
#[derive(Drop)]
pub enum Reading {
    Pom(PomRecord),
    /// The versions of a module, as listed.
    Listing(List<Text>),
    /// An artifact in the store, by its length in bytes.
    Stored(u64),
    NotReadable(ReadFault),
    Absent,
    Damaged(Damage),
    TooLarge,
}

/// Why a repository gave no project.
#[derive(Clone, Copy, Debug, PartialEq, Eq, Drop)]
pub enum Reason {
    Absent,
    NotReadable(ReadFault),
    Damaged(Damage),
    TooLarge,
    /// The coordinate is not plain, so it was not asked for.
    BadName,
}

impl Copied for Check {
    fn copy(&self, _alloc: Global) -> Result<Check, NoMemory> {
        Ok(*self)
    }
}

impl Copied for Digest {
    fn copy(&self, _alloc: Global) -> Result<Digest, NoMemory> {
        Ok(*self)
    }
}

impl Copied for Damage {
    fn copy(&self, _alloc: Global) -> Result<Damage, NoMemory> {
        Ok(*self)
    }
}

impl Copied for Field {
    fn copy(&self, _alloc: Global) -> Result<Field, NoMemory> {
        Ok(*self)
    }
}

impl Copied for ReadFault {
    fn copy(&self, _alloc: Global) -> Result<ReadFault, NoMemory> {
        Ok(*self)
    }
}

impl Copied for Reason {
    fn copy(&self, _alloc: Global) -> Result<Reason, NoMemory> {
        Ok(*self)
    }
}

impl Copied for Answer {
    fn copy(&self, alloc: Global) -> Result<Answer, NoMemory> {
        match self {
            Answer::Bytes(bytes) => Ok(Answer::Bytes(List::from_slice(alloc, bytes.as_slice())?)),
            Answer::Stored(len) => Ok(Answer::Stored(*len)),
            Answer::Absent => Ok(Answer::Absent),
            Answer::Damaged(damage) => Ok(Answer::Damaged(*damage)),
            Answer::TooLarge => Ok(Answer::TooLarge),
        }
    }
}

impl Copied for Reading {
    fn copy(&self, alloc: Global) -> Result<Reading, NoMemory> {
        match self {
            Reading::Pom(pom) => Ok(Reading::Pom(pom.copy(alloc)?)),
            Reading::Listing(versions) => Ok(Reading::Listing(versions.copy(alloc)?)),
            Reading::Stored(len) => Ok(Reading::Stored(*len)),
            Reading::NotReadable(fault) => Ok(Reading::NotReadable(*fault)),
            Reading::Absent => Ok(Reading::Absent),
            Reading::Damaged(damage) => Ok(Reading::Damaged(*damage)),
            Reading::TooLarge => Ok(Reading::TooLarge),
        }
    }
}
