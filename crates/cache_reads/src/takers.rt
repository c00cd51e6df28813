//! What takes the bytes of a file in pieces.
ghost use Rattle.std.specs.Prelude.{◌≡◌, ◌++◌, ℕ, List, [], Bool, false, IfSome, OnOk, is_some};
ghost use Rattle.cache_reads.specs.Finds.{measured_by, second_of};
ghost use Rattle.cache_reads.specs.Measuring.{IsMeasuring};
ghost use Rattle.sha2.specs.Hashers.{Holds256};

use cache_layout::Measured;
use res_base::NoMemory;
use sha1::Sha1;
use sha2::{Digest as Sha2Digest, Sha256};

/// Takes the bytes of a file in pieces.
pub(crate) trait Taker {
    /// These bytes were taken.
    ghost took: { Self → List ℕ → Type 0 };

    /// Whether it computes a SHA-256.
    ghost second: { Self → Bool };

    fn take(&mut self, bytes: &[u8]) -> Result<(), NoMemory>
        ensures took { OnOk result ((before : List ℕ) → took self.old before → took self.new (before ++ bytes.now)) }
        ensures second { second self.new ≡ second self.old };
}

/// Keeps all the bytes.
#[derive(Drop)]
pub(crate) struct Whole {
    pub(crate) bytes: Vec<u8>,
}

impl Taker for Whole {
    ghost took = { λ whole bytes. whole.bytes.items ≡ bytes };

    ghost second = { λ whole. false };

    fn take(&mut self, bytes: &[u8]) -> Result<(), NoMemory> {
        self.bytes.extend_from_slice(bytes)?;
        Ok(())
    }
}

/// Measures the bytes, and keeps none. The SHA-256 is computed only where it is wanted.
#[derive(Drop)]
pub(crate) struct Measuring {
    pub(crate) sha1: Sha1,
    pub(crate) sha256: Option<Sha256>,
    pub(crate) length: u64,
}

impl Taker for Measuring {
    ghost took = { IsMeasuring };

    ghost second = { λ measure. is_some measure.sha256 };

    fn take(&mut self, bytes: &[u8]) -> Result<(), NoMemory> {
        let Some(length) = self.length.checked_add(bytes.len() as u64) else {
            return Err(NoMemory);
        };
        self.length = length;
        self.sha1.update(bytes);
        take_second(&mut self.sha256, bytes);
        Ok(())
    }
}

impl Measuring {
    /// Before the first byte.
    pub(crate) fn new(second: bool) -> Measuring
        ensures took { IsMeasuring result [] }
        ensures second { is_some result.sha256 ≡ second }
    {
        Measuring {
            sha1: Sha1::new(),
            sha256: begin_second(second),
            length: 0,
        }
    }

    /// The measure of the bytes that were taken.
    pub(crate) fn finish(self) -> Measured
        ensures { (bytes : List ℕ) → IsMeasuring self bytes → result ≡ measured_by (is_some self.sha256) bytes }
    {
        let Measuring {
            sha1,
            sha256,
            length,
        } = self;
        let sha1 = sha1.finalize();
        let sha256 = finish_second(sha256);
        Measured {
            sha1,
            sha256,
            length,
        }
    }
}

/// What computes the SHA-256, where it is wanted.
fn begin_second(second: bool) -> Option<Sha256>
    ensures wanted { is_some result ≡ second }
    ensures holds { IfSome result (λ hasher. Holds256 hasher []) }
{
    if second { Some(Sha256::new()) } else { None }
}

/// Takes bytes for the SHA-256, where it is computed.
fn take_second(hasher: &mut Option<Sha256>, bytes: &[u8])
    ensures wanted { is_some hasher.new ≡ is_some hasher.old }
    ensures holds { (before : List ℕ) → IfSome hasher.old (λ h. Holds256 h before)
        → IfSome hasher.new (λ h. Holds256 h (before ++ bytes.now)) }
{
    if let Some(hasher) = hasher {
        hasher.update(bytes);
    }
}

/// The SHA-256, where it was computed.
fn finish_second(hasher: Option<Sha256>) -> Option<[u8; 32]>
    ensures { (bytes : List ℕ) → IfSome hasher (λ h. Holds256 h bytes) → result ≡ second_of (is_some hasher) bytes }
{
    match hasher {
        None => None,
        Some(hasher) => Some(hasher.finalize()),
    }
}
