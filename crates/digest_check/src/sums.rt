//! Three digests at once.
ghost use Rattle.std.specs.Prelude.{◌≡◌, ℕ, List, [], ◌++◌, IfOk};
ghost use Rattle.digest_check.specs.KeyAnswers.{damage_of};
ghost use Rattle.digest_check.specs.Digests.{digest_by, digest_of, digests_of};
ghost use Rattle.digest_check.specs.Fed.{IsFed};

use md5::{Digest as Md5Digest, Md5};
use res_base::{Check, Damage, Digest, NoMemory};
use sha1::Sha1;
use sha2::{Digest as Sha2Digest, Sha256};

/// Takes the bytes of a file in pieces, and gives the file's SHA-1 (FIPS 180-4), MD5 (RFC 1321) and
/// SHA-256 (FIPS 180-4).
#[derive(Drop)]
pub struct Sums {
    sha1: Sha1,
    md5: Md5,
    sha256: Sha256,
}

/// The three digests of a file.
#[derive(Clone, Copy, Debug, PartialEq, Eq, Drop)]
pub struct Digests {
    pub sha1: [u8; 20],
    pub md5: [u8; 16],
    pub sha256: [u8; 32],
}

impl Sums {
    /// Before the first byte.
    pub fn new() -> Sums
        ensures { IsFed result [] }
    {
        Sums {
            sha1: Sha1::new(),
            md5: Md5::new(),
            sha256: Sha256::new(),
        }
    }

    /// Takes the next bytes.
    pub fn update(&mut self, bytes: &[u8])
        ensures { (before : List ℕ) → IsFed self.old before → IsFed self.new (before ++ bytes.now) }
    {
        self.sha1.update(bytes);
        self.md5.update(bytes);
        self.sha256.update(bytes);
    }

    /// The digests of the bytes that were taken so far. More may be taken afterwards.
    pub fn so_far(&self) -> Result<Digests, NoMemory>
        ensures { IfOk result (λ made. (all : List ℕ) → IsFed self.now all → made ≡ digests_of all) }
    {
        let sums = Sums {
            sha1: self.sha1.clone()?,
            md5: self.md5.clone()?,
            sha256: self.sha256.clone()?,
        };
        Ok(sums.finish())
    }

    /// The digests of all bytes that were taken.
    pub fn finish(self) -> Digests
        ensures { (all : List ℕ) → IsFed self all → result ≡ digests_of all }
    {
        let Sums { sha1, md5, sha256 } = self;
        Digests {
            sha1: sha1.finalize(),
            md5: md5.finalize(),
            sha256: sha256.finalize(),
        }
    }
}

impl Digests {
    /// The digest that a check compares; `NoCheck` compares none.
    pub fn by(&self, check: Check) -> Option<Digest>
        ensures value { result ≡ digest_by check self.now }
        ensures bytes { (all : List ℕ) → self.now ≡ digests_of all → result ≡ digest_of check all }
    {
        match check {
            Check::Sha1 => Some(Digest::Sha1(self.sha1)),
            Check::Md5 => Some(Digest::Md5(self.md5)),
            Check::Sha256 => Some(Digest::Sha256(self.sha256)),
            Check::NoCheck => None,
        }
    }

    /// The damage of a file with these digests, where a check wants another one.
    pub fn damage(&self, check: Check, wanted: Digest) -> Option<Damage>
        ensures { result ≡ damage_of check wanted (digest_by check self.now) }
    {
        let got = self.by(check);
        if got == Some(wanted) {
            None
        } else {
            Some(Damage {
                check,
                wanted: Some(wanted),
                got,
            })
        }
    }
}
