//! What checks ask of the bytes of a file.
ghost use Rattle.std.specs.Prelude.{◌≡◌, ℕ, List};
ghost use Rattle.res_base.specs.declared.reading.Check.{Check};
ghost use Rattle.digest_check.specs.Digests.{digests_of};
ghost use Rattle.digest_check.specs.KeyAnswers.{Held, checked, unless_damaged};
ghost use Rattle.file_answers.specs.Demands.{damage_by, demand_of, judged};

use digest_check::{Digests, Sums};
use res_base::{Answer, Check, Damage, Digest, List};

/// What a list of checks asks of the bytes of a file.
#[derive(Clone, Copy, Debug, PartialEq, Eq, Drop)]
pub enum Demand {
    /// Any bytes will do: `none` decides.
    AnyBytes,
    /// The bytes are to have this digest: this check decides, by a checksum file beside the file.
    DigestOf(Check, Digest),
    /// No check of the list decides, so no bytes will do.
    Undecided,
}

impl Demand {
    /// The damage of a file with these digests; none where it is as demanded.
    pub fn damage(&self, digests: &Digests) -> Option<Damage>
        ensures damage { result ≡ damage_by self.now digests.now }
        ensures answer { (held : Held) (url bytes : List ℕ) (list : List Check) → self.now ≡ demand_of held url list
            → digests.now ≡ digests_of bytes → unless_damaged result bytes ≡ checked held url bytes list }
    {
        match self {
            Demand::AnyBytes => None,
            Demand::DigestOf(check, digest) => digests.damage(*check, *digest),
            Demand::Undecided => Some(Damage {
                check: Check::NoCheck,
                wanted: None,
                got: None,
            }),
        }
    }

    /// The answer to a file with these bytes: the bytes, or their damage.
    pub fn judge(&self, bytes: List<u8>) -> Answer
        ensures value { result ≡ judged self.now bytes }
        ensures answer { (held : Held) (url : List ℕ) (list : List Check) → self.now ≡ demand_of held url list
            → result ≡ checked held url bytes list }
    {
        if let Demand::AnyBytes = self {
            return Answer::Bytes(bytes);
        }
        let mut sums = Sums::new();
        sums.update(bytes.as_slice());
        match self.damage(&sums.finish()) {
            None => Answer::Bytes(bytes),
            Some(damage) => Answer::Damaged(damage),
        }
    }
}
