//! Where a text that a grammar refuses leaves that grammar.
//!
//! A parser that refuses a text tells the place: how many bytes of the text still begin some
//! accepted text. `specs/Place.antt` says so for any grammar, given by the texts that it accepts.
//! `specs/Reader.antt` has readers that go byte by byte, and `proofs/Readers.antt` shows that
//! where such a reader stops is the place, if the reader is right for the grammar.
#![tactic(auto)]

ghost use Rattle.std.specs.Prelude.{◌≡◌, ℕ, ◌<◌, ◌≤◌, List, length, take};
ghost use Rattle.fault_place.specs.Place.{GoesOn, IsPlace};

/// A grammar, given by the texts that it accepts.
pub trait Grammar {
    ghost Accepts: { List ℕ → Type 0 };
}

/// A law, with nothing to run: a text has at most one place in a grammar. Each prefix of the text
/// up to that place begins an accepted text, and no longer prefix does.
pub fn one_place<G: Grammar>()
    ensures one { (text : List ℕ) (m n : ℕ) → IsPlace G.Accepts text m → IsPlace G.Accepts text n → m ≡ n }
    ensures goes_on { (text : List ℕ) (place k : ℕ)
        → IsPlace G.Accepts text place → k ≤ place → GoesOn G.Accepts (take k text) }
    ensures longest { (text : List ℕ) (place k : ℕ)
        → IsPlace G.Accepts text place → place < k → k ≤ length text → ¬ GoesOn G.Accepts (take k text) }
{}
