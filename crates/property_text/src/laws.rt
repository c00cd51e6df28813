//! Laws of cutting and filling, as functions with nothing to run.
ghost use Rattle.std.specs.Prelude.{◌≡◌, ◌≤◌, ◌⊎◌, ℕ, List, Option, false, length};
ghost use Rattle.property_text.specs.Filled.{filled};
ghost use Rattle.property_text.specs.Laws.{has_value, written};
ghost use Rattle.property_text.specs.Segments.{segments};

/// The segments of a text, written out, are the text.
pub fn cut_laws()
    ensures { (text : List ℕ) → written (segments text) ≡ text }
{}

/// A text stays where no name in it has a value, so one without a hole does; and filling gives the
/// text as it was written or one of at most 65,536 bytes.
pub fn fill_laws()
    ensures stays { (value_of : List ℕ → Option (List ℕ)) (text : List ℕ) → has_value value_of (segments text) ≡ false → filled value_of text ≡ text }
    ensures short { (value_of : List ℕ → Option (List ℕ)) (text : List ℕ) → (filled value_of text ≡ text) ⊎ (length (filled value_of text) ≤ 65536) }
{}
