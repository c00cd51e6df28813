//! What the numbers tell of names, in rows that are numbered by their places.
ghost use Rattle.std.specs.Prelude.{◌≡◌, ◌==◌, ◌<◌, ℕ, List, Some, None, false, true, length};
ghost use Rattle.std.specs.Str.{bytes_eq};
ghost use Rattle.case_table.specs.Numbers.{are_numbered, name_at};
ghost use Rattle.case_table.specs.Rows.{value_at};

/// A law, with nothing to run, on rows in which a look-up of each name gives the row's place: each
/// place is found by its name, what is found is the place of the name, and so the place that is
/// found tells whether a name is that of a place.
pub fn names_numbered()
    ensures placed { (rows : List (List ℕ × ℕ)) → are_numbered rows ≡ true
        → (k : ℕ) → k < length rows → value_at (name_at rows k) rows ≡ Some k }
    ensures named { (rows : List (List ℕ × ℕ)) → are_numbered rows ≡ true
        → (name : List ℕ) (number : ℕ) → value_at name rows ≡ Some number
        → (number < length rows) × (name_at rows number ≡ name) }
    ensures told { (rows : List (List ℕ × ℕ)) → are_numbered rows ≡ true
        → (name : List ℕ) (number k : ℕ) → k < length rows → value_at name rows ≡ Some number
        → (number == k) ≡ bytes_eq name (name_at rows k) }
    ensures absent { (rows : List (List ℕ × ℕ)) → are_numbered rows ≡ true
        → (name : List ℕ) (k : ℕ) → k < length rows → value_at name rows ≡ None
        → bytes_eq name (name_at rows k) ≡ false }
{}
