//! Laws of rows, as a function with nothing to run.
ghost use Rattle.std.specs.Prelude.{◌≡◌, Bool, List, [], filter};
ghost use Rattle.std.specs.Cmp.{IsEquivalence};
ghost use Rattle.std.specs.List.{IsDistinct, find};
ghost use Rattle.std.specs.Option.{option_or};
ghost use Rattle.row_lists.specs.RowLists.{last_of_key, row_key_eq, with_imported};
ghost use Rattle.res_base.specs.declared.pom.DepRecord.{DepRecord};

/// To have one key is an equivalence (`keys`). Of rows where the last of each key counted, each has
/// a key of its own, and so has each choice of them (`last`, `apart`); and imports keep it so
/// (`distinct`). Of imported rows a key finds what it finds in the rows before them, or else in
/// them (`found`).
pub fn row_laws()
    ensures keys { IsEquivalence row_key_eq }
    ensures last { (chosen : DepRecord → Bool) (rows : List DepRecord) →
        with_imported [] (filter chosen (last_of_key rows)) ≡ filter chosen (last_of_key rows) }
    ensures apart { (chosen : DepRecord → Bool) (rows : List DepRecord) →
        IsDistinct row_key_eq (filter chosen (last_of_key rows)) }
    ensures distinct { (rows more : List DepRecord) →
        IsDistinct row_key_eq rows → IsDistinct row_key_eq (with_imported rows more) }
    ensures found { (row : DepRecord) (rows more : List DepRecord) →
        find (row_key_eq row) (with_imported rows more)
        ≡ option_or (find (row_key_eq row) rows) (find (row_key_eq row) more) }
{}
