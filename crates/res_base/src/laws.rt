//! Laws of equality, of keys in lists and of what is known, with nothing to run.
ghost use Rattle.std.specs.Prelude.{◌≡◌, ◌≤◌, ◌*◌, ◌↔◌, ◌∷◌, ◌++◌, ℕ, List, [], Some, None, count_by, length, true};
ghost use Rattle.res_base.specs.Known.{Grows, HasDistinctKeys, Known, known_of};
ghost use Rattle.res_base.specs.Members.{Among, each_once};
ghost use Rattle.res_base.specs.Names.{coord_eq, key_eq, module_eq, role_eq, text_eq};
ghost use Rattle.res_base.specs.declared.coord.Coord.{Coord};
ghost use Rattle.res_base.specs.declared.coord.Module.{Module};
ghost use Rattle.res_base.specs.declared.key.FileKey.{FileKey};
ghost use Rattle.res_base.specs.declared.key.Role.{Role};
ghost use Rattle.res_base.specs.declared.reading.Reading.{Reading};

/// A law: the tests of equality say exactly whether two values are one.
pub fn equality_decided()
    ensures texts { (a b : List ℕ) → (text_eq a b ≡ true) ↔ (a ≡ b) }
    ensures modules { (a b : Module) → (module_eq a b ≡ true) ↔ (a ≡ b) }
    ensures coords { (a b : Coord) → (coord_eq a b ≡ true) ↔ (a ≡ b) }
    ensures roles { (a b : Role) → (role_eq a b ≡ true) ↔ (a ≡ b) }
    ensures keys { (a b : FileKey) → (key_eq a b ≡ true) ↔ (a ≡ b) }
{}

/// A law: keys that are all among others, each at most `most` times, are at most `most` times as
/// many as those; and a list without its repeats has the same keys, each once.
pub fn keys_counted()
    ensures pigeons { (most : ℕ) (keys others : List FileKey)
        → ((key : FileKey) → Among key keys → Among key others)
        → ((key : FileKey) → count_by (key_eq key) keys ≤ most)
        → length keys ≤ most * length others }
    ensures kept { (key : FileKey) (keys : List FileKey) → Among key keys ↔ Among key (each_once key_eq keys) }
    ensures once { (key : FileKey) (keys : List FileKey) → count_by (key_eq key) (each_once key_eq keys) ≤ 1 }
{}

/// A law: what is known grows by more pairs at the end, grows into itself, and grows step by step.
pub fn known_grows()
    ensures more { (pairs more : List (FileKey × Reading)) → Grows (known_of pairs) (known_of (pairs ++ more)) }
    ensures itself { (known : Known) → Grows known known }
    ensures steps { (first second third : Known) → Grows first second → Grows second third → Grows first third }
{}

/// A law: what is known of a key is the reading of one of the pairs, a key of a pair is known, a
/// new key is known by the pair that came last, and two lists of the same pairs are one map.
pub fn known_pairs()
    ensures among { (pairs : List (FileKey × Reading)) (key : FileKey) (reading : Reading)
        → known_of pairs key ≡ Some reading → Among (key, reading) pairs }
    ensures known { (pairs : List (FileKey × Reading)) (key : FileKey) (reading : Reading)
        → HasDistinctKeys pairs → Among (key, reading) pairs → known_of pairs key ≡ Some reading }
    ensures unknown { (pairs : List (FileKey × Reading)) (key : FileKey) (reading : Reading)
        → known_of pairs key ≡ None → ¬ Among (key, reading) pairs }
    ensures new { (pairs : List (FileKey × Reading)) (key : FileKey) (reading : Reading)
        → known_of pairs key ≡ None → known_of (pairs ++ (key, reading) ∷ []) key ≡ Some reading }
    ensures same { (pairs others : List (FileKey × Reading)) → HasDistinctKeys pairs
        → ((pair : FileKey × Reading) → Among pair pairs ↔ Among pair others) → known_of pairs ≡ known_of others }
{}
