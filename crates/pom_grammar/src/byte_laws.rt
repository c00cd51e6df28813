//! Laws of single bytes, names and heads, for a reader that goes over documents in its own way.

ghost use Rattle.std.specs.Prelude.{◌≡◌, ℕ, List, ◌∷◌, ◌++◌, true, false, codes};
ghost use Rattle.std.specs.Str.{IsUtf8};
ghost use Rattle.ascii_bytes.specs.Classes.{is_white};
ghost use Rattle.pom_grammar.specs.declared.encoding.Encoding.TheVariants.{Utf8, Ascii};
ghost use Rattle.pom_grammar.specs.Characters.{is_high, is_name_start, is_name_byte};
ghost use Rattle.pom_grammar.specs.Encodings.{IsText};
ghost use Rattle.pom_grammar.specs.Declarations.{declares};
ghost use Rattle.pom_grammar.specs.Machine.{Kind, stops};

/// A text in UTF-8 or in ASCII is the UTF-8 of some characters.
pub fn texts_are_utf8()
    ensures utf8 { (bytes : List ℕ) → IsText Utf8 bytes → IsUtf8 bytes }
    ensures ascii { (bytes : List ℕ) → IsText Ascii bytes → IsUtf8 bytes }
{}

/// White space neither begins a name nor stands in one.
pub fn names_have_no_space()
    ensures begins { (byte : ℕ) → is_white byte ≡ true → is_name_start byte ≡ false }
    ensures stands { (byte : ℕ) → is_white byte ≡ true → is_name_byte byte ≡ false }
{}

/// What ends a run of any kind is an ASCII byte: one past ASCII never does.
pub fn ascii_ends_runs()
    ensures { (kind : Kind) (seen : List ℕ) (byte : ℕ) → is_high byte ≡ true → stops kind seen byte ≡ false }
{}

/// A text that a declaration begins is `<?xml`, a white space and a rest.
pub fn declarations_begin()
    ensures { (text : List ℕ) → declares text ≡ true
        → (space : ℕ) × (rest : List ℕ) × (is_white space ≡ true) × (text ≡ codes "<?xml" ++ space ∷ rest) }
{}
