//! Laws of documents and of what is answered for a text, with nothing to run.

ghost use Rattle.std.specs.Prelude.{◌≡◌, ◌≢◌, ◌⊎◌, ℕ, List, Result, Ok, Err};
ghost use Rattle.pom_grammar.specs.declared.tree.Tree.{Tree};
ghost use Rattle.pom_grammar.specs.declared.tree.TextErr.{TextErr};
ghost use Rattle.pom_grammar.specs.declared.tree.TextErr.TheVariants.{NoMemory};
ghost use Rattle.pom_grammar.specs.Heads.{IsDocument};
ghost use Rattle.pom_grammar.specs.Faults.{Says};
ghost use Rattle.pom_grammar.specs.Verdicts.{whole_verdict};

/// No bytes are two documents' trees.
pub fn one_tree()
    ensures { (bytes : List ℕ) (tree other : Tree) → IsDocument bytes tree → IsDocument bytes other → tree ≡ other }
{}

/// Nothing refused is a document.
pub fn documents_are_read()
    ensures { (bytes : List ℕ) (tree : Tree) (answer : Result Tree TextErr) → IsDocument bytes tree → Says bytes answer
        → (answer ≡ Err NoMemory) ⊎ (answer ≡ Ok tree) }
{}

/// Each text has one answer: its tree, or one fault and one place.
pub fn one_answer()
    ensures some { (bytes : List ℕ) → (answer : Result Tree TextErr) × Says bytes answer × (answer ≢ Err NoMemory) }
    ensures one { (bytes : List ℕ) (answer other : Result Tree TextErr) → Says bytes answer → Says bytes other
        → (answer ≡ Err NoMemory) ⊎ ((other ≡ Err NoMemory) ⊎ (answer ≡ other)) }
{}

/// What `whole_verdict` computes for a text is so, is never that memory ran out, and is whatever
/// is so of the text.
pub fn verdict_says()
    ensures says { (bytes : List ℕ) → Says bytes (whole_verdict bytes) }
    ensures never_out_of_memory { (bytes : List ℕ) → whole_verdict bytes ≢ Err NoMemory }
    ensures only { (bytes : List ℕ) (answer : Result Tree TextErr) → Says bytes answer
        → (answer ≡ Err NoMemory) ⊎ (whole_verdict bytes ≡ answer) }
{}
