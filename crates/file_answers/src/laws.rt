//! A law of what checks ask, with nothing to run.
ghost use Rattle.std.specs.Prelude.{◌≡◌, ◌≤◌, ℕ, List, Some, length};
ghost use Rattle.res_base.specs.declared.reading.Check.{Check};
ghost use Rattle.digest_check.specs.KeyAnswers.{Held, answer_at, checked};
ghost use Rattle.file_answers.specs.Demands.{demand_of, judged};

/// A law: what checks decide of a file's bytes is what they ask, met or not; so of a file that is
/// there and no longer than its limit, as it comes in pieces, that is the answer.
pub fn demands_judged()
    ensures checked { (held : Held) (url bytes : List ℕ) (list : List Check)
        → judged (demand_of held url list) bytes ≡ checked held url bytes list }
    ensures answer { (held : Held) (url bytes : List ℕ) (list : List Check) (limit : ℕ)
        → held url ≡ Some bytes → length bytes ≤ limit
        → judged (demand_of held url list) bytes ≡ answer_at held list limit url }
{}
