//! Laws of what is answered for bytes, with nothing to run.

ghost use Rattle.std.specs.Prelude.{◌≡◌, ◌≢◌, ℕ, List, Ok, Err, IfOk, IfErr};
ghost use Rattle.res_base.specs.declared.pom.PomRecord.{PomRecord};
ghost use Rattle.pom_record.specs.declared.pom_err.PomErr.TheVariants.{NoMemory};
ghost use Rattle.pom_record.specs.Projects.{IsPom};
ghost use Rattle.pom_record.specs.Refusals.{IsRefusal};
ghost use Rattle.pom_record.specs.Readings.{read_pom};

use pom_grammar::verdict_says;

/// What is to be answered for bytes is so of them, is never that memory ran out, and is the only
/// record that they spell.
pub fn reading_laws()
    ensures read { (bytes : List ℕ) → IfOk (read_pom bytes) (IsPom bytes) }
    ensures refused { (bytes : List ℕ) → IfErr (read_pom bytes) (IsRefusal bytes) }
    ensures never_out_of_memory { (bytes : List ℕ) → read_pom bytes ≢ Err NoMemory }
    ensures only { (bytes : List ℕ) (pom : PomRecord) → IsPom bytes pom → read_pom bytes ≡ Ok pom }
{
    verdict_says();
}
