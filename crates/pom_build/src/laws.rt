//! Laws of effective projects, as functions with nothing to run.
ghost use Rattle.std.specs.Prelude.{◌≡◌, ◌<◌, ◌≤◌, ◌↔◌, ℕ, List, false, length, Contains};
ghost use Rattle.std.specs.List.{IsDistinct};
ghost use Rattle.pom_build.specs.Effectives.{effective_of};
ghost use Rattle.pom_build.specs.FoundProjects.{IsFound};
ghost use Rattle.pom_build.specs.Imports.{managed_from};
ghost use Rattle.pom_build.specs.NeededKeys.{IsOpen, IsPomKey, needed_by};
ghost use Rattle.pom_build.specs.Outcomes.{is_waiting, waits};
ghost use Rattle.pom_build.specs.Reached.{IsApart, IsKept, reached};
ghost use Rattle.pom_build.specs.Reads.{Agree, effective_keys};
ghost use Rattle.pom_build.specs.declared.outcome.Outcome.TheVariants.{Built as BuiltPart};
ghost use Rattle.pom_build.specs.declared.build.Effective.{Effective as Project};
ghost use Rattle.pom_build.specs.declared.build.Build.TheVariants.{Built, Needs, NotFound, Refused};
ghost use Rattle.pom_build.specs.declared.build.BuildFault.TheVariants.{LineAbsent};
ghost use Rattle.res_base.specs.Known.{Known, Grows};
ghost use Rattle.res_base.specs.Names.{key_eq};
ghost use Rattle.res_base.specs.declared.coord.Coord.{Coord};
ghost use Rattle.res_base.specs.declared.key.FileKey.{FileKey};
ghost use Rattle.res_base.specs.declared.pom.DepRecord.{DepRecord};
ghost use Rattle.res_base.specs.declared.reading.Reason.{Reason};

use project_lookup::look_laws;

/// What each answer tells of what is known: a built project was found; the keys that are needed are
/// those that are looked at and not known, each once; and there is a reason for each repository.
pub fn answer_laws()
    ensures built { (known : Known) (repos : ℕ) (c : Coord) (project : Project) →
        effective_of known repos c ≡ Built project → IsFound known repos c project }
    ensures some { (known : Known) (repos : ℕ) (c : Coord) (keys : List FileKey) →
        effective_of known repos c ≡ Needs keys → 0 < length keys }
    ensures distinct { (known : Known) (repos : ℕ) (c : Coord) →
        IsDistinct key_eq (needed_by (effective_of known repos c)) }
    ensures needed { (known : Known) (repos : ℕ) (c : Coord) (key : FileKey) →
        Contains (needed_by (effective_of known repos c)) key ↔ IsOpen known repos c key }
    ensures poms { (known : Known) (repos : ℕ) (c : Coord) (key : FileKey) →
        Contains (effective_keys known repos c) key → IsPomKey repos key }
    ensures not_found { (known : Known) (repos : ℕ) (c : Coord) (why : List Reason) →
        effective_of known repos c ≡ NotFound why → length why ≡ repos }
    ensures line_absent { (known : Known) (repos : ℕ) (c one : Coord) (why : List Reason) →
        effective_of known repos c ≡ Refused (LineAbsent one why) → length why ≡ repos }
{
    look_laws();
}

/// More knowledge changes no answer but the keys that are needed, and likewise for the managed list
/// of an imported project; and it only adds to the keys that are looked at.
pub fn build_laws()
    ensures answer { (before after : Known) (repos : ℕ) (c : Coord) → Grows before after →
        is_waiting (effective_of before repos c) ≡ false → effective_of after repos c ≡ effective_of before repos c }
    ensures managed { (before after : Known) (repos left : ℕ) (chain : List Coord) (c : Coord) → Grows before after →
        waits (managed_from before repos left chain c) ≡ false →
        managed_from after repos left chain c ≡ managed_from before repos left chain c }
    ensures keys { (before after : Known) (repos : ℕ) (c : Coord) (key : FileKey) → Grows before after →
        Contains (effective_keys before repos c) key → Contains (effective_keys after repos c) key }
{
    look_laws();
}

/// What is said of a project depends on the keys that are looked at, and on no other; and so do
/// these keys.
pub fn read_laws()
    ensures answer { (known other : Known) (repos : ℕ) (c : Coord) →
        Agree known other (effective_keys known repos c) → effective_of other repos c ≡ effective_of known repos c }
    ensures keys { (known other : Known) (repos : ℕ) (c : Coord) →
        Agree known other (effective_keys known repos c) → effective_keys other repos c ≡ effective_keys known repos c }
{}

/// A built managed list does not depend on the chain of imports before it, where no project that it
/// reaches stands in the chain and as many levels are left.
pub fn chain_laws()
    ensures kept { (known : Known) (repos left : ℕ) (chain : List Coord) (c : Coord) (rows : List DepRecord) →
        managed_from known repos left chain c ≡ BuiltPart rows →
        IsKept known repos c rows left (reached known repos left c) }
    ensures given { (known : Known) (repos : ℕ) (c : Coord) (rows : List DepRecord) (levels : ℕ) (coords : List Coord) →
        IsKept known repos c rows levels coords → (left : ℕ) (chain : List Coord) → levels ≤ left →
        IsApart coords chain → managed_from known repos left chain c ≡ BuiltPart rows }
{}
