//! Laws of rounds, as functions with nothing to run.
ghost use Rattle.std.specs.Prelude.{◌≡◌, ◌<◌, ℕ, List, Option, true, None, length, Contains};
ghost use Rattle.std.specs.List.{list_any};
ghost use Rattle.pom_build.specs.Reads.{Agree};
ghost use Rattle.res_base.specs.Known.{Known, Grows};
ghost use Rattle.res_base.specs.declared.coord.Module.{Module};
ghost use Rattle.res_base.specs.declared.key.FileKey.{FileKey};
ghost use Rattle.resolution.specs.Settlements.{HasRepositories, IfSettled, IsSettlement};
ghost use Rattle.resolution.specs.declared.ask.Ask.{Ask};
ghost use Rattle.resolution.specs.declared.choices.ChoiceRow.{ChoiceRow};
ghost use Rattle.resolution.specs.declared.choices.Choices.{Choices};
ghost use Rattle.resolution.specs.declared.progress.Progress.{Progress};
ghost use Rattle.resolution.specs.declared.progress.Progress.TheVariants.{Over, Waiting};
ghost use Rattle.resolution.specs.declared.progress.RequestRow.{RequestRow};
ghost use Rattle.resolution.specs.declared.progress.RoundAnswer.TheVariants.{Next};
ghost use Rattle.resolution.specs.declared.progress.Walk.TheVariants.{Requests};
ghost use Rattle.resolution.specs.declared.verdict.Verdict.{Verdict};
ghost use Rattle.round_core.specs.Choices.{Rises, modules_of};
ghost use Rattle.round_core.specs.Earlier.{AreLasting};
ghost use Rattle.round_core.specs.Edges.{last_ones};
ghost use Rattle.round_core.specs.Endings.{IsEnding, Waited};
ghost use Rattle.round_core.specs.Reads.{is_over, needed_of, needs_in, reads_of};
ghost use Rattle.round_core.specs.Requests.{asks_for, requests_at, row_for, rows_modules};
ghost use Rattle.round_core.specs.Rounds.{Did, round_of, rounds_of, walk_of};
ghost use Rattle.round_core.specs.Tables.{has};
ghost use Rattle.round_core.specs.declared.projects.ChosenProject.{ChosenProject};

use exclusion_sets::{join_laws, within_laws};
use pom_build::{answer_laws, build_laws, read_laws};
use project_lookup::listing_laws;
use res_base::equality_decided;

/// More knowledge changes no choices of a round that gave some, no rounds that were done, and no
/// verdict. The choices that a round gives are in module order.
pub fn growth_laws()
    ensures round { (before after : Known) (ask : Ask) (chosen : List ChoiceRow) (later : Choices) →
        Grows before after → round_of before ask chosen ≡ Next later → round_of after ask chosen ≡ Next later }
    ensures rises { (known : Known) (ask : Ask) (chosen : List ChoiceRow) (later : Choices) →
        round_of known ask chosen ≡ Next later → Rises (modules_of later.rows) }
    ensures did { (before after : Known) (ask : Ask) (done : ℕ) (chosen : List ChoiceRow) →
        Grows before after → Did before ask done chosen → Did after ask done chosen }
    ensures over { (before after : Known) (ask : Ask) →
        Grows before after → is_over (rounds_of before ask) ≡ true → rounds_of after ask ≡ rounds_of before ask }
    ensures reads { (before after : Known) (ask : Ask) (key : FileKey) →
        Grows before after → Contains (reads_of before ask) key → Contains (reads_of after ask) key }
    ensures needed { (before after : Known) (ask : Ask) (key : FileKey) →
        Grows before after → Contains (needs_in (rounds_of before ask)) key → Contains (needed_of after ask) key }
{
    answer_laws();
    build_laws();
    read_laws();
    listing_laws();
    within_laws();
    join_laws();
    equality_decided();
}

/// Rounds depend on the keys that they look at, and on no other; and so do these keys.
pub fn look_laws()
    ensures rounds { (known other : Known) (ask : Ask) →
        Agree known other (reads_of known ask) → rounds_of other ask ≡ rounds_of known ask }
    ensures reads { (known other : Known) (ask : Ask) →
        Agree known other (reads_of known ask) → reads_of other ask ≡ reads_of known ask }
{
    answer_laws();
    build_laws();
    read_laws();
    listing_laws();
    within_laws();
    join_laws();
}

/// Rounds wait exactly for the keys that they look at and that are not known, and never for
/// nothing. So they are over exactly where all that they look at is known.
pub fn wait_laws()
    ensures opens { (known : Known) (ask : Ask) (key : FileKey) →
        Contains (reads_of known ask) key → known key ≡ None → Contains (needs_in (rounds_of known ask)) key }
    ensures unknown { (known : Known) (ask : Ask) (key : FileKey) →
        Contains (needs_in (rounds_of known ask)) key → known key ≡ None }
    ensures read { (known : Known) (ask : Ask) (key : FileKey) →
        Contains (needs_in (rounds_of known ask)) key → Contains (reads_of known ask) key }
    ensures some { (known : Known) (ask : Ask) (round : ℕ) (choices : Choices) (needs : List FileKey) →
        rounds_of known ask ≡ Waiting round choices needs → 0 < length needs }
    ensures known { (known : Known) (ask : Ask) (key : FileKey) →
        is_over (rounds_of known ask) ≡ true → Contains (reads_of known ask) key → ¬ (known key ≡ None) }
    ensures over { (known : Known) (ask : Ask) →
        ((key : FileKey) → Contains (reads_of known ask) key → ¬ (known key ≡ None)) →
        is_over (rounds_of known ask) ≡ true }
{
    answer_laws();
    build_laws();
    read_laws();
    listing_laws();
    within_laws();
    join_laws();
    equality_decided();
}

/// What a walk asks, module by module: a module has a row exactly where a live path ends there, and
/// in it is what the last edges that end there ask for, each request once, in the order of the
/// edges. Rows are in module order.
pub fn request_laws()
    ensures requests { (known : Known) (ask : Ask) (chosen : List ChoiceRow) (rows : List RequestRow) (m : Module) →
        walk_of known ask chosen ≡ Requests rows → row_for rows m ≡ requests_at known ask chosen m }
    ensures ends { (known : Known) (ask : Ask) (chosen : List ChoiceRow) (rows : List RequestRow) (m : Module) →
        walk_of known ask chosen ≡ Requests rows →
        has (rows_modules rows) m ≡ list_any (asks_for m) (last_ones known ask chosen) }
    ensures rises { (known : Known) (ask : Ask) (chosen : List ChoiceRow) (rows : List RequestRow) →
        walk_of known ask chosen ≡ Requests rows → Rises (rows_modules rows) }
{}

/// Rounds end in one way: a round that may be done needs keys, or gives the choices that it began
/// with; or all rounds were done that may be. What was done before is told by `Did`.
pub fn ending_laws()
    ensures ends { (known : Known) (ask : Ask) → IsEnding known ask (rounds_of known ask) }
    ensures only { (known : Known) (ask : Ask) (progress : Progress) →
        IsEnding known ask progress → rounds_of known ask ≡ progress }
    ensures rises { (known : Known) (ask : Ask) (done : ℕ) (chosen : List ChoiceRow) →
        Did known ask done chosen → Rises (modules_of chosen) }
{}

/// What rounds settle on can be printed and fetched: the edges are between its nodes, and each node
/// has a plain coordinate and was found in one of the repositories.
pub fn settled_laws()
    ensures settlement { (known : Known) (ask : Ask) (verdict : Verdict) →
        rounds_of known ask ≡ Over verdict → IfSettled verdict IsSettlement }
    ensures repositories { (known : Known) (ask : Ask) (verdict : Verdict) →
        rounds_of known ask ≡ Over verdict → IfSettled verdict (HasRepositories ask.repos) }
{
    answer_laws();
}

/// Where rounds waited, they can go on: over more knowledge the rounds before were done as well,
/// and a project that was built and waits for nothing is what it was.
pub fn standing_laws()
    ensures waited { (known : Known) (ask : Ask) (round : ℕ) (choices : Choices) (needs : List FileKey) →
        rounds_of known ask ≡ Waiting round choices needs → Waited known ask round choices.rows }
    ensures waits { (before after : Known) (ask : Ask) (round : ℕ) (chosen : List ChoiceRow) →
        Grows before after → Waited before ask round chosen → Waited after ask round chosen }
    ensures lasting { (before after : Known) (repos : ℕ) (projects : List (Option ChosenProject)) →
        Grows before after → AreLasting before repos projects → AreLasting after repos projects }
{
    build_laws();
    growth_laws();
    ending_laws();
}
