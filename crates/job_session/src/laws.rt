//! Laws of sessions, with nothing to run.
ghost use Rattle.std.specs.Prelude.{◌≡◌, ℕ, true};
ghost use Rattle.std.specs.List.{list_all};
ghost use Rattle.arrival_core.specs.Cores.{State};
ghost use Rattle.arrival_core.specs.Resolving.{resolver_of};
ghost use Rattle.artifact_files.specs.Files.{artifact_keys};
ghost use Rattle.claim_rules.specs.Claims.{claim_of};
ghost use Rattle.claim_rules.specs.Histories.{History, known_in};
ghost use Rattle.claim_rules.specs.Sessions.{is_known};
ghost use Rattle.claim_rules.specs.declared.claim.Claim.TheVariants as claims;
ghost use Rattle.claim_rules.specs.declared.settings.Settings.{Settings};
ghost use Rattle.class_path.specs.Files.{AreKnown};
ghost use Rattle.job_session.specs.Answers.{IsOver, MaySay, WantsKnown, files_of};
ghost use Rattle.job_session.specs.Beginnings.{fresh_desk, settings_for};
ghost use Rattle.pool_rules.specs.Boards.{Desk, IsReady};
ghost use Rattle.pool_rules.specs.Counts.{Counts};
ghost use Rattle.pool_rules.specs.Ends.{IsFinish};
ghost use Rattle.pool_rules.specs.declared.finish.Finish.{Finish as Ending};
ghost use Rattle.res_base.specs.Known.{Grows, Known as Map};
ghost use Rattle.resolution.specs.declared.ask.Ask.{Ask as Asking};
ghost use Rattle.resolution.specs.declared.progress.Progress.TheVariants.{Over as OverBy};
ghost use Rattle.resolution.specs.declared.settled.Settled.{Settled as Outcome};
ghost use Rattle.resolution.specs.declared.verdict.Verdict.{Verdict as Decided};
ghost use Rattle.round_core.specs.Rounds.{rounds_of};
ghost use Rattle.word_values.specs.Fits.{IsFit};
ghost use Rattle.word_values.specs.declared.job.Job.{Job as Asked};

use arrival_core::core_laws;
use asked_paths::needed_keys;
use claim_rules::{claim_answers, least_keys};
use resolution::Verdict;

/// A law: where a claim answers that the session is over, the rounds over all that is known are,
/// and all files that are wanted are known.
pub(crate) fn session_over()
    ensures { (s : Settings) (ask : Asking) (h : History) → claim_of s (resolver_of ask) h ≡ claims.Over
        → IsOver ask (known_in h) }
{
    claim_answers::<Verdict>();
}

/// A law: the files of a settled resolution are known, one by one.
pub(crate) fn files_known()
    ensures { (known : Map) (settled : Outcome) → list_all (is_known known) (artifact_keys settled) ≡ true
        → AreKnown known settled }
{}

/// A law: over more answers the verdict is the same, and so are its files, where all of them were
/// known.
pub fn verdicts_stay()
    ensures rounds { (ask : Asking) (known whole : Map) (verdict : Decided) → Grows known whole
        → rounds_of known ask ≡ OverBy verdict → rounds_of whole ask ≡ OverBy verdict }
    ensures files { (job : Asked) (known whole : Map) (verdict : Decided) → Grows known whole
        → WantsKnown job verdict known → files_of job verdict known ≡ files_of job verdict whole }
{
    core_laws();
}

/// A law: a fresh board of a job that fits may be worked on.
pub(crate) fn fresh_ready()
    ensures { (job : Asked) (moment : ℕ) → IsFit job → IsReady (fresh_desk job moment) }
{}

/// A law: where the work on a board ended, that may be said: a session that is over is caught up,
/// and a key that is lacking has an address.
pub(crate) fn ready_to_say()
    ensures { (job : Asked) (core : State) (desk : Desk) (before now : Counts) (finish : Ending) → IsFit job
        → core.ask ≡ job.ask → desk.settings ≡ core.settings → desk.history ≡ core.history
        → desk.caught_up ≡ core.caught_up → IsFinish (resolver_of job.ask) desk before now finish
        → MaySay job core finish }
{
    claim_answers::<Verdict>();
    least_keys();
    needed_keys();
}
