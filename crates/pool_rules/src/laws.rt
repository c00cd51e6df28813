//! Laws of work on boards, with nothing to run.
ghost use Rattle.std.specs.Prelude.{◌≡◌, ◌≤◌, ◌+◌, ◌++◌, ◌∷◌, ℕ, Bool, List, [], None, Some, IsSome, length, true, false};
ghost use Rattle.claim_rules.specs.Counts.{is_return};
ghost use Rattle.claim_rules.specs.Histories.{History, What, any_in_flight, arrive, pair_in};
ghost use Rattle.claim_rules.specs.Legal.{Legal, StopsFrom};
ghost use Rattle.claim_rules.specs.Resolvers.{Resolver};
ghost use Rattle.pool_rules.specs.Boards.{Desk, IsReady, all_returns};
ghost use Rattle.pool_rules.specs.Counts.{AreLater, AsksFiles, Counts, RiseBeside, is_beside, urls_of};
ghost use Rattle.pool_rules.specs.Ends.{IsFinish, IsWorked};
ghost use Rattle.pool_rules.specs.Plans.{url_in};
ghost use Rattle.pool_rules.specs.Works.{AddsEntry, AddsNothing, AddsTurn, AsksFor, IsEndOf, IsGoing, IsSameJob, Works, costs, with_entry, with_turn};
ghost use Rattle.pool_rules.specs.Worlds.{StaysTrue};
ghost use Rattle.pool_rules.specs.declared.finish.Finish.{Finish as Ending};
ghost use Rattle.pool_rules.specs.declared.plan.Plan.{Plan as Asking};
ghost use Rattle.file_answers.specs.Asking.{IsBeside};
ghost use Rattle.res_base.specs.Causes.{Rose};
ghost use Rattle.res_base.specs.Known.{Known};
ghost use Rattle.res_base.specs.declared.key.FileKey.{FileKey};
ghost use Rattle.res_base.specs.declared.reading.Reading.{Reading};

use claim_rules::{flights_told, legal_histories};
use res_base::{equality_decided, known_grows};

/// A law: what rose beside one count and then beside a further one rose beside both; a count that
/// rose did so beside one more.
pub fn counts_rise()
    ensures once { (before now less : ℕ) → Rose before now → RiseBeside before now less (less + 1) }
    ensures together { (first second third less mid more : ℕ) → second ≤ third
        → RiseBeside first second less mid → RiseBeside second third mid more
        → RiseBeside first third less more }
{}

/// A law: a URL of a key, or of a checksum file beside it, is counted among the key's.
pub fn files_beside()
    ensures beside { (url other : List ℕ) → IsBeside url other → is_beside url other ≡ true }
    ensures added { (plan : Asking) (key : FileKey) (urls : List (List ℕ)) (other : List ℕ)
        → IsBeside (url_in plan key) other
        → urls_of plan key (Some (urls ++ other ∷ [])) ≡ urls_of plan key (Some urls) + 1 }
{
    equality_decided();
}

/// A law: counts are later than themselves, and later ones of later ones are later.
pub fn counts_later()
    ensures same { (plan : Asking) (counts : Counts) → AreLater plan counts counts }
    ensures steps { (plan : Asking) (first second third : Counts) → AreLater plan first second
        → AreLater plan second third → AreLater plan first third }
{}

/// A law: where the history is as before, work was done by whatever was asked of links and disk; a
/// board that may be worked on stands between two turns.
pub fn work_begins()
    ensures works { (old new : Desk) (before now : Counts) → AddsNothing old new
        → AreLater old.plan before now → Works old new before now }
    ensures going { (desk : Desk) (counts : Counts) → IsReady desk
        → IsGoing desk desk counts counts }
{}

/// A law: one entry more is work, where the counts are such that it may come; and so are a claim
/// and its end, between two turns.
pub fn work_grows()
    ensures entry { (old new : Desk) (before now : Counts) (seat : ℕ) (what : What)
        → AddsEntry old new seat what → AreLater old.plan before now
        → costs old.plan what before now
        → Works old new before now }
    ensures turn { (old new : Desk) (before now : Counts) (seat : ℕ) (key : FileKey) (what : What)
        → AddsTurn old new seat key what → AreLater old.plan before now
        → costs old.plan what before now
        → Works old new before now }
{
    equality_decided();
    counts_later();
    files_beside();
}

/// A law: work after work is work, and turns after turns are turns.
pub fn work_goes_on()
    ensures works { (first second third : Desk) (one two three : Counts)
        → Works first second one two
        → Works second third two three → Works first third one three }
    ensures going { (first second third : Desk) (one two three : Counts)
        → IsGoing first second one two
        → IsGoing second third two three → IsGoing first third one three }
{}

/// A law: after a claim and its end by one seat nothing is in flight, where nothing was; nothing
/// was claimed there once a claim was given back, nor where nothing happened; and no claim was given
/// back but by such an end.
pub fn turns_land()
    ensures landed { (h : History) (seat : ℕ) (key : FileKey) (what : What) → IsEndOf key what
        → any_in_flight h ≡ false → any_in_flight (with_turn h seat key what) ≡ false }
    ensures stops { (h : History) (seat : ℕ) (key : FileKey) (what : What) → IsEndOf key what
        → StopsFrom (length h) (with_turn h seat key what) }
    ensures waits { (h : History) → StopsFrom (length h) h }
    ensures kept { (h : History) (seat : ℕ) (key : FileKey) (what : What) → is_return what ≡ false
        → all_returns (with_turn h seat key what) ≡ all_returns h }
{
    equality_decided();
    flights_told();
}

/// A law: a board is worked through where a claim at its end answers that nothing is left to do, or
/// where something ended the work in the last turn; and turns before that change nothing of it.
pub fn work_ends<V>()
    ensures answered { (r : Resolver V) (old new : Desk) (before now : Counts) (finish : Ending)
        → IsGoing old new before now → Legal new.settings r new.history
        → IsFinish r new before now finish
        → IsWorked r old new before now finish }
    ensures turns { (r : Resolver V) (first second third : Desk) (one two three : Counts)
        (finish : Ending)
        → IsGoing first second one two → IsWorked r second third two three finish
        → IsWorked r first third one three finish }
{
    legal_histories::<V>();
}

/// A law: where an arrival is what a map says of its key, and where another entry comes, all that
/// is known is still so in that map.
pub fn entries_true()
    ensures arrival { (all : Known) (h : History) (seat : ℕ) (key : FileKey) (reading : Reading)
        → all key ≡ Some reading → StaysTrue all h (with_entry h seat (arrive key reading)) }
    ensures others { (all : Known) (h : History) (seat : ℕ) (what : What) → pair_in what ≡ []
        → StaysTrue all h (with_entry h seat what) }
    ensures steps { (all : Known) (first second third : History) → StaysTrue all first second
        → StaysTrue all second third → StaysTrue all first third }
{
    equality_decided();
    known_grows();
}

/// A law: where the link is asked for its files alone where a claimed key may be asked for, the
/// number of calls is bounded by the claims of such keys.
pub fn asks_add()
    ensures nothing { (may : FileKey → Bool) (old new : Desk) (before now : Counts)
        → AddsNothing old new
        → now.asked ≤ before.asked → AsksFor may old new before now }
    ensures turn { (may : FileKey → Bool) (old new : Desk) (before now : Counts) (seat : ℕ)
        (key : FileKey) (what : What) → AddsTurn old new seat key what → AsksFiles (may key) old.plan before now
        → AsksFor may old new before now }
    ensures steps { (may : FileKey → Bool) (first second third : Desk) (one two three : Counts)
        → IsSameJob first second → AsksFor may first second one two
        → AsksFor may second third two three
        → AsksFor may first third one three }
{}
