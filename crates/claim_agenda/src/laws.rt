//! Laws of agendas, with nothing to run.
ghost use Rattle.std.specs.Prelude.{◌≡◌, ◌<◌, ◌∷◌, [], ◌++◌, ℕ, false, length};
ghost use Rattle.claim_agenda.specs.Agendas.{IsAgenda, IsClaimable, IsPlan, IsQueue, KeepsKeys};
ghost use Rattle.claim_agenda.specs.Answering.{answer_from};
ghost use Rattle.claim_agenda.specs.declared.agenda.Agenda.{Agenda as Plan};
ghost use Rattle.claim_log.specs.Told.{entry};
ghost use Rattle.claim_rules.specs.Claims.{claim_of, is_free};
ghost use Rattle.claim_rules.specs.Histories.{History, claim, give_back, known_in};
ghost use Rattle.claim_rules.specs.Resolvers.{IsLawful, Resolver};
ghost use Rattle.claim_rules.specs.Sessions.{is_known, is_over, needs};
ghost use Rattle.claim_rules.specs.declared.claim.Claim.{Claim as Answer};
ghost use Rattle.claim_rules.specs.declared.settings.Settings.{Settings as Given};
ghost use Rattle.res_base.specs.Members.{Among};
ghost use Rattle.res_base.specs.declared.key.FileKey.{FileKey as Key};

use claim_rules::{claim_answers, least_keys, session_needs};
use res_base::equality_decided;

/// A law of the agenda of a history, over any lawful resolver. From it `next_claim` may be called,
/// and answers what a claim answers over the history. It is the agenda of the history still where
/// its places moved, where a key was claimed, and where one was given back and the places begin
/// anew. A plan is an agenda. What is claimed is a need or a hint, and neither known nor in flight.
pub fn agenda_laws<V>()
    ensures answer { (s : Given) (r : Resolver V) (h : History) (a : Plan) → IsAgenda s r h a
        → answer_from s h a.is_over a.needs.items a.hints.items ≡ claim_of s r h }
    ensures some { (s : Given) (r : Resolver V) (h : History) (a : Plan) → IsLawful r → IsAgenda s r h a
        → a.is_over ≡ false → 0 < length a.needs.items }
    ensures unknown { (s : Given) (r : Resolver V) (h : History) (a : Plan) → IsLawful r → IsAgenda s r h a
        → (key : Key) → Among key a.needs.items → is_known (known_in h) key ≡ false }
    ensures moved { (s : Given) (r : Resolver V) (h : History) (a b : Plan) → IsAgenda s r h a → KeepsKeys a b
        → IsQueue (is_free s.retries h) b.needs.items b.next_need
        → IsQueue (is_free s.retries h) b.hints.items b.next_hint → IsAgenda s r h b }
    ensures claimed { (s : Given) (r : Resolver V) (h : History) (a : Plan) (seat : ℕ) (key : Key)
        → IsAgenda s r h a → IsAgenda s r (h ++ entry seat (claim key) ∷ []) a }
    ensures returned { (s : Given) (r : Resolver V) (h : History) (a b : Plan) (seat : ℕ) (key : Key)
        → IsAgenda s r h a → KeepsKeys a b → b.next_need ≡ 0 → b.next_hint ≡ 0
        → IsAgenda s r (h ++ entry seat (give_back key) ∷ []) b }
    ensures planned { (s : Given) (r : Resolver V) (h : History) (a : Plan)
        → IsPlan s (is_over r (known_in h)) (needs r (known_in h)) a → IsAgenda s r h a }
    ensures claimable { (s : Given) (r : Resolver V) (h : History) (key : Key)
        → claim_of s r h ≡ Answer.Claimed key → IsClaimable s r h key }
{
    equality_decided();
    least_keys();
    session_needs::<V>();
    claim_answers::<V>();
}
