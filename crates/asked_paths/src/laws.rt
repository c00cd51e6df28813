//! Laws of the keys that are asked for, with nothing to run.
ghost use Rattle.std.specs.Prelude.{◌≡◌, ◌<◌};
ghost use Rattle.arrival_core.specs.Resolving.{resolver_of};
ghost use Rattle.asked_paths.specs.Files.{IsFileOf};
ghost use Rattle.claim_rules.specs.Claims.{claim_of};
ghost use Rattle.claim_rules.specs.Histories.{History};
ghost use Rattle.claim_rules.specs.Sessions.{hints, needed, needs};
ghost use Rattle.claim_rules.specs.declared.claim.Claim.{Claim as Answer};
ghost use Rattle.claim_rules.specs.declared.settings.Settings.{Settings as Given};
ghost use Rattle.link_base.specs.FilePaths.{IsFilePath};
ghost use Rattle.res_base.specs.Known.{Known as Map};
ghost use Rattle.res_base.specs.Members.{Among};
ghost use Rattle.res_base.specs.declared.key.FileKey.{FileKey as Key};
ghost use Rattle.resolution.specs.declared.ask.Ask.{Ask as Asking};

use claim_rules::{claim_answers, least_keys};
use pom_build::answer_laws;
use round_core::{Verdict, settled_laws, wait_laws};

/// A law: each key that a session needs, hints at, claims or is stuck at is a file of one of its
/// repositories, at a path that a link may be asked for.
pub fn paths_asked()
    ensures needs { (ask : Asking) (known : Map) (key : Key) → Among key (needs (resolver_of ask) known)
        → IsFileOf ask.repos key }
    ensures needed { (ask : Asking) (known : Map) (key : Key) → Among key (needed (resolver_of ask) known)
        → IsFileOf ask.repos key }
    ensures hints { (s : Given) (ask : Asking) (known : Map) (key : Key) → s.repos ≡ ask.repos
        → Among key (hints s (resolver_of ask) known) → IsFileOf ask.repos key }
    ensures claimed { (s : Given) (ask : Asking) (h : History) (key : Key) → s.repos ≡ ask.repos
        → claim_of s (resolver_of ask) h ≡ Answer.Claimed key → IsFileOf ask.repos key }
    ensures stuck { (s : Given) (ask : Asking) (h : History) (key : Key)
        → claim_of s (resolver_of ask) h ≡ Answer.Stuck key → IsFileOf ask.repos key }
{
    answer_laws();
    settled_laws();
    wait_laws();
    claim_answers::<Verdict>();
    least_keys();
}

/// A law: needs are files of the repositories.
pub fn needed_keys()
    ensures listed { (ask : Asking) (known : Map) (key : Key) → Among key (needs (resolver_of ask) known)
        → key.repo < ask.repos }
    ensures path { (ask : Asking) (known : Map) (key : Key) → Among key (needs (resolver_of ask) known)
        → IsFilePath key.path }
{
    paths_asked();
}

/// A law: a claimed key is of a listed repository, and its path is one of files.
pub fn claimed_keys()
    ensures listed { (s : Given) (ask : Asking) (h : History) (key : Key)
        → claim_of s (resolver_of ask) h ≡ Answer.Claimed key → s.repos ≡ ask.repos → key.repo < s.repos }
    ensures path { (s : Given) (ask : Asking) (h : History) (key : Key)
        → claim_of s (resolver_of ask) h ≡ Answer.Claimed key → IsFilePath key.path }
{
    paths_asked();
    claim_answers::<Verdict>();
}
