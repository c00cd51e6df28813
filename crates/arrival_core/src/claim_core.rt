//! The core.
ghost use Rattle.std.specs.Option.{option_copied};
ghost use Rattle.std.specs.Prelude.{◌≡◌, ◌<◌, ◌≤◌, ◌↔◌, [], Bool, IfErr, IfOk, IsOk, OnErr, OnOk, Some, false, true};
ghost use Rattle.arrival_core.specs.Cores.{MayNote, after_claim, caught_up_from, log_after, then_by, verdict_in};
ghost use Rattle.arrival_core.specs.Kept.{IsGoneOn, Stood};
ghost use Rattle.arrival_core.specs.Resolving.{resolver_of};
ghost use Rattle.claim_agenda.specs.Agendas.{IsAgenda};
ghost use Rattle.claim_log.specs.Events.{events_of};
ghost use Rattle.claim_log.specs.Logs.{IsRefusal};
ghost use Rattle.claim_rules.specs.Claims.{IsAnswer, claim_of};
ghost use Rattle.claim_rules.specs.Histories.{any_in_flight, arrive, broke as breaks, give_back as returns_it, holder, known_in, pairs_in};
ghost use Rattle.claim_rules.specs.Legal.{Legal};
ghost use Rattle.project_lookup.specs.KnownPairs.{stands_at};
ghost use Rattle.res_base.specs.Known.{known_of};
ghost use Rattle.round_core.specs.Rounds.{rounds_of};

use super::laws::{keys_listed, rounds_lawful, rounds_stand};
use super::needs::{is_over, needs_of};
use claim_agenda::{Agenda, agenda_laws, next_claim};
use claim_log::{AbsorbErr, ClaimLog, Event, NotClaimed};
use claim_rules::{Claim, CoreLimits, Settings, Why, claim_answers, legal_histories};
use project_lookup::Known;
use res_base::{Copied, FileKey, List, NoMemory, Reading, Steps};
use round_core::{Ask, BuiltProjects, Choices, Progress, Verdict, rounds_on};
use std::alloc::Global;
use std::marker::Model;
use std::mem::replace;
use std::sync::ledger::Ledger;

/// The rounds over all that is known, from where they stood, with the projects that they built;
/// none where they were over then.
fn gone_on<L: Ledger>(
    alloc: Global,
    known: &Known,
    ask: &Ask,
    progress: &Progress,
    built: BuiltProjects,
    steps: &mut Steps<L>,
) -> Result<Option<(Progress, BuiltProjects)>, NoMemory>
    requires repos { known.now.repos ≡ ask.now.repos }
    requires stood { Stood ask.now (known_of known.now.pairs) progress.now built }
    ensures { IfOk result (IsGoneOn ask.now (known_of known.now.pairs) progress.now) }
{
    match progress {
        Progress::Over(_) => Ok(None),
        Progress::Waiting { round, choices, .. } => {
            let choices = choices.copy(alloc)?;
            let made = rounds_on(alloc, known, ask, *round, choices, built, steps)?;
            Ok(Some(made))
        }
    }
}

/// What is to be claimed where the rounds come so far over all that is known.
fn agenda_at(
    alloc: Global,
    ask: &Ask,
    settings: &Settings,
    log: &ClaimLog,
    progress: &Progress,
) -> Result<Agenda, NoMemory>
    requires scratch { progress.now ≡ rounds_of (known_in log.now.history) ask.now }
    ensures { IfOk result (IsAgenda settings.now (resolver_of ask.now) log.now.history) }
{
    agenda_laws::<Verdict>();
    let needs = needs_of(alloc, log.known(), ask.files, progress)?;
    let ends = is_over(progress, needs.as_slice());
    let agenda = Agenda::plan(alloc, settings, ends, needs)?;
    Ok(agenda)
}

/// What is to be claimed where the rounds went on so, or stand where they were over.
fn agenda_after(
    alloc: Global,
    ask: &Ask,
    settings: &Settings,
    log: &ClaimLog,
    progress: &Progress,
    gone: Option<&(Progress, BuiltProjects)>,
) -> Result<Agenda, NoMemory>
    requires gone { IsGoneOn ask.now (known_in log.now.history) progress.now (option_copied gone) }
    ensures { IfOk result (IsAgenda settings.now (resolver_of ask.now) log.now.history) }
{
    match gone {
        None => agenda_at(alloc, ask, settings, log, progress),
        Some((later, _)) => agenda_at(alloc, ask, settings, log, later),
    }
}

/// How far the rounds come over all that is known, and what is to be claimed there.
fn ahead<L: Ledger>(
    alloc: Global,
    ask: &Ask,
    settings: &Settings,
    log: &ClaimLog,
    progress: &Progress,
    built: BuiltProjects,
    steps: &mut Steps<L>,
) -> Result<(Option<(Progress, BuiltProjects)>, Agenda), NoMemory>
    requires repos { log.now.repos ≡ ask.now.repos }
    requires stood { Stood ask.now (known_in log.now.history) progress.now built }
    ensures gone { IfOk result (λ made. IsGoneOn ask.now (known_in log.now.history) progress.now made.0) }
    ensures agenda { IfOk result (λ made. IsAgenda settings.now (resolver_of ask.now) log.now.history made.1) }
{
    let gone = gone_on(alloc, log.known(), ask, progress, built, steps)?;
    let agenda = agenda_after(alloc, ask, settings, log, progress, gone.as_ref())?;
    Ok((gone, agenda))
}

/// Puts a value in the place of another.
fn put<T: Drop>(place: &mut T, value: T)
    ensures { place.new ≡ value }
{
    *place = value;
}

/// Puts a claim into the log by its answer: only a claimed key makes an entry.
fn note(alloc: Global, log: &mut ClaimLog, seat: u32, answer: &Claim) -> Result<(), NoMemory>
    requires { MayNote log.old answer.now }
    ensures ok { OnOk result (log.new ≡ log_after log.old seat answer.now) }
    ensures err { OnErr result (log.new ≡ log.old) }
{
    match answer {
        Claim::Claimed(key) => log.claim(alloc, seat, key),
        Claim::Over => Ok(()),
        Claim::Stuck(_) => Ok(()),
        Claim::TooMany => Ok(()),
        Claim::NoneNow => Ok(()),
    }
}

/// What is asked, what is known, claimed and in flight, and how far the rounds come. Contracts see
/// the ask, the settings, the history, the progress, and whether that is the one over all that is
/// known.
#[derive(Drop)]
pub struct Core {
    ask: Ask,
    settings: Settings,
    log: ClaimLog,
    progress: Progress,
    /// What the rounds built so far and need not build again.
    built: BuiltProjects,
    agenda: Agenda,
    caught_up: bool,
}

impl Model for Core {
    ghost use Rattle.arrival_core.specs.Cores.{State};

    ghost Value = { State };

    ghost use Rattle.arrival_core.specs.Kept.{IsKept};

    ghost view = { λ core. record { ask = core.ask; settings = core.settings; history = core.log.history; caught_up = core.caught_up; progress = core.progress } };

    ghost invariant = { λ core. IsKept core.ask core.settings core.log core.progress core.built core.agenda core.caught_up };
}

impl Core {
    /// A core that knows nothing and is not caught up. The ask has 1 to 16 repositories. A key is
    /// claimed again after so many failures of its link.
    pub fn new(
        alloc: Global,
        ask: Ask,
        eager: bool,
        retries: u32,
        limits: CoreLimits,
    ) -> Result<Core, NoMemory>
        requires some { 0 < ask.repos }
        requires most { ask.repos ≤ 16 }
        ensures ask { IfOk result (λ made. made.ask ≡ ask) }
        ensures settings { IfOk result (λ made. made.settings ≡ record { repos = ask.repos; eager = eager; retries = retries; limits = limits }) }
        ensures history { IfOk result (λ made. made.history ≡ []) }
        ensures caught_up { IfOk result (λ made. made.caught_up ≡ false) }
    {
        let log = ClaimLog::new(alloc, ask.repos);
        let settings = Settings {
            repos: ask.repos,
            eager,
            retries,
            limits,
        };
        let progress = Progress::Waiting {
            round: 0,
            choices: Choices {
                rows: List::new(alloc),
            },
            needs: List::new(alloc),
        };
        Ok(Core {
            ask,
            settings,
            log,
            progress,
            built: BuiltProjects::none(alloc),
            agenda: Agenda::empty(alloc),
            caught_up: false,
        })
    }

    /// Takes the rounds on to all that is known. After `Ok` the core is caught up.
    ///
    /// After `NoMemory` it is not, and this may be called again.
    pub fn advance<L: Ledger>(
        &mut self,
        alloc: Global,
        steps: &mut Steps<L>,
    ) -> Result<(), NoMemory>
        ensures ok { OnOk result (self.new ≡ caught_up_from self.old) }
        ensures err { OnErr result (self.new ≡ record self.old { caught_up = false }) }
    {
        if self.caught_up {
            return Ok(());
        }
        rounds_stand();
        let built = replace(&mut self.built, BuiltProjects::none(alloc));
        let (gone, agenda) = ahead(
            alloc,
            &self.ask,
            &self.settings,
            &self.log,
            &self.progress,
            built,
            steps,
        )?;
        self.agenda = agenda;
        self.caught_up = true;
        match gone {
            None => Ok(()),
            Some((progress, built)) => {
                put(&mut self.progress, progress);
                put(&mut self.built, built);
                Ok(())
            }
        }
    }

    /// Whether the progress is that over all that is known.
    pub fn is_caught_up(&self) -> bool
        ensures { result ≡ self.now.caught_up }
    {
        self.caught_up
    }

    /// Claims a key for a seat: the least free need, or else the least free hint. In this order:
    /// `Over` where the session is over; `Stuck` with the least need where all needs are broken and
    /// nothing is in flight; `TooMany` where a need is free and all claims were made; `Claimed`;
    /// and else `NoneNow`, and then some claim is in flight.
    ///
    /// All that the end of the claim takes is made here.
    pub fn claim(&mut self, alloc: Global, seat: u32) -> Result<Claim, NoMemory>
        requires { self.old.caught_up ≡ true }
        ensures answer { IfOk result (λ made. made ≡ claim_of self.old.settings (resolver_of self.old.ask) self.old.history) }
        ensures says { IfOk result (IsAnswer self.old.settings (resolver_of self.old.ask) self.old.history) }
        ensures flying { IfOk result (λ made. made ≡ Claim.NoneNow → any_in_flight self.old.history ≡ true) }
        ensures state { IfOk result (λ made. self.new ≡ after_claim self.old seat made) }
        ensures err { OnErr result (self.new ≡ self.old) }
    {
        rounds_lawful();
        rounds_stand();
        keys_listed();
        claim_answers::<Verdict>();
        legal_histories::<Verdict>();
        agenda_laws::<Verdict>();
        let answer = next_claim(alloc, &mut self.agenda, &self.log, &self.settings)?;
        note(alloc, &mut self.log, seat, &answer)?;
        Ok(answer)
    }

    /// Takes the reading of a claimed key. Then the core is not caught up. A refusal hands the
    /// reading back and changes nothing.
    ///
    /// `NotClaimed` comes exactly where that seat has no claim on the key.
    pub fn absorb(
        &mut self,
        alloc: Global,
        seat: u32,
        key: &FileKey,
        reading: Reading,
    ) -> Result<(), AbsorbErr>
        requires { stands_at reading key.now.role ≡ true }
        ensures ok { OnOk result (self.new ≡ then_by self.old seat (arrive key.now reading) false) }
        ensures claimed { OnOk result (holder self.old.history key.now ≡ Some seat) }
        ensures refused { IfErr result (IsRefusal self.old.history seat key.now reading) }
        ensures unchanged { OnErr result (self.new ≡ self.old) }
    {
        legal_histories::<Verdict>();
        rounds_stand();
        match self.log.absorb(alloc, seat, key, reading) {
            Err(refusal) => Err(refusal),
            Ok(()) => {
                self.caught_up = false;
                Ok(())
            }
        }
    }

    /// A claim broke. Then the core is not caught up. It takes no memory.
    ///
    /// `NotClaimed` comes exactly where that seat has no claim on the key.
    pub fn broke(&mut self, seat: u32, key: &FileKey, why: Why) -> Result<(), NotClaimed>
        ensures claimed { IsOk result ↔ (holder self.old.history key.now ≡ Some seat) }
        ensures ok { OnOk result (self.new ≡ then_by self.old seat (breaks key.now why) false) }
        ensures err { OnErr result (self.new ≡ self.old) }
    {
        legal_histories::<Verdict>();
        rounds_stand();
        self.log.broke(seat, key, why)?;
        self.caught_up = false;
        Ok(())
    }

    /// A claim is given back: the key is free again. It takes no memory.
    ///
    /// `NotClaimed` comes exactly where that seat has no claim on the key.
    pub fn give_back(&mut self, seat: u32, key: &FileKey) -> Result<(), NotClaimed>
        ensures claimed { IsOk result ↔ (holder self.old.history key.now ≡ Some seat) }
        ensures ok { OnOk result (self.new ≡ then_by self.old seat (returns_it key.now) self.old.caught_up) }
        ensures err { OnErr result (self.new ≡ self.old) }
    {
        legal_histories::<Verdict>();
        agenda_laws::<Verdict>();
        rounds_stand();
        self.log.give_back(seat, key)?;
        self.agenda.begin_anew();
        Ok(())
    }

    /// How far the rounds come: where the core is caught up, over all that is known.
    pub fn progress(&self) -> &Progress
        ensures value { result.now ≡ self.now.progress }
        ensures scratch { self.now.caught_up ≡ true → result.now ≡ rounds_of (known_in self.now.history) self.now.ask }
    {
        &self.progress
    }

    /// What is known: the pairs that arrived, in their order.
    pub fn known(&self) -> &Known
        ensures { result.now ≡ record { repos = self.now.ask.repos; pairs = pairs_in self.now.history } }
    {
        self.log.known()
    }

    /// What happened, in order. The history is legal.
    pub fn events(&self) -> &[Event]
        ensures value { result.now ≡ events_of self.now.history }
        ensures legal { Legal self.now.settings (resolver_of self.now.ask) self.now.history }
    {
        self.log.events()
    }

    /// The verdict: there is one exactly where the core is caught up and the rounds are over.
    pub fn verdict(&self) -> Option<&Verdict>
        ensures { option_copied result ≡ verdict_in self.now.caught_up self.now.progress }
    {
        if !self.caught_up {
            return None;
        }
        match &self.progress {
            Progress::Waiting { .. } => None,
            Progress::Over(verdict) => Some(verdict),
        }
    }
}
