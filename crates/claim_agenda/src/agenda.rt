//! What is to be claimed over what is known: needs and hints in order.
ghost use Rattle.std.specs.List.Sorted.{IsSorted};
ghost use Rattle.std.specs.Prelude.{◌≡◌, ◌<◌, ◌+◌, ◌-◌, ◌++◌, [], false, IfOk, OnOk};
ghost use Rattle.claim_agenda.specs.Agendas.{IsPlan, KeepsKeys, SameKeys};
ghost use Rattle.claim_rules.specs.Sessions.{keys_from, later_keys, with_later};
ghost use Rattle.res_base.specs.Names.{key_cmp};

use claim_rules::Settings;
use res_base::{Copied, FileKey, NoMemory, Role};
use std::alloc::Global;

/// What is to be claimed over what is known.
#[derive(Drop)]
pub struct Agenda {
    /// Whether nothing is left to do.
    pub is_over: bool,
    /// In key order.
    pub needs: Vec<FileKey>,
    pub hints: Vec<FileKey>,
    /// No need before this place is free.
    pub next_need: usize,
    pub next_hint: usize,
}

/// Puts the same file of all later repositories behind the hints.
fn push_later(
    alloc: Global,
    hints: &mut Vec<FileKey>,
    repos: u32,
    key: &FileKey,
) -> Result<(), NoMemory>
    requires { key.now.repo < repos }
    ensures { OnOk result (hints.new.items ≡ hints.old.items ++ keys_from (repos - (key.now.repo + 1)) (key.now.repo + 1) key.now.role key.now.path) }
{
    for repo in key.repo + 1..repos {
        hints.push(FileKey {
            repo,
            role: key.role,
            path: key.path.copy(alloc)?,
        })?;
    }
    Ok(())
}

/// Puts what may be asked for beside a need behind the hints.
fn push_hints(
    alloc: Global,
    hints: &mut Vec<FileKey>,
    repos: u32,
    key: &FileKey,
) -> Result<(), NoMemory>
    ensures { OnOk result (hints.new.items ≡ hints.old.items ++ later_keys repos key.now) }
{
    if key.repo >= repos {
        return Ok(());
    }
    match key.role {
        Role::Pom => push_later(alloc, hints, repos, key),
        Role::Listing => push_later(alloc, hints, repos, key),
        Role::Artifact => Ok(()),
    }
}

/// What an eager session may ask for beside its needs.
fn hints_of(alloc: Global, settings: &Settings, needs: &[FileKey]) -> Result<Vec<FileKey>, NoMemory>
    ensures { IfOk result (λ made. made.items ≡ with_later settings.now needs.now) }
{
    let mut hints = Vec::new(alloc);
    if !settings.eager {
        return Ok(hints);
    }
    for key in needs {
        push_hints(alloc, &mut hints, settings.repos, key)?;
    }
    Ok(hints)
}

/// The keys in order.
fn in_order(keys: Vec<FileKey>) -> Result<Vec<FileKey>, NoMemory>
    ensures sorted { IfOk result (λ made. IsSorted key_cmp made.items) }
    ensures same { IfOk result (λ made. SameKeys made.items keys.items) }
{
    let mut keys = keys;
    keys.sort()?;
    Ok(keys)
}

impl Agenda {
    /// Nothing is to be claimed, and nothing is over.
    pub fn empty(alloc: Global) -> Agenda
        ensures over { result.is_over ≡ false }
        ensures needs { result.needs.items ≡ [] }
        ensures hints { result.hints.items ≡ [] }
        ensures first_need { result.next_need ≡ 0 }
        ensures first_hint { result.next_hint ≡ 0 }
    {
        Agenda {
            is_over: false,
            needs: Vec::new(alloc),
            hints: Vec::new(alloc),
            next_need: 0,
            next_hint: 0,
        }
    }

    /// The agenda of a session that needs these keys, and whether it is over.
    pub fn plan(
        alloc: Global,
        settings: &Settings,
        is_over: bool,
        needs: Vec<FileKey>,
    ) -> Result<Agenda, NoMemory>
        ensures { IfOk result (IsPlan settings.now is_over needs.items) }
    {
        let hints = hints_of(alloc, settings, needs.as_slice())?;
        Ok(Agenda {
            is_over,
            needs: in_order(needs)?,
            hints: in_order(hints)?,
            next_need: 0,
            next_hint: 0,
        })
    }

    /// Keys may be free from the first on.
    pub fn begin_anew(&mut self)
        ensures kept { KeepsKeys self.old self.new }
        ensures first_need { self.new.next_need ≡ 0 }
        ensures first_hint { self.new.next_hint ≡ 0 }
    {
        self.next_need = 0;
        self.next_hint = 0;
    }
}
