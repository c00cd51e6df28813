//! Rules in an ordered table, where each is found without a walk over all: strangers choose them.
ghost use Rattle.std.specs.Prelude.{◌≡◌, ◌∷◌, [], ◌++◌, IfOk, OnOk};
ghost use Rattle.exclusion_sets.specs.Lookups.{HasRules, is_found, table_has, unfound};

use res_base::{Copied, Exclusion, List, Module, NoMemory, Text};
use std::alloc::Global;
use std::collections::BTreeSet;

/// Each rule as a module with its parts.
pub(crate) fn table_of(alloc: Global, rules: &[Exclusion]) -> Result<BTreeSet<Module>, NoMemory>
    ensures { IfOk result (λ table. HasRules rules.now table) }
{
    let mut table: BTreeSet<Module> = BTreeSet::new(alloc);
    for rule in rules {
        let org = rule.org.copy(alloc)?;
        let name = rule.name.copy(alloc)?;
        table.insert(Module { org, name })?;
    }
    Ok(table)
}

/// Whether the table has a rule with these parts.
fn has_rule(
    alloc: Global,
    table: &BTreeSet<Module>,
    org: &Text,
    name: &Text,
) -> Result<bool, NoMemory>
    ensures { IfOk result (λ found. found ≡ table_has table.now org.now name.now) }
{
    let rule = Module {
        org: org.copy(alloc)?,
        name: name.copy(alloc)?,
    };
    Ok(table.contains(&rule))
}

/// Whether the table has a rule with these parts, or with `*` in the place of one or of both.
fn has_cover(
    alloc: Global,
    table: &BTreeSet<Module>,
    org: &Text,
    name: &Text,
) -> Result<bool, NoMemory>
    ensures { IfOk result (λ found. found ≡ is_found (table_has table.now) org.now name.now) }
{
    let any = Text::of(alloc, "*")?;
    if has_rule(alloc, table, org, name)? {
        return Ok(true);
    }
    if has_rule(alloc, table, org, &any)? {
        return Ok(true);
    }
    if has_rule(alloc, table, &any, &any)? {
        return Ok(true);
    }
    has_rule(alloc, table, &any, name)
}

/// Puts a rule at the end of others, unless the table has one that covers it.
pub(crate) fn put_unfound(
    alloc: Global,
    table: &BTreeSet<Module>,
    rules: &mut List<Exclusion>,
    rule: &Exclusion,
) -> Result<(), NoMemory>
    ensures { OnOk result (rules.new ≡ rules.old ++ unfound table.now (rule.now ∷ [])) }
{
    if has_cover(alloc, table, &rule.org, &rule.name)? {
        return Ok(());
    }
    rules.push(rule.copy(alloc)?)
}
