//! Sets of exclusions.
ghost use Rattle.std.specs.Prelude.{◌≡◌, ◌↔◌, ◌∷◌, [], ◌++◌, ◌||◌, IfOk, IsTrue, OnOk};
ghost use Rattle.exclusion_sets.specs.Exclusions.{covers, is_covered, is_excluded, is_within, join_of, stands_for, uncovered};
ghost use Rattle.res_base.specs.declared.coord.Module.{Module};

use crate::rule_table::{put_unfound, table_of};
use res_base::{Copied, Exclusion, List, Module, NoMemory, Text};
use std::alloc::Global;

/// From how many rules on a table costs less than comparing all pairs.
const MANY_RULES: usize = 16;

/// Exclusions that hold together: what any of its rules matches is left out.
#[derive(Drop)]
pub struct ExclSet {
    pub rules: List<Exclusion>,
}

fn is_same_rules(one: &[Exclusion], other: &[Exclusion]) -> bool
    ensures { IsTrue result ↔ (one.now ≡ other.now) }
{
    one == other
}

/// Whether two sets have the same rules in the same order.
pub fn is_same_set(one: &ExclSet, other: &ExclSet) -> bool
    ensures { IsTrue result ↔ (one.now ≡ other.now) }
{
    is_same_rules(one.rules.as_slice(), other.rules.as_slice())
}

/// `*` stands for every text, and another text for itself.
fn stands_for(pattern: &Text, text: &Text) -> bool
    ensures { result ≡ stands_for pattern.now text.now }
{
    pattern.as_str() == "*" || pattern.as_str() == text.as_str()
}

fn covers(rule: &Exclusion, org: &Text, name: &Text) -> bool
    ensures { result ≡ covers rule.now org.now name.now }
{
    stands_for(&rule.org, org) && stands_for(&rule.name, name)
}

impl ExclSet {
    /// Whether a rule matches the module: the rule's org is `*` or the module's, and so is its
    /// name.
    pub fn excludes(&self, module: &Module) -> bool
        ensures { result ≡ is_excluded self.now «module».now }
    {
        self.rules
            .as_slice()
            .iter()
            .any(|rule| covers(rule, &module.org, &module.name))
    }

    /// Whether some rule covers this one: it matches all that this one matches.
    fn has_cover(&self, rule: &Exclusion) -> bool
        ensures { result ≡ is_covered self.now rule.now }
    {
        self.rules
            .as_slice()
            .iter()
            .any(|wider| covers(wider, &rule.org, &rule.name))
    }

    /// Whether each rule is covered by one rule of the other set. Then the other set excludes all
    /// that this one excludes.
    pub fn within(&self, other: &ExclSet) -> bool
        ensures { result ≡ is_within self.now other.now }
    {
        self.rules
            .as_slice()
            .iter()
            .all(|rule| other.has_cover(rule))
    }

    /// Puts a rule at the end of others, unless the set covers it.
    fn put_uncovered(
        &self,
        alloc: Global,
        rules: &mut List<Exclusion>,
        rule: &Exclusion,
    ) -> Result<(), NoMemory>
        ensures { OnOk result (rules.new ≡ rules.old ++ uncovered self.now (rule.now ∷ [])) }
    {
        if self.has_cover(rule) {
            return Ok(());
        }
        rules.push(rule.copy(alloc)?)
    }

    /// Puts the rules that the set does not cover at the end of others, by comparing all pairs.
    fn put_by_pairs(
        &self,
        alloc: Global,
        rules: &mut List<Exclusion>,
        more: &[Exclusion],
    ) -> Result<(), NoMemory>
        ensures { OnOk result (rules.new ≡ rules.old ++ uncovered self.now more.now) }
    {
        for rule in more {
            self.put_uncovered(alloc, rules, rule)?;
        }
        Ok(())
    }

    /// Likewise, by looking each up in a table.
    fn put_by_table(
        &self,
        alloc: Global,
        rules: &mut List<Exclusion>,
        more: &[Exclusion],
    ) -> Result<(), NoMemory>
        ensures { OnOk result (rules.new ≡ rules.old ++ uncovered self.now more.now) }
    {
        let table = table_of(alloc, self.rules.as_slice())?;
        for rule in more {
            put_unfound(alloc, &table, rules, rule)?;
        }
        Ok(())
    }

    /// Likewise, by a table where there are many of both.
    fn put_more(
        &self,
        alloc: Global,
        rules: &mut List<Exclusion>,
        more: &[Exclusion],
    ) -> Result<(), NoMemory>
        ensures { OnOk result (rules.new ≡ rules.old ++ uncovered self.now more.now) }
    {
        if self.rules.len() < MANY_RULES || more.len() < MANY_RULES {
            return self.put_by_pairs(alloc, rules, more);
        }
        self.put_by_table(alloc, rules, more)
    }

    /// A set that excludes what either excludes: the rules of this one, and then those of the other
    /// that none of these covers.
    pub fn join(&self, alloc: Global, other: &ExclSet) -> Result<ExclSet, NoMemory>
        ensures value { IfOk result (λ joined. joined ≡ join_of self.now other.now) }
        ensures either { IfOk result (λ joined.
            (m : Module) → is_excluded joined m ≡ (is_excluded self.now m || is_excluded other.now m)) }
    {
        let mut rules = self.rules.copy(alloc)?;
        self.put_more(alloc, &mut rules, other.rules.as_slice())?;
        Ok(ExclSet { rules })
    }
}

impl Copied for ExclSet {
    fn copy(&self, alloc: Global) -> Result<ExclSet, NoMemory> {
        Ok(ExclSet {
            rules: self.rules.copy(alloc)?,
        })
    }
}
