//! Modules, coordinates and sets of exclusions in words.
//!
//! A module is `ORG:NAME`, a coordinate `ORG:NAME:VERSION`, with each part H. A set is `{}` or
//! `{ORG:NAME,ORG:NAME}`, with its rules in the order in which they stand.
ghost use Rattle.std.specs.Prelude.{◌≡◌, ◌++◌, codes, IfOk, IfSome, map, string_bytes};
ghost use Rattle.case_words.specs.HexWord.{hex_word as hex_word_of};
ghost use Rattle.case_words.specs.Names.{coord_word as coord_word_of, module_word as module_word_of, rule_word as rule_word_of, set_word as set_word_of, texts_word as texts_word_of};
ghost use Rattle.case_words.specs.Words.{texts_of as words_in};

use crate::case_error::CaseError;
use crate::hex_word::{hex_word, text_of};
use crate::words::{joined, pieces_of};
use exclusion_sets::ExclSet;
use res_base::{Coord, Exclusion, List, Module, Text};
use std::alloc::{AllocError, Global};

pub fn module_of(alloc: Global, word: &str) -> Result<Module, CaseError>
    ensures { IfOk result (λ made. module_word_of made ≡ word.now) }
{
    let pieces = pieces_of(alloc, word, ':')?;
    let [org, name] = pieces.as_slice() else {
        return Err(CaseError::OutOfForm);
    };
    Ok(Module {
        org: text_of(alloc, org)?,
        name: text_of(alloc, name)?,
    })
}

pub fn coord_of(alloc: Global, word: &str) -> Result<Coord, CaseError>
    ensures { IfOk result (λ made. coord_word_of made ≡ word.now) }
{
    let pieces = pieces_of(alloc, word, ':')?;
    let [org, name, version] = pieces.as_slice() else {
        return Err(CaseError::OutOfForm);
    };
    Ok(Coord {
        module: Module {
            org: text_of(alloc, org)?,
            name: text_of(alloc, name)?,
        },
        version: text_of(alloc, version)?,
    })
}

fn rule_of(alloc: Global, word: &str) -> Result<Exclusion, CaseError>
    ensures { IfOk result (λ made. rule_word_of made ≡ word.now) }
{
    let module = module_of(alloc, word)?;
    Ok(Exclusion {
        org: module.org,
        name: module.name,
    })
}

fn rules_of(alloc: Global, words: &[&str]) -> Result<List<Exclusion>, CaseError>
    ensures { IfOk result (λ rules. map rule_word_of rules ≡ words_in words.now) }
{
    let mut rules: List<Exclusion> = List::new(alloc);
    for word in words {
        rules.push(rule_of(alloc, word)?)?;
    }
    Ok(rules)
}

/// What stands between the curly brackets.
fn inside_of(word: &str) -> Option<&str>
    ensures { IfSome result (λ inside. word.now ≡ codes "{" ++ (inside.now ++ codes "}")) }
{
    word.strip_prefix('{')?.strip_suffix('}')
}

pub fn set_of(alloc: Global, word: &str) -> Result<ExclSet, CaseError>
    ensures { IfOk result (λ set. set_word_of set ≡ word.now) }
{
    let Some(inside) = inside_of(word) else {
        return Err(CaseError::OutOfForm);
    };
    if inside.is_empty() {
        return Ok(ExclSet {
            rules: List::new(alloc),
        });
    }
    let words = pieces_of(alloc, inside, ',')?;
    Ok(ExclSet {
        rules: rules_of(alloc, words.as_slice())?,
    })
}

pub fn rule_word(alloc: Global, rule: &Exclusion) -> Result<String, AllocError>
    ensures { IfOk result (λ word. string_bytes word ≡ rule_word_of rule.now) }
{
    let org = hex_word(alloc, rule.org.as_bytes())?;
    let name = hex_word(alloc, rule.name.as_bytes())?;
    format!(in alloc; "{org}:{name}")
}

pub fn coord_word(alloc: Global, coord: &Coord) -> Result<String, AllocError>
    ensures { IfOk result (λ word. string_bytes word ≡ coord_word_of coord.now) }
{
    let org = hex_word(alloc, coord.module.org.as_bytes())?;
    let name = hex_word(alloc, coord.module.name.as_bytes())?;
    let version = hex_word(alloc, coord.version.as_bytes())?;
    format!(in alloc; "{org}:{name}:{version}")
}

pub fn set_word(alloc: Global, set: &ExclSet) -> Result<String, AllocError>
    ensures { IfOk result (λ word. string_bytes word ≡ set_word_of set.now) }
{
    let mut rules = Vec::new(alloc);
    for rule in set.rules.as_slice() {
        rules.push(rule_word(alloc, rule)?)?;
    }
    let rules = joined(alloc, rules.as_slice(), ",")?;
    format!(in alloc; "{{{rules}}}")
}

fn some_texts_of(alloc: Global, words: &[&str]) -> Result<List<Text>, CaseError>
    ensures { IfOk result (λ texts. map hex_word_of texts ≡ words_in words.now) }
{
    let mut texts: List<Text> = List::new(alloc);
    for word in words {
        texts.push(text_of(alloc, word)?)?;
    }
    Ok(texts)
}

/// Texts with commas between them.
pub fn texts_of(alloc: Global, word: &str) -> Result<List<Text>, CaseError>
    ensures { IfOk result (λ texts. texts_word_of texts ≡ word.now) }
{
    if word.is_empty() {
        return Ok(List::new(alloc));
    }
    let words = pieces_of(alloc, word, ',')?;
    Ok(some_texts_of(alloc, words.as_slice())?)
}
