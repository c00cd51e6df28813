//! What configurations keep.
//!
//! - `kept CONFIGURATION H H`: a scope text and an `optional` text: `yes` or `no`. CONFIGURATION is
//!   `default`, `compile` or `runtime`.
ghost use Rattle.std.specs.Prelude.{◌≡◌, IfOk, IfSome};
ghost use Rattle.case_words.specs.HexWord.{hex_word as hex_word_of};
ghost use Rattle.value_cases.specs.Scopes.{configuration_word};

use case_words::case_error::CaseError;
use case_words::hex_word::text_of;
use case_words::lines::yes_or_no;
use res_base::{DepRecord, List, Module, Text};
use scope_rules::Configuration;
use std::alloc::Global;

pub fn configuration_of(word: &str) -> Option<Configuration>
    ensures { IfSome result (λ configuration. configuration_word configuration ≡ word.now) }
{
    match word {
        "default" => Some(Configuration::Default),
        "compile" => Some(Configuration::Compile),
        "runtime" => Some(Configuration::Runtime),
        _ => None,
    }
}

/// A dependency with a scope and an `optional`, and all else empty.
fn dep_of(alloc: Global, scope: &str, optional: &str) -> Result<DepRecord, CaseError>
    ensures { IfOk result (λ dep. (hex_word_of dep.scope ≡ scope.now) × (hex_word_of dep.optional ≡ optional.now)) }
{
    Ok(DepRecord {
        module: Module {
            org: Text::new(alloc),
            name: Text::new(alloc),
        },
        version: Text::new(alloc),
        kind: Text::new(alloc),
        classifier: Text::new(alloc),
        scope: text_of(alloc, scope)?,
        optional: text_of(alloc, optional)?,
        exclusions: List::new(alloc),
    })
}

pub fn kept(alloc: Global, fields: &[&str]) -> Result<String, CaseError> {
    let [configuration, scope, optional] = fields else {
        return Err(CaseError::OutOfForm);
    };
    let Some(configuration) = configuration_of(configuration) else {
        return Err(CaseError::OutOfForm);
    };
    let dep = dep_of(alloc, scope, optional)?;
    Ok(yes_or_no(alloc, scope_rules::kept(configuration, &dep))?)
}
