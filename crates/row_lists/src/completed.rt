//! What a dependency takes from the managed row with its key.
ghost use Rattle.std.specs.Prelude.{◌≡◌, IfOk};
ghost use Rattle.std.specs.Option.{option_copied};
ghost use Rattle.row_lists.specs.RowLists.{completed as completed_row, or_exclusions, or_text, taking as taking_row, with_defaults as defaulted_row};

use res_base::{Copied, DepRecord, Exclusion, List, NoMemory, Text};
use std::alloc::Global;

/// The text, or another where it is absent.
fn text_or(alloc: Global, text: Text, other: &str) -> Result<Text, NoMemory>
    ensures { IfOk result (λ made. made ≡ or_text text other.now) }
{
    if text.is_empty() {
        return Text::of(alloc, other);
    }
    Ok(text)
}

fn exclusions_or(
    alloc: Global,
    rules: List<Exclusion>,
    other: &List<Exclusion>,
) -> Result<List<Exclusion>, NoMemory>
    ensures { IfOk result (λ made. made ≡ or_exclusions rules other.now) }
{
    if rules.is_empty() {
        return other.copy(alloc);
    }
    Ok(rules)
}

/// The row, with a version, a scope and exclusions of the managed row where it has none.
fn taking(alloc: Global, managed: &DepRecord, row: DepRecord) -> Result<DepRecord, NoMemory>
    ensures { IfOk result (λ made. made ≡ taking_row managed.now row) }
{
    Ok(DepRecord {
        module: row.module,
        version: text_or(alloc, row.version, managed.version.as_str())?,
        kind: row.kind,
        classifier: row.classifier,
        scope: text_or(alloc, row.scope, managed.scope.as_str())?,
        optional: row.optional,
        exclusions: exclusions_or(alloc, row.exclusions, &managed.exclusions)?,
    })
}

/// The row, with the type `jar` and the scope `compile` where it has none.
fn with_defaults(alloc: Global, row: DepRecord) -> Result<DepRecord, NoMemory>
    ensures { IfOk result (λ made. made ≡ defaulted_row row) }
{
    Ok(DepRecord {
        module: row.module,
        version: row.version,
        kind: text_or(alloc, row.kind, "jar")?,
        classifier: row.classifier,
        scope: text_or(alloc, row.scope, "compile")?,
        optional: row.optional,
        exclusions: row.exclusions,
    })
}

pub(crate) fn completed(
    alloc: Global,
    managed: Option<&DepRecord>,
    row: DepRecord,
) -> Result<DepRecord, NoMemory>
    ensures { IfOk result (λ made. made ≡ completed_row (option_copied managed.entry) row) }
{
    match managed {
        None => with_defaults(alloc, row),
        Some(managed) => {
            let row = taking(alloc, managed, row)?;
            with_defaults(alloc, row)
        }
    }
}
