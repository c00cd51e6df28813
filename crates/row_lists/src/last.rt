//! Of rows with one key the last counts.
ghost use Rattle.std.specs.Prelude.{◌≡◌, map, reverse, IfOk};
ghost use Rattle.row_lists.specs.RowLists.{joined as joined_rows, last_of_key as last_rows, with_imported};

use super::set::RowSet;
use super::table::RowTable;
use res_base::{DepRecord, List, NoMemory};
use std::alloc::Global;

/// The rows without those whose key a later row has.
pub fn last_of_key(alloc: Global, rows: List<DepRecord>) -> Result<List<DepRecord>, NoMemory>
    ensures { IfOk result (λ made. made ≡ last_rows rows) }
{
    let mut from_last = rows.into_vec();
    from_last.reverse();
    let last = RowTable::new(alloc).with_imported(List::from_vec(from_last))?;
    let mut made = last.into_rows().into_vec();
    made.reverse();
    Ok(List::from_vec(made))
}

/// Puts rows into a set, the last first.
fn put_back<'a>(set: RowSet<'a>, rows: &'a [DepRecord]) -> Result<RowSet<'a>, NoMemory>
    ensures { IfOk result (λ made. made ≡ with_imported set.entry (reverse rows.now)) }
{
    let mut made = set;
    for row in rows.iter().rev() {
        made = made.with_row(row)?;
    }
    Ok(made)
}

/// Puts the rows of lists into a set, each list from its last row.
fn all_put_back<'a>(alloc: Global, lists: &[&'a List<DepRecord>]) -> Result<RowSet<'a>, NoMemory>
    ensures { IfOk result (λ set. set ≡ reverse (joined_rows (map (λ list. list.now) lists.now))) }
{
    let mut last: RowSet<'a> = RowSet::new(alloc);
    for list in lists {
        last = put_back(last, list.as_slice())?;
    }
    Ok(last)
}

/// The rows of lists of which each overrides those behind it: those of the last list come first,
/// without those whose key a list before it has.
pub fn joined<'a>(
    alloc: Global,
    lists: &[&'a List<DepRecord>],
) -> Result<Vec<&'a DepRecord>, NoMemory>
    ensures { IfOk result (λ made. map (λ row. row.now) made.items ≡ joined_rows (map (λ list. list.now) lists.now)) }
{
    let mut made = all_put_back(alloc, lists)?.into_rows();
    made.reverse();
    Ok(made)
}
