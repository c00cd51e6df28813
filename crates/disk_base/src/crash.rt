//! What a crash leaves of a row, picked by a number.
ghost use Rattle.std.specs.Prelude.{◌≡◌, IfOk};
ghost use Rattle.disk_base.specs.Crashes.{picked, shown_by, was_bound};
ghost use Rattle.disk_base.specs.Tables.{bindings_at};

use crate::contents::Content;
use crate::rows::Row;
use res_base::{List, NoMemory};
use std::alloc::Global;

/// The bindings before the present one that count at a turn.
fn before_at<'a>(row: &'a Row, turn: u64) -> &'a [Option<Content>]
    ensures { result.now ≡ (bindings_at turn row.now).before }
{
    if row.turn == turn {
        row.bindings.before.as_slice()
    } else {
        &[]
    }
}

/// Some content was bound since the names were synced.
pub(crate) fn row_was_bound(row: &Row, turn: u64) -> bool
    ensures { result ≡ was_bound (bindings_at turn row.now) }
{
    let mut found = row.bindings.present.is_some();
    for content in before_at(row, turn) {
        found = found || content.is_some();
    }
    found
}

/// A content as it was written, or, at an odd number, with a zero byte for each that is not firm.
fn shown_by(alloc: Global, number: u64, content: &Content) -> Result<List<u8>, NoMemory>
    ensures { IfOk result (λ bytes. bytes ≡ shown_by number content.now) }
{
    let bytes = content.bytes.as_slice();
    if number % 2 == 0 {
        return List::from_slice(alloc, bytes);
    }
    let firm = content.firm.min(bytes.len());
    let mut shown = List::from_slice(alloc, &bytes[..firm])?;
    for _i in firm..bytes.len() {
        shown.push(0)?;
    }
    Ok(shown)
}

/// What a number picks of the bindings of a row.
pub(crate) fn row_picked(
    alloc: Global,
    number: u64,
    row: &Row,
    turn: u64,
) -> Result<Option<List<u8>>, NoMemory>
    ensures { IfOk result (λ bytes. bytes ≡ picked number (bindings_at turn row.now)) }
{
    let before = before_at(row, turn);
    let count = before.len() as u64 + 1;
    let place = (number % count) as usize;
    let binding = if place < before.len() {
        &before[place]
    } else {
        &row.bindings.present
    };
    match binding {
        None => Ok(None),
        Some(content) => Ok(Some(shown_by(alloc, number / count, content)?)),
    }
}
