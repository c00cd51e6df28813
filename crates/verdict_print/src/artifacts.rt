//! Files that did not come whole.
ghost use Rattle.std.specs.Prelude.{◌≡◌, ◌++◌, IfOk, OnOk, codes, is_none};
ghost use Rattle.std.specs.List.{flat_map, list_all};
ghost use Rattle.verdict_print.specs.Lines.{artifact_below, artifact_line, artifact_text, missing_of};
ghost use Rattle.verdict_print.specs.Reasons.{reason_text};

use crate::reasons::reason_text;
use class_path::FileRow;
use res_base::{List, NoMemory, Reading, Reason, Text, url_of};
use std::alloc::Global;

/// Why a file did not come whole, if it did not.
fn missing(reading: &Reading) -> Option<Reason>
    ensures { result ≡ missing_of reading.now }
{
    match reading {
        Reading::Pom(_) => None,
        Reading::Listing(_) => None,
        Reading::Stored(_) => None,
        Reading::NotReadable(fault) => Some(Reason::NotReadable(*fault)),
        Reading::Absent => Some(Reason::Absent),
        Reading::Damaged(damage) => Some(Reason::Damaged(*damage)),
        Reading::TooLarge => Some(Reason::TooLarge),
    }
}

fn put_missing(alloc: Global, text: &mut Text, url: &str, reason: Reason) -> Result<(), NoMemory>
    ensures { OnOk result (text.new
        ≡ text.old ++ (codes "artifact " ++ (url.now ++ (codes " " ++ (reason_text reason ++ codes "\n"))))) }
{
    text.push_str("artifact ")?;
    text.push_str(url)?;
    text.push_str(" ")?;
    text.push_str(reason_text(alloc, reason)?.as_str())?;
    text.push_str("\n")
}

fn put_row(
    alloc: Global,
    text: &mut Text,
    addresses: &List<Text>,
    row: &FileRow,
) -> Result<(), NoMemory>
    ensures { OnOk result (text.new ≡ text.old ++ artifact_text addresses.now row.now) }
{
    let Some(address) = addresses.get(row.key.repo as usize) else {
        return Ok(());
    };
    let Some(reason) = missing(&row.reading) else {
        return Ok(());
    };
    let url = url_of(alloc, address.as_str(), row.key.path.as_str())?;
    put_missing(alloc, text, url.as_str(), reason)
}

/// The lines of files that did not come whole: `artifact URL REASON` for each.
pub fn artifact_lines(
    alloc: Global,
    addresses: &List<Text>,
    rows: &List<FileRow>,
) -> Result<Text, NoMemory>
    ensures { IfOk result (λ text. text ≡ flat_map (artifact_text addresses.now) rows.now) }
{
    let mut text = Text::new(alloc);
    for row in rows.as_slice() {
        put_row(alloc, &mut text, addresses, row)?;
    }
    Ok(text)
}

/// Whether all files came whole.
pub fn all_came(rows: &List<FileRow>) -> bool
    ensures { result ≡ list_all (λ row. is_none (missing_of row.reading)) rows.now }
{
    rows.as_slice()
        .iter()
        .all(|row| missing(&row.reading).is_none())
}
