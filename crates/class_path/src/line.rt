//! The class path of files.
ghost use Rattle.std.specs.Prelude.{◌≡◌, ◌++◌, IfOk, OnOk};
ghost use Rattle.class_path.specs.Files.{class_path_of, entry_of, next_entry};

use super::rows::FileRow;
use res_base::{List, NoMemory, Text};
use std::alloc::Global;

/// Puts the name of a file at the end of a text, after a prefix.
fn put_entry(text: &mut Text, prefix: &str, row: &FileRow) -> Result<(), NoMemory>
    ensures { OnOk result (text.new ≡ text.old ++ entry_of prefix.now row.now) }
{
    text.push_str(prefix)?;
    text.push_str(row.name.as_str())
}

fn put_next(text: &mut Text, prefix: &str, row: &FileRow) -> Result<(), NoMemory>
    ensures { OnOk result (text.new ≡ text.old ++ next_entry prefix.now row.now) }
{
    text.push_str(":")?;
    put_entry(text, prefix, row)
}

/// The names of the files in the cache, each after the prefix, joined by colons. There is no line
/// feed at the end.
pub fn class_path(alloc: Global, rows: &List<FileRow>, prefix: &str) -> Result<Text, NoMemory>
    ensures { IfOk result (λ text. text ≡ class_path_of rows.now prefix.now) }
{
    let mut text = Text::new(alloc);
    let Some((first, rest)) = rows.as_slice().split_first() else {
        return Ok(text);
    };
    put_entry(&mut text, prefix, first)?;
    for row in rest {
        put_next(&mut text, prefix, row)?;
    }
    Ok(text)
}
