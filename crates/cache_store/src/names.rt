//! The names of open parts.
ghost use Rattle.std.specs.Prelude.{◌≡◌, IfOk};
ghost use Rattle.cache_images.specs.Places.{part_name, record_part_name};
ghost use Rattle.cache_store.specs.SealNames.{AreSealNames};

use cache_reads::{gone_name, record_name};
use res_base::{NoMemory, Text};
use std::alloc::Global;

/// The name of a part.
pub(crate) fn part_name(alloc: Global, number: u32) -> Result<Text, NoMemory>
    ensures { IfOk result (λ made. made ≡ part_name number) }
{
    Ok(Text::from_string(format!(in alloc; "parts/{number}.part")?))
}

/// The name under which the record of a part is written.
pub(crate) fn record_part_name(alloc: Global, number: u32) -> Result<Text, NoMemory>
    ensures { IfOk result (λ made. made ≡ record_part_name number) }
{
    Ok(Text::from_string(format!(in alloc; "parts/{number}.rec")?))
}

/// The names that sealing a part for a file takes.
#[derive(Drop)]
pub(crate) struct SealNames {
    /// The file's own name.
    pub(crate) own: Text,
    pub(crate) part: Text,
    /// That of the file's absence record.
    pub(crate) gone: Text,
    pub(crate) record_part: Text,
    /// That of the file's record.
    pub(crate) entry: Text,
}

/// The names that sealing the part with this number for a file takes.
pub(crate) fn seal_names(alloc: Global, number: u32, name: &str) -> Result<SealNames, NoMemory>
    ensures { IfOk result (AreSealNames number name.now) }
{
    let own = Text::of(alloc, name)?;
    let part = part_name(alloc, number)?;
    let gone = gone_name(alloc, name)?;
    let record_part = record_part_name(alloc, number)?;
    let entry = record_name(alloc, name)?;
    Ok(SealNames {
        own,
        part,
        gone,
        record_part,
        entry,
    })
}
