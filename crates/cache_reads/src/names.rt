//! The names of a file's record and of its absence record.
ghost use Rattle.std.specs.Prelude.{◌≡◌, IfOk};
ghost use Rattle.cache_images.specs.Places.{gone_name, record_name};

use res_base::{NoMemory, Text};
use std::alloc::Global;

/// The name of a file's record.
pub fn record_name(alloc: Global, name: &str) -> Result<Text, NoMemory>
    ensures { IfOk result (λ made. made ≡ record_name name.now) }
{
    Ok(Text::from_string(format!(in alloc; "records/{name}")?))
}

/// The name of a file's absence record.
pub fn gone_name(alloc: Global, name: &str) -> Result<Text, NoMemory>
    ensures { IfOk result (λ made. made ≡ gone_name name.now) }
{
    Ok(Text::from_string(format!(in alloc; "gone/{name}")?))
}
