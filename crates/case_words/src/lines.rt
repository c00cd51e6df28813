//! Lines that several commands answer.
ghost use Rattle.std.specs.Prelude.{◌≡◌, ◌++◌, if◌then◌else◌, IfOk, codes, decimal, string_bytes};

use std::alloc::{AllocError, Global};

pub fn yes_or_no(alloc: Global, is_so: bool) -> Result<String, AllocError>
    ensures { IfOk result (λ line. string_bytes line ≡ (if is_so then codes "yes" else codes "no")) }
{
    if is_so {
        String::from_str(alloc, "yes")
    } else {
        String::from_str(alloc, "no")
    }
}

/// The place where a text was refused.
pub fn bad_line(alloc: Global, place: usize) -> Result<String, AllocError>
    ensures { IfOk result (λ line. string_bytes line ≡ codes "bad " ++ decimal place) }
{
    format!(in alloc; "bad {place}")
}
