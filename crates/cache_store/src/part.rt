//! The open parts of a store.
ghost use Rattle.std.specs.Prelude.{◌≡◌, ◌<◌, ◌≤◌, ◌+◌, ◌++◌, ℕ, List, IfOk, IfSome, IsSome, None, OnErr, OnSome, Some, length, slice_set};
ghost use Rattle.std.specs.Option.{option_copied, option_map};
ghost use Rattle.digest_check.specs.Fed.{IsFed};
ghost use Rattle.cache_store.specs.Parts.{AreUnsealed, part_at, sealed_as, unsealed};
ghost use Rattle.cache_store.specs.declared.part.Part.{Part};

use digest_check::Sums;
use res_base::{NoMemory, Text};

/// The greatest number of open parts.
pub(crate) const PART_LIMIT: usize = 4096;

/// An open part: the digests and the length of what was appended, and the name that it is sealed
/// for.
#[derive(Drop)]
pub(crate) struct Part {
    pub(crate) sums: Sums,
    pub(crate) length: u64,
    pub(crate) sealed: Option<Text>,
}

/// The open part with a number.
pub(crate) fn open_part(parts: &[Option<Part>], number: u32) -> Option<&Part>
    ensures value { option_copied result ≡ part_at parts.now number }
    ensures within { OnSome result (number < length parts.now) }
{
    match parts.get(number as usize) {
        Some(Some(part)) => Some(part),
        _ => None,
    }
}

/// The least number of a part that isn't open, below the limit; there is a place for it then.
pub(crate) fn free_place(parts: &mut Vec<Option<Part>>) -> Result<Option<u32>, NoMemory>
    requires { length parts.old.items ≤ 4096 }
    ensures few { length parts.new.items ≤ 4096 }
    ensures same { (j : ℕ) → part_at parts.new.items j ≡ part_at parts.old.items j }
    ensures free { IfOk result (λ place. IfSome place
        (λ number. (number < length parts.new.items) × (part_at parts.new.items number ≡ None))) }
    ensures full { IfOk result (λ place. place ≡ None → (j : ℕ) → j < 4096 → IsSome (part_at parts.old.items j)) }
    ensures room { OnErr result ((j : ℕ) × (j < 4096) × (part_at parts.old.items j ≡ None)) }
{
    for (i, part) in parts.iter().enumerate() {
        if part.is_none() {
            return Ok(Some(i as u32));
        }
    }
    let count = parts.len();
    if count == PART_LIMIT {
        return Ok(None);
    }
    parts.push(None)?;
    Ok(Some(count as u32))
}

/// Bytes were put at the end of a part.
pub(crate) fn take_piece(parts: &mut Vec<Option<Part>>, number: u32, piece: &[u8], longer: u64)
    requires { number < length parts.old.items }
    ensures { (p : Part) → part_at parts.old.items number ≡ Some p
        → (q : Part) × (parts.new.items ≡ slice_set parts.old.items number (Some q)) × (q.length ≡ longer)
        × (q.sealed ≡ p.sealed) × ((bytes : List ℕ) → IsFed p.sums bytes → IsFed q.sums (bytes ++ piece.now)) }
{
    match parts[number as usize].take() {
        Some(
            Part {
                mut sums,
                sealed,
                ..
            },
        ) => {
            sums.update(piece);
            parts[number as usize] = Some(Part {
                sums,
                length: longer,
                sealed,
            });
        }
        None => {}
    }
}

/// A part is sealed for a name.
pub(crate) fn seal_at(parts: &mut Vec<Option<Part>>, number: u32, name: Text)
    requires { number < length parts.old.items }
    ensures { (p : Part) → part_at parts.old.items number ≡ Some p
        → parts.new.items ≡ slice_set parts.old.items number (Some (sealed_as name p)) }
{
    match parts[number as usize].take() {
        Some(Part { sums, length, .. }) => {
            parts[number as usize] = Some(Part {
                sums,
                length,
                sealed: Some(name),
            });
        }
        None => {}
    }
}

/// A part is no longer sealed for a name.
fn unseal(slot: &mut Option<Part>, name: &str)
    ensures { slot.new ≡ option_map (unsealed name.now) slot.old }
{
    if let Some(part) = slot {
        if let Some(sealed) = &part.sealed {
            if sealed.as_str() == name {
                part.sealed = None;
            }
        }
    }
}

/// No part is sealed for a name any more.
pub(crate) fn unseal_all(parts: &mut Vec<Option<Part>>, name: &str)
    ensures few { length parts.new.items ≡ length parts.old.items }
    ensures each { AreUnsealed name.now parts.old.items parts.new.items }
{
    for i in 0..parts.len() {
        unseal(&mut parts[i], name);
    }
}
