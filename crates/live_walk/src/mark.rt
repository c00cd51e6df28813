//! Marks of exclusions, by which most of those that differ are told apart without their texts.
ghost use Rattle.std.specs.Prelude.{◌≡◌};
ghost use Rattle.live_walk.specs.Marks.{added_text, cover_mask, cover_of, is_wide, mask_of, own_mask};

use res_base::{Exclusion, Text};

/// A sum that goes on over the bytes of a text. It differs for most texts.
fn add_text(start: u64, text: &Text) -> u64
    ensures { result ≡ added_text start text.now }
{
    let bytes = text.as_bytes();
    let mut sum = start;
    for byte in bytes {
        sum = (sum % 16_777_216) * 31 + *byte as u64;
    }
    sum
}

/// All bits but one, which the texts of the rule choose.
fn mask_of(rule: &Exclusion) -> u64
    ensures { result ≡ mask_of rule.now }
{
    let sum = add_text(add_text(7, &rule.org), &rule.name);
    u64::MAX - (1u64 << (sum % 61))
}

/// Whether the rule may cover other rules.
fn is_wide(rule: &Exclusion) -> bool
    ensures { result ≡ is_wide rule.now }
{
    rule.org.as_str() == "*" || rule.name.as_str() == "*"
}

/// The mask of a rule that covers itself alone, and no bits for another one.
fn cover_of(rule: &Exclusion) -> u64
    ensures { result ≡ cover_of rule.now }
{
    if is_wide(rule) {
        return 0;
    }
    mask_of(rule)
}

/// The bits that all rules leave.
pub(crate) fn own_mask(rules: &[Exclusion]) -> u64
    ensures { result ≡ own_mask rules.now }
{
    let mut mask = u64::MAX;
    for rule in rules {
        mask &= mask_of(rule);
    }
    mask
}

/// Likewise, where a rule that may cover others leaves none.
pub(crate) fn cover_mask(rules: &[Exclusion]) -> u64
    ensures { result ≡ cover_mask rules.now }
{
    let mut mask = u64::MAX;
    for rule in rules {
        mask &= cover_of(rule);
    }
    mask
}
