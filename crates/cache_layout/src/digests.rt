//! Digests in a line.
ghost use Rattle.std.specs.Prelude.{◌≡◌, ◌*◌, ◌<◌, IfErr, IfOk, MatchOption, true, length};
ghost use Rattle.std.specs.List.{list_all};
ghost use Rattle.fault_place.specs.Place.{IsPlace};
ghost use Rattle.fault_place.specs.Reader.{Accepts};
ghost use Rattle.cache_layout.specs.Fields.{IsDigestText, StopsDigits, is_small_digit};

use res_base::{NoMemory, Text};
use std::alloc::Global;

/// A hexadecimal digit with a small letter.
fn is_small_digit(byte: u8) -> bool
    ensures { result ≡ is_small_digit byte }
{
    matches!(byte, b'0'..=b'9' | b'a'..=b'f')
}

/// The first place at which the text is not so many hexadecimal digits, if it is not.
fn digits_fault(text: &[u8], digits: usize) -> Option<usize>
    ensures { MatchOption result
        ((list_all is_small_digit text.now ≡ true) × (length text.now ≡ digits))
        (StopsDigits digits text.now) }
{
    for (i, byte) in text.iter().enumerate() {
        if i == digits {
            return Some(i);
        }
        if !is_small_digit(*byte) {
            return Some(i);
        }
    }
    if text.len() < digits {
        Some(text.len())
    } else {
        None
    }
}

fn bytes_text(alloc: Global, bytes: &[u8]) -> Result<Text, NoMemory>
    ensures { IfOk result (λ text. IsDigestText (length bytes.now) text bytes.now) }
{
    let text = hex::encode(alloc, bytes)?;
    Ok(Text::from_string(text))
}

/// The hexadecimal digits of a digest, with small letters.
pub(crate) fn digest_text<const N: usize>(alloc: Global, digest: &[u8; N]) -> Result<Text, NoMemory>
    ensures { IfOk result (λ text. IsDigestText N text digest.now) }
{
    bytes_text(alloc, digest)
}

/// Reads a digest of N bytes in hexadecimal digits with small letters; else the place where the
/// text leaves that form.
pub(crate) fn read_digest<const N: usize>(text: &[u8]) -> Result<[u8; N], usize>
    requires { N < 100 }
    ensures read { IfOk result (IsDigestText N text.now) }
    ensures refused { IfErr result (IsPlace (Accepts (IsDigestText N)) text.now) }
{
    if let Some(place) = digits_fault(text, 2 * N) {
        return Err(place);
    }
    let mut digest = [0; N];
    let _ = hex::decode_to_slice(text, &mut digest);
    Ok(digest)
}
