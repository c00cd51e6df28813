//! Digests.
//!
//! - `digest CHECK H`: the digest that a checksum file with these bytes holds, or `none`. CHECK is
//!   `sha1`, `md5` or `sha256`.
//! - `sums H`: the SHA-1, the MD5 and the SHA-256 of the bytes.
ghost use Rattle.std.specs.Prelude.{◌≡◌, ◌∷◌, ◌++◌, Some, IfOk, string_bytes};
ghost use Rattle.std.specs.Option.{IfSome};
ghost use Rattle.digest_check.specs.Digests.{digests_of};
ghost use Rattle.hex.specs.Hex.{encode_lower};
ghost use Rattle.value_cases.specs.Digests.{check_word, digest_bytes, sums_line as sums_line_of};

use case_words::case_error::CaseError;
use case_words::hex_word::bytes_of;
use digest_check::{Digests, Sums, find_digest};
use res_base::{Check, Digest};
use std::alloc::{AllocError, Global};

fn check_of(word: &str) -> Option<Check>
    ensures { IfSome result (λ check. check_word check ≡ word.now) }
{
    match word {
        "sha1" => Some(Check::Sha1),
        "md5" => Some(Check::Md5),
        "sha256" => Some(Check::Sha256),
        _ => None,
    }
}

/// The hexadecimal digits of a digest.
pub fn digest_line(alloc: Global, digest: Digest) -> Result<String, AllocError>
    ensures { IfOk result (λ line. string_bytes line ≡ encode_lower (digest_bytes digest)) }
{
    match digest {
        Digest::Sha1(bytes) => hex::encode(alloc, bytes),
        Digest::Md5(bytes) => hex::encode(alloc, bytes),
        Digest::Sha256(bytes) => hex::encode(alloc, bytes),
    }
}

pub fn digest(alloc: Global, fields: &[&str]) -> Result<String, CaseError> {
    let [check, file] = fields else {
        return Err(CaseError::OutOfForm);
    };
    let Some(check) = check_of(check) else {
        return Err(CaseError::OutOfForm);
    };
    let file = bytes_of(alloc, file)?;
    match find_digest(check, file.as_slice()) {
        Some(digest) => Ok(digest_line(alloc, digest)?),
        None => Ok(String::from_str(alloc, "none")?),
    }
}

fn digests_of(bytes: &[u8]) -> Digests
    ensures { result ≡ digests_of bytes.now }
{
    let mut sums = Sums::new();
    sums.update(bytes);
    sums.finish()
}

fn sums_line(alloc: Global, digests: &Digests) -> Result<String, AllocError>
    ensures { IfOk result (λ line. string_bytes line ≡ sums_line_of digests.now) }
{
    let sha1 = hex::encode(alloc, digests.sha1)?;
    let md5 = hex::encode(alloc, digests.md5)?;
    let sha256 = hex::encode(alloc, digests.sha256)?;
    format!(in alloc; "{sha1} {md5} {sha256}")
}

pub fn sums(alloc: Global, fields: &[&str]) -> Result<String, CaseError> {
    let [bytes] = fields else {
        return Err(CaseError::OutOfForm);
    };
    let bytes = bytes_of(alloc, bytes)?;
    Ok(sums_line(alloc, &digests_of(bytes.as_slice()))?)
}
