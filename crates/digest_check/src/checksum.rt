//! Checksum files.
ghost use Rattle.std.specs.Prelude.{◌≡◌, ◌*◌, true, length, IfSome};
ghost use Rattle.std.specs.List.{list_all};
ghost use Rattle.std.specs.Option.{option_copied};
ghost use Rattle.ascii_bytes.specs.Classes.{is_hex_digit};
ghost use Rattle.digest_check.specs.ChecksumFiles.{digest_in, first_run, from_digits, suffix_of};

use ascii_bytes::is_hex_digit;
use res_base::{Check, Digest};

/// The first maximal run of hexadecimal digits with this length.
fn find_run(bytes: &[u8], len: usize) -> Option<&[u8]>
    ensures value { option_copied result ≡ first_run len bytes.now }
    ensures len { IfSome result (λ run. length run.now ≡ len) }
    ensures digits { IfSome result (λ run. list_all is_hex_digit run.now ≡ true) }
{
    let mut start = 0;
    for (i, byte) in bytes.iter().enumerate() {
        if !is_hex_digit(*byte) {
            if i - start == len {
                return Some(&bytes[start..i]);
            }
            start = i + 1;
        }
    }
    let last = &bytes[start..];
    if last.len() == len { Some(last) } else { None }
}

/// The bytes that pairs of digits stand for.
fn decode<const N: usize>(digits: &[u8]) -> [u8; N]
    requires len { length digits.now ≡ 2 * N }
    requires digits { list_all is_hex_digit digits.now ≡ true }
    ensures { result ≡ from_digits digits.now }
{
    let mut digest = [0; N];
    let _ = hex::decode_to_slice(digits, &mut digest);
    digest
}

/// The digest that a checksum file holds for a check: the first maximal run of hexadecimal digits,
/// of either case, that has as many digits as a digest of that kind. `None` where the file has no
/// such run, and for `NoCheck`.
pub fn find_digest(check: Check, bytes: &[u8]) -> Option<Digest>
    ensures { result ≡ digest_in check bytes.now }
{
    match check {
        Check::Sha1 => Some(Digest::Sha1(decode(find_run(bytes, 40)?))),
        Check::Md5 => Some(Digest::Md5(decode(find_run(bytes, 32)?))),
        Check::Sha256 => Some(Digest::Sha256(decode(find_run(bytes, 64)?))),
        Check::NoCheck => None,
    }
}

/// What stands after a file's URL in the URL of its checksum file. `NoCheck` has no such file, and
/// the empty text.
pub fn suffix(check: Check) -> &'static str
    ensures { result.now ≡ suffix_of check }
{
    match check {
        Check::Sha1 => ".sha1",
        Check::Md5 => ".md5",
        Check::Sha256 => ".sha256",
        Check::NoCheck => "",
    }
}
