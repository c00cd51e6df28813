//! The names of files in the cache.
ghost use Rattle.std.specs.Prelude.{◌≡◌, drop, [], ◌∷◌, ◌++◌, ◌<◌, ℕ, List, codes, true, IfOk, OnOk, IsErrOf, slice_index, string_bytes};
ghost use Rattle.fault_place.specs.Place.{IsPlace};
ghost use Rattle.res_base.specs.Paths.{url_at};
ghost use Rattle.cache_layout.specs.Addresses.{IsAddress};
ghost use Rattle.cache_layout.specs.Names.{escaped, escaped_byte, is_data_name, is_name_byte, name_of};
ghost use Rattle.hex.specs.Hex.{IsBytes, upper_digits};

use crate::addresses::read_address;
use crate::errors::NameErr;
use ascii_bytes::is_plain_byte;
use res_base::{NoMemory, Text, url_of};
use std::alloc::Global;

fn is_name_byte(byte: u8) -> bool
    ensures { result ≡ is_name_byte byte }
{
    is_plain_byte(byte) || byte == b'/'
}

/// A hexadecimal digit with a capital letter.
fn upper_digit(value: u8) -> u8
    requires { value < 16 }
    ensures digit { result ≡ slice_index upper_digits value }
    ensures small { result < 128 }
{
    b"0123456789ABCDEF"[value as usize]
}

/// Puts a byte of ASCII at the end of a name.
fn push_byte(name: &mut String, byte: u8) -> Result<(), NoMemory>
    requires { byte < 128 }
    ensures { OnOk result (string_bytes name.new ≡ string_bytes name.old ++ byte ∷ []) }
{
    name.push(char::from(byte))?;
    Ok(())
}

/// Puts a byte at the end of a name: as it is, or as `%` and two hexadecimal digits.
fn push_escaped(name: &mut String, byte: u8) -> Result<(), NoMemory>
    ensures { OnOk result (string_bytes name.new ≡ string_bytes name.old ++ escaped_byte byte) }
{
    if is_name_byte(byte) {
        return push_byte(name, byte);
    }
    push_byte(name, b'%')?;
    push_byte(name, upper_digit(byte / 16))?;
    push_byte(name, upper_digit(byte % 16))
}

/// Puts a text at the end of a name.
fn push_rest(name: &mut String, text: &[u8]) -> Result<(), NoMemory>
    ensures { OnOk result (string_bytes name.new ≡ string_bytes name.old ++ escaped text.now) }
{
    for byte in text {
        push_escaped(name, *byte)?;
    }
    Ok(())
}

/// The name under a folder of what follows the scheme of a URL.
fn name_in(alloc: Global, folder: &str, rest: &[u8]) -> Result<Text, NoMemory>
    ensures { IfOk result (λ name. name ≡ folder.now ++ escaped rest.now) }
{
    let mut name = String::from_str(alloc, folder)?;
    push_rest(&mut name, rest)?;
    Ok(Text::from_string(name))
}

/// What stands behind `file:`.
fn behind_scheme(url: &[u8]) -> &[u8]
    ensures { result.now ≡ drop 5 url.now }
{
    if url.len() < 5 {
        return &[];
    }
    &url[5..]
}

/// The name of a URL.
fn name_of(alloc: Global, url: &[u8]) -> Result<Text, NoMemory>
    ensures { IfOk result (λ name. name ≡ name_of url.now) }
{
    if let Some(rest) = url.strip_prefix(b"http://") {
        return name_in(alloc, "http/", rest);
    }
    match url.strip_prefix(b"file:/") {
        Some(rest) => name_in(alloc, "file/", rest),
        None => name_in(alloc, "here/", behind_scheme(url)),
    }
}

/// The cache's name of the file at a path below an address: that of their URL, `http/`, `file/` or
/// `here/` and the rest of the URL, in which each byte other than `A-Z a-z 0-9 . _ - + /` is `%` and
/// two hexadecimal digits with capital letters.
pub fn cache_name(alloc: Global, address: &str, path: &str) -> Result<Text, NameErr>
    ensures name { IfOk result (λ name. name ≡ name_of (url_at address.now path.now)) }
    ensures data_name { IfOk result (λ name. is_data_name name ≡ true) }
    ensures address { OnOk result (IsAddress address.now) }
    ensures refused { (n : ℕ) → IsErrOf result (NameErr.BadAddress n) → IsPlace IsAddress address.now n }
{
    if let Err(place) = read_address(address.as_bytes()) {
        return Err(NameErr::BadAddress(place));
    }
    let url = url_of(alloc, address, path)?;
    Ok(name_of(alloc, url.as_bytes())?)
}

/// A law, with nothing to run: two URLs of files at addresses have two names.
pub fn names_apart()
    ensures { (address path other_address other_path : List ℕ)
        → IsBytes (url_at address path) → IsBytes (url_at other_address other_path)
        → IsAddress address → IsAddress other_address
        → name_of (url_at address path) ≡ name_of (url_at other_address other_path)
        → url_at address path ≡ url_at other_address other_path }
{}
