//! The places of files below addresses.
ghost use Rattle.std.specs.Prelude.{◌≡◌, ◌++◌, ◌∷◌, true, IfOk, IfSome, is_some, string_bytes};
ghost use Rattle.std.specs.List.{list_all};
ghost use Rattle.ascii_bytes.specs.Classes.{is_digit};
ghost use Rattle.ascii_bytes.specs.Signs.{slash};
ghost use Rattle.res_base.specs.Paths.{url_at};
ghost use Rattle.res_base.specs.Plain.{is_at_most_two_dots};
ghost use Rattle.link_base.specs.FilePaths.{is_file_path, is_segment, is_segment_byte};
ghost use Rattle.http_visits.specs.Addresses.{is_after_http, is_authority, is_target, is_host, is_host_byte, is_http_address, is_port};
ghost use Rattle.http_visits.specs.Visits.{IsPlaceOf};

use crate::Place;
use ascii_bytes::{cut_at, decimal, is_digit, is_letter_or_digit, is_plain_byte};
use res_base::{NoMemory, Text};
use std::alloc::Global;

fn is_at_most_two_dots(text: &[u8]) -> bool
    ensures { result ≡ is_at_most_two_dots text.now }
{
    text.iter().all(|byte| *byte == b'.') && text.len() <= 2
}

fn is_host_byte(byte: u8) -> bool
    ensures { result ≡ is_host_byte byte }
{
    is_letter_or_digit(byte) || byte == b'.' || byte == b'-'
}

fn has_host_bytes(text: &[u8]) -> bool
    ensures { result ≡ list_all is_host_byte text.now }
{
    text.iter().all(|byte| is_host_byte(*byte))
}

fn is_host(text: &[u8]) -> bool
    ensures { result ≡ is_host text.now }
{
    !is_at_most_two_dots(text) && has_host_bytes(text)
}

fn is_segment_byte(byte: u8) -> bool
    ensures { result ≡ is_segment_byte byte }
{
    is_plain_byte(byte) || byte == b'~'
}

fn has_segment_bytes(text: &[u8]) -> bool
    ensures { result ≡ list_all is_segment_byte text.now }
{
    text.iter().all(|byte| is_segment_byte(*byte))
}

fn is_segment(text: &[u8]) -> bool
    ensures { result ≡ is_segment text.now }
{
    has_segment_bytes(text) && !is_at_most_two_dots(text)
}

/// Whether these are segments with a slash between two.
pub fn is_file_path(text: &[u8]) -> bool
    ensures { result ≡ is_file_path text.now }
{
    text.split(|byte| *byte == b'/')
        .all(|segment| is_segment(segment))
}

fn has_digits(text: &[u8]) -> bool
    ensures { result ≡ list_all is_digit text.now }
{
    text.iter().all(|byte| is_digit(*byte))
}

fn is_port(text: &[u8]) -> bool
    ensures { result ≡ is_port text.now }
{
    if text.len() > 5 || text.starts_with(b"0") || !has_digits(text) {
        return false;
    }
    let number = decimal(text);
    1 <= number && number <= 65535
}

fn is_authority(text: &[u8]) -> bool
    ensures { result ≡ is_authority text.now }
{
    match cut_at(text, b':') {
        None => is_host(text),
        Some((host, port)) => is_host(host) && is_port(port),
    }
}

fn place_at(alloc: Global, authority: &str, target: String) -> Result<Place, NoMemory>
    ensures { IfOk result (λ place. place ≡ record { authority = authority.now; target = string_bytes target }) }
{
    Ok(Place {
        authority: Text::of(alloc, authority)?,
        target: Text::from_string(target),
    })
}

/// The place of a path below what follows `http://` in an address, where that is an authority and
/// maybe a path.
fn place_below(alloc: Global, rest: &str, path: &str) -> Result<Option<Place>, NoMemory>
    ensures none { IfOk result (λ place. is_some place ≡ is_after_http rest.now) }
    ensures spelled { IfOk result (λ place. IfSome place (λ p. p.authority ++ p.target ≡ rest.now ++ (slash ∷ path.now))) }
    ensures authority { IfOk result (λ place. IfSome place (λ p. is_authority p.authority ≡ true)) }
    ensures target { IfOk result (λ place. IfSome place (λ p. is_target p.target ≡ true)) }
{
    match rest.split_once('/') {
        None => {
            if !is_authority(rest.as_bytes()) {
                return Ok(None);
            }
            let target = format!(in alloc; "/{path}")?;
            Ok(Some(place_at(alloc, rest, target)?))
        }
        Some((authority, folder)) => {
            if !is_authority(authority.as_bytes()) || !is_file_path(folder.as_bytes()) {
                return Ok(None);
            }
            let target = format!(in alloc; "/{folder}/{path}")?;
            Ok(Some(place_at(alloc, authority, target)?))
        }
    }
}

/// The place of a path below an address that is reached by HTTP; none of another address.
pub fn place_of(alloc: Global, address: &str, path: &str) -> Result<Option<Place>, NoMemory>
    ensures none { IfOk result (λ place. is_some place ≡ is_http_address address.now) }
    ensures place { IfOk result (λ place. IfSome place (IsPlaceOf (url_at address.now path.now))) }
{
    match address.strip_prefix("http://") {
        None => Ok(None),
        Some(rest) => Ok(place_below(alloc, rest, path)?),
    }
}
