//! Where a request goes, and where a Location leads (RFC 9110 section 10.2.2).
ghost use Rattle.std.specs.Prelude.{◌≡◌, IfOk, option_copied};
ghost use Rattle.std.specs.List.{list_all};
ghost use Rattle.http_visits.specs.Places.{IsNextPlace, is_rooted, has_user, is_sendable, can_be_sent, target_of, is_http, authority_by, leads_by};
ghost use Rattle.http_uri.specs.Uri.{uri_scheme, uri_authority};

use http_uri::{Uri, UriError};
use res_base::{NoMemory, Text};
use std::alloc::Global;

/// The authority that is asked, and the target that it is asked for.
#[derive(Debug, Drop)]
pub struct Place {
    pub authority: Text,
    pub target: Text,
}

/// Whether a text begins with one slash and not two.
fn is_rooted(text: &str) -> bool
    ensures { result ≡ is_rooted text.now }
{
    match text.as_bytes() {
        [] => false,
        [first] => *first == b'/',
        [first, second, ..] => *first == b'/' && *second != b'/',
    }
}

fn has_user(authority: &str) -> bool
    ensures { result ≡ has_user authority.now }
{
    authority.as_bytes().contains(&b'@')
}

fn is_sendable(byte: u8) -> bool
    ensures { result ≡ is_sendable byte }
{
    b'!' <= byte && byte != 127
}

fn all_sendable(text: &str) -> bool
    ensures { result ≡ list_all is_sendable text.now }
{
    text.as_bytes().iter().all(|byte| is_sendable(*byte))
}

/// Whether a request can carry the place: no space and no control character, so no end of a line.
fn can_be_sent(place: &Place) -> bool
    ensures { result ≡ can_be_sent place.now }
{
    all_sendable(place.authority.as_str()) && all_sendable(place.target.as_str())
}

/// The path of a URI, or a slash, and its query.
fn target(alloc: Global, uri: &Uri) -> Result<Text, NoMemory>
    ensures { IfOk result (λ made. made ≡ target_of uri.now) }
{
    let mut made = String::from_str(alloc, uri.path())?;
    if let Some(query) = uri.query() {
        made.push_str("?")?;
        made.push_str(query)?;
    }
    Ok(Text::from_string(made))
}

fn is_http(uri: &Uri) -> bool
    ensures { result ≡ is_http (uri_scheme uri.now) }
{
    match uri.scheme_str() {
        None => false,
        Some(scheme) => scheme == "http",
    }
}

/// The place on an authority that a URI's path and query name.
fn place_at(alloc: Global, authority: &str, uri: &Uri) -> Result<Place, NoMemory>
    ensures { IfOk result (λ made. made ≡ record { authority = authority.now; target = target_of uri.now }) }
{
    Ok(Place {
        authority: Text::of(alloc, authority)?,
        target: target(alloc, uri)?,
    })
}

/// The authority that a URI leads to.
fn authority_of<'u>(own: &'u str, location: &str, uri: &'u Uri) -> Option<&'u str>
    ensures { option_copied result ≡ authority_by own.now location.now (is_http (uri_scheme uri.now)) (uri_authority uri.now) }
{
    match uri.authority() {
        None => { if is_rooted(location) { Some(own) } else { None } }
        Some(authority) => {
            if is_http(uri) && !has_user(authority.as_str()) {
                Some(authority.as_str())
            } else {
                None
            }
        }
    }
}

/// The place that a URI leads to, where it leads to one that a request can carry.
fn leads(alloc: Global, place: &Place, location: &str, uri: &Uri) -> Result<Option<Place>, NoMemory>
    ensures { IfOk result (λ next. next ≡ leads_by place.now location.now uri.now) }
{
    match authority_of(place.authority.as_str(), location, uri) {
        None => Ok(None),
        Some(authority) => {
            let next = place_at(alloc, authority, uri)?;
            if can_be_sent(&next) {
                Ok(Some(next))
            } else {
                Ok(None)
            }
        }
    }
}

/// The place that a Location leads to: an absolute `http` target without a user name, or a path on
/// the same authority.
pub fn next_place(alloc: Global, place: &Place, location: &str) -> Result<Option<Place>, NoMemory>
    ensures { IfOk result (IsNextPlace place.now location.now) }
{
    match Uri::from_bytes(alloc, location.as_bytes()) {
        Ok(uri) => {
            let next = leads(alloc, place, location, &uri)?;
            Ok(next)
        }
        Err(UriError::Invalid(_)) => Ok(None),
        Err(_) => Err(NoMemory),
    }
}
