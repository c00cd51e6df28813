//! The head of a reply.
ghost use Rattle.std.specs.Prelude.{◌≡◌, All, IfOk, IfSome, Option, length, map, codes};
ghost use Rattle.httparse.specs.Spans.{IsHeaderWithin, header_bytes};
ghost use Rattle.http_wire.specs.BodyPlaces.{InRange};
ghost use Rattle.http_wire.specs.Fields.{field_values};
ghost use Rattle.http_wire.specs.BodyStarts.{HeadData, body_place};
ghost use Rattle.http_wire.specs.Heads.{IsHeadOf, IsLocation, IsParsed};

use crate::Head;
use crate::body_places::BodyPlace;
use crate::fields::{is_name, place_by_fields};
use httparse::Status;
use httparse::spans::{EMPTY_HEADER_SPAN, HeaderSpan, parse_response};
use res_base::{NoMemory, Text};
use std::alloc::Global;

/// A head that was parsed, and where its body begins.
#[derive(Drop)]
pub(crate) struct ParsedHead {
    pub(crate) head: Head,
    pub(crate) start: BodyPlace,
}

/// Where the body begins, which replies of status 200 alone have here.
fn start_of(code: u16, front: &[u8], fields: &[HeaderSpan]) -> BodyPlace
    requires { All (IsHeaderWithin (length front.now)) fields.now }
    ensures value { result ≡ body_place (record { status = code; fields = map (header_bytes front.now) fields.now }) }
    ensures range { InRange result }
{
    if code == 200 {
        place_by_fields(front, fields)
    } else {
        BodyPlace::Whole
    }
}

/// The first Location, where it is UTF-8.
fn location(alloc: Global, front: &[u8], fields: &[HeaderSpan]) -> Result<Option<Text>, NoMemory>
    requires { All (IsHeaderWithin (length front.now)) fields.now }
    ensures { IfOk result (IsLocation (field_values (codes "location") (map (header_bytes front.now) fields.now))) }
{
    for field in fields {
        if is_name("location", field.name.of(front)) {
            return match std::str::from_utf8(field.value.of(front)) {
                Ok(text) => Ok(Some(Text::of(alloc, text)?)),
                Err(_) => Ok(None),
            };
        }
    }
    Ok(None)
}

/// The head that these bytes are, where as a whole they are one with at most 100 fields.
pub(crate) fn parse_head(alloc: Global, front: &[u8]) -> Result<Option<ParsedHead>, NoMemory>
    ensures judged { IfOk result (λ judged. (seen : Option HeadData) × IsHeadOf front.now seen × IsParsed seen judged) }
    ensures range { IfOk result (λ judged. IfSome judged (λ j. InRange j.start)) }
{
    let mut spans = [EMPTY_HEADER_SPAN; 100];
    let found = match parse_response(front, &mut spans) {
        Ok(Status::Complete(found)) => found,
        _ => return Ok(None),
    };
    if found.len != front.len() {
        return Ok(None);
    }
    let fields = &spans[..found.headers];
    let location = location(alloc, front, fields)?;
    let start = start_of(found.code, front, fields);
    Ok(Some(ParsedHead {
        head: Head {
            status: found.code,
            location,
        },
        start,
    }))
}
