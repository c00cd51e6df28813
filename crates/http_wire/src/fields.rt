//! What the fields of a head say of the body behind it.
ghost use Rattle.std.specs.Prelude.{◌≡◌, All, length, map, codes};
ghost use Rattle.httparse.specs.Spans.{IsHeaderWithin, header_bytes};
ghost use Rattle.http_wire.specs.BodyPlaces.{InRange};
ghost use Rattle.http_wire.specs.Fields.{is_name, field_values};
ghost use Rattle.http_wire.specs.ContentLengths.{add_digit, decimal, add_length, length_if, lengths_from, place_by_length};
ghost use Rattle.http_wire.specs.Codings.{is_encoded, add_coding, coding_if, codings_from, place_by_coding};
ghost use Rattle.http_wire.specs.BodyStarts.{place_by_fields};

use crate::ReplyErr;
use crate::body_places::BodyPlace;
use httparse::spans::HeaderSpan;

/// What the values of Content-Length say (RFC 9110 section 8.6): nothing, since there is none;
/// that all are this number; or neither.
#[derive(Clone, Copy, Debug, PartialEq, Eq)]
pub(crate) enum LengthSaid {
    NoLength,
    Exactly(u64),
    Invalid,
}

/// What the values of Transfer-Encoding say (RFC 9112 section 6.1): nothing, since there is none;
/// that the body is chunked; or anything else.
#[derive(Clone, Copy, Debug, PartialEq, Eq)]
pub(crate) enum TransferCoding {
    NoCoding,
    Chunked,
    Unsupported,
}

/// Whether a text is this name, without regard to the case of ASCII letters.
pub(crate) fn is_name(name: &str, text: &[u8]) -> bool
    ensures { result ≡ is_name name.now text.now }
{
    text.eq_ignore_ascii_case(name.as_bytes())
}

/// Whether a Content-Encoding stands that isn't `identity` (RFC 9110 section 8.4).
fn is_encoded(front: &[u8], fields: &[HeaderSpan]) -> bool
    requires { All (IsHeaderWithin (length front.now)) fields.now }
    ensures { result ≡ is_encoded (field_values (codes "content-encoding") (map (header_bytes front.now) fields.now)) }
{
    for field in fields {
        if is_name("content-encoding", field.name.of(front))
            && !is_name("identity", field.value.of(front))
        {
            return true;
        }
    }
    false
}

/// The number with one more decimal digit, where that fits 64 bits.
fn add_digit(n: u64, byte: u8) -> Option<u64>
    ensures { result ≡ add_digit n byte }
{
    if !byte.is_ascii_digit() {
        return None;
    }
    n.checked_mul(10)?.checked_add((byte - b'0') as u64)
}

/// The decimal number that a text is, where it fits 64 bits.
fn decimal(text: &[u8]) -> Option<u64>
    ensures { result ≡ decimal text.now }
{
    if text.is_empty() {
        return None;
    }
    let mut n = 0;
    for byte in text {
        n = match add_digit(n, *byte) {
            None => return None,
            Some(next) => next,
        };
    }
    Some(n)
}

impl LengthSaid {
    fn and(self, value: &[u8]) -> LengthSaid
        ensures { result ≡ add_length self value.now }
    {
        match self {
            LengthSaid::NoLength => match decimal(value) {
                None => LengthSaid::Invalid,
                Some(n) => LengthSaid::Exactly(n),
            },
            LengthSaid::Exactly(n) => match decimal(value) {
                None => LengthSaid::Invalid,
                Some(m) => {
                    if m == n {
                        LengthSaid::Exactly(n)
                    } else {
                        LengthSaid::Invalid
                    }
                }
            },
            LengthSaid::Invalid => LengthSaid::Invalid,
        }
    }

    fn place(self) -> BodyPlace
        ensures value { result ≡ place_by_length self }
        ensures range { InRange result }
    {
        match self {
            LengthSaid::NoLength => BodyPlace::UntilClose,
            LengthSaid::Exactly(0) => BodyPlace::Whole,
            LengthSaid::Exactly(n) => BodyPlace::ContentLeft(n),
            LengthSaid::Invalid => BodyPlace::Refused(ReplyErr::BadLength),
        }
    }
}

/// What Content-Length says, this field counted.
fn length_with(said: LengthSaid, front: &[u8], field: &HeaderSpan) -> LengthSaid
    requires { IsHeaderWithin (length front.now) field.now }
    ensures { result ≡ length_if (is_name (codes "content-length") (header_bytes front.now field.now).0) said
        (header_bytes front.now field.now).1 }
{
    if is_name("content-length", field.name.of(front)) {
        said.and(field.value.of(front))
    } else {
        said
    }
}

/// What all values of Content-Length say.
#[tactic(auto, using(crate::proofs::FieldFacts::length_first))]
fn length_said(front: &[u8], fields: &[HeaderSpan]) -> LengthSaid
    requires { All (IsHeaderWithin (length front.now)) fields.now }
    ensures { result ≡ lengths_from LengthSaid.NoLength (field_values (codes "content-length") (map
        (header_bytes front.now) fields.now)) }
{
    let mut said = LengthSaid::NoLength;
    for field in fields {
        said = length_with(said, front, field);
    }
    said
}

impl TransferCoding {
    fn and(self, value: &[u8]) -> TransferCoding
        ensures { result ≡ add_coding self value.now }
    {
        match self {
            TransferCoding::NoCoding => {
                if is_name("chunked", value) {
                    TransferCoding::Chunked
                } else {
                    TransferCoding::Unsupported
                }
            }
            TransferCoding::Chunked | TransferCoding::Unsupported => TransferCoding::Unsupported,
        }
    }

    fn place(self, other: BodyPlace) -> BodyPlace
        requires { InRange other }
        ensures value { result ≡ place_by_coding self other }
        ensures range { InRange result }
    {
        match self {
            TransferCoding::NoCoding => other,
            TransferCoding::Chunked => BodyPlace::ChunkSize(0, 0),
            TransferCoding::Unsupported => BodyPlace::Refused(ReplyErr::BadLength),
        }
    }
}

/// What Transfer-Encoding says, this field counted.
fn coding_with(coding: TransferCoding, front: &[u8], field: &HeaderSpan) -> TransferCoding
    requires { IsHeaderWithin (length front.now) field.now }
    ensures { result ≡ coding_if (is_name (codes "transfer-encoding") (header_bytes front.now field.now).0) coding
        (header_bytes front.now field.now).1 }
{
    if is_name("transfer-encoding", field.name.of(front)) {
        coding.and(field.value.of(front))
    } else {
        coding
    }
}

/// What all values of Transfer-Encoding say.
#[tactic(auto, using(crate::proofs::FieldFacts::coding_first))]
fn coding_said(front: &[u8], fields: &[HeaderSpan]) -> TransferCoding
    requires { All (IsHeaderWithin (length front.now)) fields.now }
    ensures { result ≡ codings_from TransferCoding.NoCoding (field_values (codes "transfer-encoding") (map
        (header_bytes front.now) fields.now)) }
{
    let mut coding = TransferCoding::NoCoding;
    for field in fields {
        coding = coding_with(coding, front, field);
    }
    coding
}

/// Where a body with these fields begins (RFC 9112 section 6.3): a coding that isn't known first,
/// then Transfer-Encoding, then Content-Length, else up to the end of the connection.
pub(crate) fn place_by_fields(front: &[u8], fields: &[HeaderSpan]) -> BodyPlace
    requires { All (IsHeaderWithin (length front.now)) fields.now }
    ensures value { result ≡ place_by_fields (map (header_bytes front.now) fields.now) }
    ensures range { InRange result }
{
    if is_encoded(front, fields) {
        return BodyPlace::Refused(ReplyErr::Encoded);
    }
    coding_said(front, fields).place(length_said(front, fields).place())
}
