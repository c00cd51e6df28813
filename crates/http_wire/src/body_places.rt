//! Places in the body of a reply: the content itself, and the framing of chunks around it.
ghost use Rattle.std.specs.Prelude.{◌≡◌, ◌+◌, ◌<◌, ◌≤◌, true, false, IfSome, IfNone};
ghost use Rattle.http_wire.specs.BodyPlaces.{content_left, data_left, data_begun, within_line, after_size, trailer_place, after_extension, after_digit, if_byte, InRange, HoldsRun, after_framing, is_content, after_content, fed_at, closed_at, is_final};

use crate::line_places::LinePlace;
use crate::{Fed, ReplyErr};

/// Where a byte stands in the body of a reply. A body is content up to the end of the connection,
/// or as much content as its head announced, or chunks (RFC 9112 sections 6.3 and 7.1).
#[derive(Clone, Copy, Debug, PartialEq, Eq)]
pub(crate) enum BodyPlace {
    /// In content that the end of the connection ends.
    UntilClose,
    /// In content of an announced length, of which so many bytes are left: at least 1.
    ContentLeft(u64),
    /// In the data of a chunk, of which so many bytes are left: at least 1.
    ChunkData(u64),
    /// In the size of a chunk: how many digits were read, and what they give.
    ChunkSize(u8, u64),
    /// In the white space behind a size: the size, and how many bytes of the line were read.
    ChunkSpace(u64, u32),
    /// In the extension behind a size: the size, and how many bytes of the line were read.
    ChunkExtension(u64, u32),
    /// Before the line feed that ends the line of a chunk of this size.
    ChunkLineFeed(u64),
    /// Behind the data of a chunk, before the carriage return.
    DataReturn,
    /// Before the line feed there.
    DataLineFeed,
    /// In the trailer, behind the line of the last chunk: the place in its lines, and how many of
    /// its bytes were read.
    Trailer(LinePlace, u32),
    /// The reply is whole.
    Whole,
    /// The reply is refused.
    Refused(ReplyErr),
}

/// The greatest number of bytes of a chunk's line, and of a trailer.
const LINE_LIMIT: u32 = 65536;

/// With so many bytes left of an announced content.
fn content_left(left: u64) -> BodyPlace
    ensures { result ≡ content_left left }
{
    if left == 0 {
        BodyPlace::Whole
    } else {
        BodyPlace::ContentLeft(left)
    }
}

/// With so many bytes left of a chunk.
fn data_left(left: u64) -> BodyPlace
    ensures { result ≡ data_left left }
{
    if left == 0 {
        BodyPlace::DataReturn
    } else {
        BodyPlace::ChunkData(left)
    }
}

/// Behind the line of a chunk of this size.
fn data_begun(size: u64) -> BodyPlace
    ensures { result ≡ data_begun size }
{
    if size == 0 {
        BodyPlace::Trailer(LinePlace::LineStart, 0)
    } else {
        BodyPlace::ChunkData(size)
    }
}

/// This place, where the line of a chunk may still end in time.
fn within_line(read: u32, place: BodyPlace) -> BodyPlace
    requires short { read ≤ 65536 }
    requires range { read + 2 ≤ 65536 → InRange place }
    ensures value { result ≡ within_line read place }
    ensures range { InRange result }
{
    if read + 2 <= LINE_LIMIT {
        place
    } else {
        BodyPlace::Refused(ReplyErr::BadChunk)
    }
}

/// Behind a byte that is no digit of the size.
fn after_size(size: u64, read: u32, byte: u8) -> BodyPlace
    requires { read ≤ 65536 }
    ensures value { result ≡ after_size size read byte }
    ensures range { InRange result }
{
    match byte {
        b' ' | b'\t' => within_line(read, BodyPlace::ChunkSpace(size, read)),
        b';' => within_line(read, BodyPlace::ChunkExtension(size, read)),
        b'\r' => BodyPlace::ChunkLineFeed(size),
        _ => BodyPlace::Refused(ReplyErr::BadChunk),
    }
}

/// Behind a byte in the extension.
fn after_extension(size: u64, read: u32, byte: u8) -> BodyPlace
    requires { read ≤ 65536 }
    ensures value { result ≡ after_extension size read byte }
    ensures range { InRange result }
{
    match byte {
        b'\r' => BodyPlace::ChunkLineFeed(size),
        b'\n' => BodyPlace::Refused(ReplyErr::BadChunk),
        _ => within_line(read, BodyPlace::ChunkExtension(size, read)),
    }
}

/// Behind a byte at or behind a digit of the size.
fn after_digit(digits: u8, size: u64, byte: u8) -> BodyPlace
    requires { InRange (BodyPlace.ChunkSize digits size) }
    ensures value { result ≡ after_digit digits size byte }
    ensures range { InRange result }
{
    if digits < 16 {
        if let Some(digit) = httparse::parse_hex_digit(byte) {
            return BodyPlace::ChunkSize(digits + 1, size * 16 + digit);
        }
    }
    if digits == 0 {
        BodyPlace::Refused(ReplyErr::BadChunk)
    } else {
        after_size(size, digits as u32 + 1, byte)
    }
}

/// At a place in the lines of a trailer, once so many of its bytes were read.
fn trailer_place(read: u32, line: Option<LinePlace>) -> BodyPlace
    requires { read ≤ 65536 }
    ensures value { result ≡ trailer_place read line }
    ensures range { InRange result }
{
    match line {
        None => BodyPlace::Whole,
        Some(line) => {
            if read + line.least_left() <= LINE_LIMIT {
                BodyPlace::Trailer(line, read)
            } else {
                BodyPlace::Refused(ReplyErr::BadChunk)
            }
        }
    }
}

/// The next place, where the byte is the one that must stand here.
fn if_byte(byte: u8, wanted: u8, next: BodyPlace) -> BodyPlace
    requires { InRange next }
    ensures value { result ≡ if_byte byte wanted next }
    ensures range { InRange result }
{
    if byte == wanted {
        next
    } else {
        BodyPlace::Refused(ReplyErr::BadChunk)
    }
}

impl BodyPlace {
    /// The place behind a byte of the framing, which is no content.
    pub(crate) fn after_framing(self, byte: u8) -> BodyPlace
        requires { InRange self }
        ensures value { result ≡ after_framing self byte }
        ensures range { InRange result }
    {
        match self {
            BodyPlace::ChunkSize(digits, size) => after_digit(digits, size, byte),
            BodyPlace::ChunkSpace(size, read) => after_size(size, read + 1, byte),
            BodyPlace::ChunkExtension(size, read) => after_extension(size, read + 1, byte),
            BodyPlace::ChunkLineFeed(size) => if_byte(byte, b'\n', data_begun(size)),
            BodyPlace::DataReturn => if_byte(byte, b'\r', BodyPlace::DataLineFeed),
            BodyPlace::DataLineFeed => if_byte(byte, b'\n', BodyPlace::ChunkSize(0, 0)),
            BodyPlace::Trailer(line, read) => trailer_place(read + 1, line.after(byte)),
            BodyPlace::UntilClose
            | BodyPlace::ContentLeft(_)
            | BodyPlace::ChunkData(_)
            | BodyPlace::Whole
            | BodyPlace::Refused(_) => self,
        }
    }

    /// The greatest number of bytes that are all content, where the next byte is one.
    pub(crate) fn content_run(self) -> Option<u64>
        requires { InRange self }
        ensures some { IfSome result (λ n. (0 < n) × (is_content self ≡ true)) }
        ensures runs { IfSome result (λ n. HoldsRun self n) }
        ensures none { IfNone result (is_content self ≡ false) }
    {
        match self {
            BodyPlace::UntilClose => Some(u64::MAX),
            BodyPlace::ContentLeft(left) => Some(left),
            BodyPlace::ChunkData(left) => Some(left),
            _ => None,
        }
    }

    /// The place behind so many bytes of content.
    pub(crate) fn after_content(self, count: u64) -> BodyPlace
        requires range { InRange self }
        requires runs { HoldsRun self count }
        ensures value { result ≡ after_content self count }
        ensures range { InRange result }
    {
        match self {
            BodyPlace::ContentLeft(left) => content_left(left - count),
            BodyPlace::ChunkData(left) => data_left(left - count),
            _ => self,
        }
    }

    /// Whether no further byte counts.
    pub(crate) fn is_final(self) -> bool
        ensures { result ≡ is_final self }
    {
        matches!(self, BodyPlace::Whole | BodyPlace::Refused(_))
    }

    /// What `feed` answers here.
    pub(crate) fn fed(self) -> Result<Fed, ReplyErr>
        ensures { result ≡ fed_at self }
    {
        match self {
            BodyPlace::Whole => Ok(Fed::Done),
            BodyPlace::Refused(fault) => Err(fault),
            _ => Ok(Fed::More),
        }
    }

    /// What the end of the connection is answered with.
    pub(crate) fn closed(self) -> Result<(), ReplyErr>
        ensures { result ≡ closed_at self }
    {
        match self {
            BodyPlace::UntilClose | BodyPlace::Whole => Ok(()),
            BodyPlace::Refused(fault) => Err(fault),
            _ => Err(ReplyErr::EndedEarly),
        }
    }
}
