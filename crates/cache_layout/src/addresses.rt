//! Addresses of repositories, and where texts leave their form.
ghost use Rattle.std.specs.Prelude.{◌≡◌, IfErr, OnOk, IsTrue, true};
ghost use Rattle.std.specs.List.{list_all};
ghost use Rattle.fault_place.specs.Place.{IsPlace};
ghost use Rattle.res_base.specs.Plain.{is_at_most_two_dots};
ghost use Rattle.link_base.specs.FilePaths.{is_segment_byte};
ghost use Rattle.cache_layout.specs.Addresses.{IsAddress, IsAfterFile, IsAfterHttp, IsAuthority, IsFilePath, IsNamed, IsPort, is_address, is_host_byte};

use crate::numbers::read_number;
use crate::pieces::{behind, common, part};
use ascii_bytes::{ByteClass, class_end, is_letter_or_digit, is_plain_byte};

fn is_host_byte(byte: u8) -> bool
    ensures { result ≡ is_host_byte byte }
{
    is_letter_or_digit(byte) || byte == b'.' || byte == b'-'
}

fn is_segment_byte(byte: u8) -> bool
    ensures { result ≡ is_segment_byte byte }
{
    is_plain_byte(byte) || byte == b'~'
}

fn is_at_most_two_dots(text: &[u8]) -> bool
    ensures { result ≡ is_at_most_two_dots text.now }
{
    text.iter().all(|byte| *byte == b'.') && text.len() <= 2
}

/// The bytes of hosts.
struct HostByte;

/// The bytes of segments.
struct SegmentByte;

impl ByteClass for HostByte {
    ghost has = { is_host_byte };

    fn has(byte: u8) -> bool {
        is_host_byte(byte)
    }
}

impl ByteClass for SegmentByte {
    ghost has = { is_segment_byte };

    fn has(byte: u8) -> bool {
        is_segment_byte(byte)
    }
}

/// Whether the text is one or more bytes of a class, and neither one dot nor two; else the place
/// where it leaves that form.
fn read_named<C: ByteClass>(text: &[u8]) -> Result<(), usize>
    requires { C.has 97 ≡ true }
    ensures read { OnOk result (IsNamed C.has text.now) }
    ensures refused { IfErr result (IsPlace (IsNamed C.has) text.now) }
{
    let end = class_end::<C>(text, 0);
    if end < text.len() {
        return Err(end);
    }
    if is_at_most_two_dots(text) {
        return Err(text.len());
    }
    Ok(())
}

fn read_port(text: &[u8]) -> Result<(), usize>
    ensures read { OnOk result (IsPort text.now) }
    ensures refused { IfErr result (IsPlace IsPort text.now) }
{
    match read_number(text, 1, 65535) {
        Ok(_) => Ok(()),
        Err(place) => Err(place),
    }
}

/// `HOST` or `HOST:PORT`.
fn read_authority(text: &[u8]) -> Result<(), usize>
    ensures read { OnOk result (IsAuthority text.now) }
    ensures refused { IfErr result (IsPlace IsAuthority text.now) }
{
    let cut = part(text, b':');
    if let Err(place) = read_named::<HostByte>(cut.first) {
        return Err(place);
    }
    match behind(cut.rest, b":") {
        None => Ok(()),
        Some(port) => match read_port(port) {
            Ok(()) => Ok(()),
            Err(place) => Err(cut.first.len() + 1 + place),
        },
    }
}

/// Segments with a slash between two.
fn read_file_path(text: &[u8]) -> Result<(), usize>
    ensures read { OnOk result (IsFilePath text.now) }
    ensures refused { IfErr result (IsPlace IsFilePath text.now) }
{
    let mut at = 0;
    'parts: loop {
        let cut = part(&text[at..], b'/');
        if let Err(place) = read_named::<SegmentByte>(cut.first) {
            return Err(at + place);
        }
        if cut.rest.is_empty() {
            return Ok(());
        }
        at += cut.first.len() + 1;
    }
}

/// What follows `http://`.
fn read_after_http(text: &[u8]) -> Result<(), usize>
    ensures read { OnOk result (IsAfterHttp text.now) }
    ensures refused { IfErr result (IsPlace IsAfterHttp text.now) }
{
    let cut = part(text, b'/');
    if let Err(place) = read_authority(cut.first) {
        return Err(place);
    }
    match behind(cut.rest, b"/") {
        None => Ok(()),
        Some(path) => match read_file_path(path) {
            Ok(()) => Ok(()),
            Err(place) => Err(cut.first.len() + 1 + place),
        },
    }
}

/// What follows `file:`.
fn read_after_file(text: &[u8]) -> Result<(), usize>
    ensures read { OnOk result (IsAfterFile text.now) }
    ensures refused { IfErr result (IsPlace IsAfterFile text.now) }
{
    match behind(text, b"/") {
        None => read_file_path(text),
        Some(path) => match read_file_path(path) {
            Ok(()) => Ok(()),
            Err(place) => Err(1 + place),
        },
    }
}

/// Whether the text is the address of a repository: `http://HOST`, with `:PORT` and a path if wanted,
/// or `file:` and the path of a folder.
pub fn is_address(text: &str) -> bool
    ensures { result ≡ is_address text.now }
{
    read_address(text.as_bytes()).is_ok()
}

/// Whether the text is an address; else the place where it leaves that form.
pub(crate) fn read_address(text: &[u8]) -> Result<(), usize>
    ensures read { OnOk result (IsAddress text.now) }
    ensures refused { IfErr result (IsPlace IsAddress text.now) }
{
    if let Some(rest) = behind(text, b"http://") {
        return match read_after_http(rest) {
            Ok(()) => Ok(()),
            Err(place) => Err(7 + place),
        };
    }
    if let Some(rest) = behind(text, b"file:") {
        return match read_after_file(rest) {
            Ok(()) => Ok(()),
            Err(place) => Err(5 + place),
        };
    }
    let http = common(b"http://", text);
    let file = common(b"file:", text);
    Err(http.max(file))
}
