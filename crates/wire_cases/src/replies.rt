//! Requests, and replies whole and cut.
//!
//! - `request H H`: the request for a target, as H, of an authority and a target.
//! - `reply LIMIT H`: a whole reply in one piece, and the end of the connection: `STATUS LOCATION
//!   BODY END`. STATUS is a number and LOCATION H or `none`, both `none` without a head; BODY is H;
//!   END is `done`, `whole` where the end of the connection ends it, or the refusal.
//! - `reply-cut LIMIT N,N,.. H`: the reply in pieces of these sizes, again and again: for each
//!   `SAID:H`, SAID being `more`, `done` or the refusal and H what the piece appended; then `end:ok`
//!   or `end:REFUSAL`.
ghost use Rattle.std.specs.Prelude.{◌≡◌, ◌<◌, ◌≤◌, IfOk, codes, string_bytes, length};
ghost use Rattle.wire_cases.specs.Replies.{refusal_word, fed_word};

use case_words::case_error::CaseError;
use case_words::hex_word::{bytes_of, hex_word, text_of};
use case_words::words::{joined, pieces_of};
use http_wire::{Fed, Head, ReplyErr, ReplyReader, request_bytes};
use std::alloc::{AllocError, Global};

/// A refusal in a table.
fn refusal_word(refusal: ReplyErr) -> &'static str
    ensures { result.now ≡ refusal_word refusal }
{
    match refusal {
        ReplyErr::BadHead => "bad-head",
        ReplyErr::HeadTooLong => "head-too-long",
        ReplyErr::BadLength => "bad-length",
        ReplyErr::BadChunk => "bad-chunk",
        ReplyErr::Encoded => "encoded",
        ReplyErr::EndedEarly => "ended-early",
        ReplyErr::BodyTooLong => "body-too-long",
        ReplyErr::NoMemory => "no-memory",
    }
}

/// An answer of `feed` in a table.
fn fed_word(fed: Result<Fed, ReplyErr>) -> &'static str
    ensures { result.now ≡ fed_word fed }
{
    match fed {
        Ok(Fed::More) => "more",
        Ok(Fed::Done) => "done",
        Err(refusal) => refusal_word(refusal),
    }
}

pub fn request(alloc: Global, fields: &[&str]) -> Result<String, CaseError> {
    let [authority, target] = fields else {
        return Err(CaseError::OutOfForm);
    };
    let authority = text_of(alloc, authority)?;
    let target = text_of(alloc, target)?;
    let request = request_bytes(alloc, authority.as_str(), target.as_str())?;
    Ok(hex_word(alloc, request.as_slice())?)
}

fn limit_of(word: &str) -> Result<u64, CaseError> {
    match word.parse::<u64>() {
        Ok(limit) => Ok(limit),
        Err(_) => Err(CaseError::OutOfForm),
    }
}

/// The status and the Location of a head.
fn head_words(alloc: Global, head: Option<&Head>) -> Result<String, AllocError> {
    let Some(head) = head else {
        return String::from_str(alloc, "none none");
    };
    let status = head.status;
    match head.location.as_ref() {
        None => format!(in alloc; "{status} none"),
        Some(location) => {
            let word = hex_word(alloc, location.as_bytes())?;
            format!(in alloc; "{status} {word}")
        }
    }
}

/// How a reply ended that was fed whole.
fn end_word(fed: Result<Fed, ReplyErr>, reader: &mut ReplyReader) -> &'static str {
    match fed {
        Ok(Fed::Done) => "done",
        Err(refusal) => refusal_word(refusal),
        Ok(Fed::More) => match reader.finish() {
            Ok(()) => "whole",
            Err(refusal) => refusal_word(refusal),
        },
    }
}

pub fn reply(alloc: Global, fields: &[&str]) -> Result<String, CaseError> {
    let [limit, reply] = fields else {
        return Err(CaseError::OutOfForm);
    };
    let limit = limit_of(limit)?;
    let reply = bytes_of(alloc, reply)?;
    let mut reader = ReplyReader::new(alloc, limit);
    let mut content = Vec::new(alloc);
    let fed = reader.feed(alloc, reply.as_slice(), &mut content);
    let end = end_word(fed, &mut reader);
    let head = head_words(alloc, reader.head())?;
    let content = hex_word(alloc, content.as_slice())?;
    Ok(format!(in alloc; "{head} {content} {end}")?)
}

/// The sizes of pieces, each at least 1.
fn sizes_of(alloc: Global, word: &str) -> Result<Vec<usize>, CaseError> {
    let mut sizes = Vec::new(alloc);
    for piece in pieces_of(alloc, word, ',')?.as_slice() {
        match piece.parse::<usize>() {
            Ok(size) => {
                if size == 0 {
                    return Err(CaseError::OutOfForm);
                }
                sizes.push(size)?;
            }
            Err(_) => return Err(CaseError::OutOfForm),
        }
    }
    Ok(sizes)
}

/// What a piece is answered, and what it appends.
fn piece_word(alloc: Global, reader: &mut ReplyReader, piece: &[u8]) -> Result<String, AllocError> {
    let mut content = Vec::new(alloc);
    let said = fed_word(reader.feed(alloc, piece, &mut content));
    let content = hex_word(alloc, content.as_slice())?;
    format!(in alloc; "{said}:{content}")
}

/// What the pieces are answered, in order.
fn piece_words(
    alloc: Global,
    reader: &mut ReplyReader,
    reply: &[u8],
    sizes: &[usize],
) -> Result<Vec<String>, CaseError> {
    let mut words = Vec::new(alloc);
    let mut rest = reply;
    let mut at: usize = 0;
    for _byte in 0..reply.len() {
        if rest.is_empty() {
            break;
        }
        let Some(size) = sizes.get(at) else {
            return Err(CaseError::OutOfForm);
        };
        let count = (*size).min(rest.len());
        words.push(piece_word(alloc, reader, &rest[..count])?)?;
        rest = &rest[count..];
        at = if at + 1 < sizes.len() { at + 1 } else { 0 };
    }
    Ok(words)
}

pub fn reply_cut(alloc: Global, fields: &[&str]) -> Result<String, CaseError> {
    let [limit, sizes, reply] = fields else {
        return Err(CaseError::OutOfForm);
    };
    let limit = limit_of(limit)?;
    let sizes = sizes_of(alloc, sizes)?;
    let reply = bytes_of(alloc, reply)?;
    let mut reader = ReplyReader::new(alloc, limit);
    let mut words = piece_words(alloc, &mut reader, reply.as_slice(), sizes.as_slice())?;
    let end = match reader.finish() {
        Ok(()) => "ok",
        Err(refusal) => refusal_word(refusal),
    };
    words.push(format!(in alloc; "end:{end}")?)?;
    Ok(joined(alloc, words.as_slice(), " ")?)
}
