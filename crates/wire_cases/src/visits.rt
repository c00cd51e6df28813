//! Files over HTTP, by the pages of a wire in memory.
//!
//! - `visit H H LIMIT PAGE..`: what is got of an address and a path over these pages: `bytes H`,
//!   `absent`, `too-large` or `failed`. PAGE is `AUTHORITY=TARGET=REPLY`, each H: the reply to the
//!   request for a target. The first page that fits counts, and without one the reply is empty. It
//!   is asked for whole, and in pieces over replies that are cut; where these answers differ it is
//!   `apart`.
ghost use Rattle.std.specs.Prelude.{◌≡◌, ◌<◌, ◌≤◌, IfOk, codes, string_bytes, length};

use case_words::case_error::CaseError;
use case_words::hex_word::{bytes_of, hex_word, text_of};
use http_link::{HttpLink, MemWire, Page};
use http_visits::is_file_path;
use http_wire::request_bytes;
use link_base::{Got, Link, LinkErr, get_in_pieces};
use res_base::{List, Text};
use std::alloc::Global;

/// The sizes of the pieces in which a reply comes that is cut.
const CUTS: [u64; 3] = [1, 5, 40];

fn page_of(alloc: Global, word: &str) -> Result<Page, CaseError> {
    let Some((authority, rest)) = word.split_once('=') else {
        return Err(CaseError::OutOfForm);
    };
    let Some((target, reply)) = rest.split_once('=') else {
        return Err(CaseError::OutOfForm);
    };
    let authority = text_of(alloc, authority)?;
    let target = text_of(alloc, target)?;
    let request = request_bytes(alloc, authority.as_str(), target.as_str())?;
    let reply = List::from_vec(bytes_of(alloc, reply)?);
    Ok(Page {
        authority,
        request,
        reply,
    })
}

fn pages_of(alloc: Global, words: &[&str]) -> Result<List<Page>, CaseError> {
    let mut pages = List::new(alloc);
    for word in words {
        let page = page_of(alloc, word)?;
        pages.push(page)?;
    }
    Ok(pages)
}

fn got_word(alloc: Global, got: Result<Got, LinkErr>) -> Result<String, CaseError> {
    match got {
        Ok(Got::Bytes(bytes)) => {
            let word = hex_word(alloc, bytes.as_slice())?;
            Ok(format!(in alloc; "bytes {word}")?)
        }
        Ok(Got::Absent) => Ok(String::from_str(alloc, "absent")?),
        Ok(Got::TooLarge) => Ok(String::from_str(alloc, "too-large")?),
        Err(LinkErr::Failed) => Ok(String::from_str(alloc, "failed")?),
        Err(LinkErr::NoMemory) => Err(CaseError::NoMemory),
    }
}

fn link_over(alloc: Global, words: &[&str], cuts: &[u64]) -> Result<HttpLink<MemWire>, CaseError> {
    let pages = pages_of(alloc, words)?;
    let cuts = List::from_slice(alloc, cuts)?;
    let failing = List::new(alloc);
    Ok(HttpLink::new(alloc, MemWire::new(alloc, pages, cuts, failing)))
}

pub fn visit(alloc: Global, fields: &[&str]) -> Result<String, CaseError> {
    let [address, path, limit, pages @ ..] = fields else {
        return Err(CaseError::OutOfForm);
    };
    let address = text_of(alloc, address)?;
    let path = text_of(alloc, path)?;
    let Ok(limit) = limit.parse::<u64>() else {
        return Err(CaseError::OutOfForm);
    };
    if !is_file_path(path.as_bytes()) {
        return Err(CaseError::OutOfForm);
    }
    let mut link = link_over(alloc, pages, &[])?;
    let got = link.get(alloc, address.as_str(), path.as_str(), limit);
    let whole = got_word(alloc, got)?;
    let mut link = link_over(alloc, pages, &CUTS)?;
    let got = get_in_pieces(alloc, &mut link, address.as_str(), path.as_str(), limit);
    let pieces = got_word(alloc, got)?;
    if whole.as_str() != pieces.as_str() {
        return Ok(String::from_str(alloc, "apart")?);
    }
    Ok(whole)
}
