//! Pages that reply with the files of an application, and the world of the same files.
use crate::application::Asked;
use http_link::{HttpLink, MemWire, Page};
use http_wire::request_bytes;
use link_base::MemLink;
use res_base::{List, Text, World};
use std::alloc::{AllocError, Global};
use std::test::Fail;

/// The sizes of chunks, in turn: of one hexadecimal digit, of two, and with a letter.
const SIZES: [usize; 4] = [1, 171, 16, 13];

const ABSENT: &[u8] = b"HTTP/1.1 404 Not Found\r\nContent-Length: 4\r\n\r\nnone";

/// A reply with these bytes in chunks, of which each has an extension, and with a trailer.
fn chunked(alloc: Global, bytes: &[u8]) -> Result<Vec<u8>, AllocError> {
    let mut reply = Vec::new(alloc);
    reply.extend_from_slice(b"HTTP/1.1 200 OK\r\nTransfer-Encoding: chunked\r\n\r\n")?;
    let mut rest = bytes;
    for turn in 0..bytes.len() {
        if rest.is_empty() {
            break;
        }
        let size = SIZES[turn % 4].min(rest.len());
        let (chunk, behind) = rest.split_at(size);
        let line = format!(in alloc; "{size:X};of=chunks\r\n")?;
        reply.extend_from_slice(line.as_bytes())?;
        reply.extend_from_slice(chunk)?;
        reply.extend_from_slice(b"\r\n")?;
        rest = behind;
    }
    reply.extend_from_slice(b"0\r\nEnd: yes\r\n\r\n")?;
    Ok(reply)
}

/// The page of a path.
fn page_of(alloc: Global, asked: &Asked) -> Result<Page, Fail> {
    let authority = asked.repository.authority;
    let target = format!(in alloc; "{}/{}", asked.repository.base, asked.path)?;
    let reply = match &asked.file {
        None => List::from_slice(alloc, ABSENT)?,
        Some(file) => List::from_vec(chunked(alloc, file.as_slice())?),
    };
    Ok(Page {
        authority: Text::of(alloc, authority)?,
        request: request_bytes(alloc, authority, target.as_str())?,
        reply,
    })
}

/// A link over the pages of these paths, whose replies come in pieces of these sizes.
pub(crate) fn pages_in_pieces(
    alloc: Global,
    application: &[Asked],
    cuts: &[u64],
) -> Result<HttpLink<MemWire>, Fail> {
    let mut pages = List::new(alloc);
    for asked in application {
        pages.push(page_of(alloc, asked)?)?;
    }
    let cuts = List::from_slice(alloc, cuts)?;
    Ok(HttpLink::new(alloc, MemWire::new(alloc, pages, cuts, List::new(alloc))))
}

/// The number of bytes of the reply to a path.
pub(crate) fn reply_length(alloc: Global, asked: &Asked) -> Result<u64, Fail> {
    Ok(page_of(alloc, asked)?.reply.len() as u64)
}

/// A link over the same files.
pub(crate) fn files(alloc: Global, application: &[Asked]) -> Result<MemLink, Fail> {
    let mut world = World::new(alloc);
    for asked in application {
        let Some(file) = &asked.file else { continue };
        let url = format!(in alloc; "{}/{}", asked.repository.address, asked.path)?;
        world.add(alloc, url.as_str(), file.as_slice())?;
    }
    Ok(MemLink::new(alloc, world, List::new(alloc)))
}
