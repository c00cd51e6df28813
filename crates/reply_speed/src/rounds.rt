//! Replies, and copies of their pieces.
use http_wire::{ReplyErr, ReplyReader};
use std::alloc::{AllocError, Global};

/// A piece of 64 KiB.
const PIECE_BYTES: usize = 65536;

/// The number of pieces of a reply of 64 MiB.
const PIECES: u32 = 1024;

const HEAD: &[u8] = b"HTTP/1.1 200 OK\r\nContent-Length: 67108864\r\n\r\n";

/// The content of a reply of these pieces.
fn feed(alloc: Global, piece: &[u8], content: &mut Vec<u8>) -> Result<(), ReplyErr> {
    let mut reader = ReplyReader::new(alloc, u64::MAX);
    reader.feed(alloc, HEAD, content)?;
    for _piece in 0..PIECES {
        reader.feed(alloc, piece, content)?;
    }
    reader.finish()
}

/// The pieces, copied one behind the other.
fn copy(piece: &[u8], content: &mut Vec<u8>) -> Result<(), AllocError> {
    for _piece in 0..PIECES {
        content.extend_from_slice(piece)?;
    }
    Ok(())
}

/// How many bytes came of so many replies; none where the words are none of these or a reply was
/// refused.
fn count(alloc: Global, words: &str) -> Result<Option<u64>, AllocError> {
    let Some((command, number)) = words.trim().split_once(' ') else {
        return Ok(None);
    };
    let Ok(replies) = number.parse::<u32>() else {
        return Ok(None);
    };
    let mut piece = Vec::new(alloc);
    piece.resize(PIECE_BYTES, b'a')?;
    let mut content = Vec::new(alloc);
    let mut total: u64 = 0;
    for _reply in 0..replies {
        content.clear();
        if command == "copy" {
            copy(piece.as_slice(), &mut content)?;
        } else if feed(alloc, piece.as_slice(), &mut content).is_err() {
            return Ok(None);
        }
        total = total.saturating_add(content.len() as u64);
    }
    Ok(Some(total))
}

/// The line that is printed.
pub(crate) fn line(alloc: Global, words: &str) -> Result<String, AllocError> {
    match count(alloc, words)? {
        Some(bytes) => format!(in alloc; "{bytes}"),
        None => String::from_str(alloc, "refused"),
    }
}
