//! What is told of a reply.
ghost use Rattle.std.specs.Prelude.{◌≡◌};
ghost use Rattle.http_wire.specs.Outcomes.{is_memory};

use res_base::Text;

/// The status of a reply, and its Location: the first value of that name, where it is UTF-8.
#[derive(Debug, Drop)]
pub struct Head {
    pub status: u16,
    pub location: Option<Text>,
}

/// Whether a reply is whole, so that no further byte counts.
#[derive(Clone, Copy, Debug, PartialEq, Eq)]
pub enum Fed {
    More,
    Done,
}

/// Why a reply is refused.
#[derive(Clone, Copy, Debug, PartialEq, Eq)]
pub enum ReplyErr {
    /// The bytes up to the end of the head are no head with at most 100 fields.
    BadHead,
    /// The first 65,536 bytes hold no end of the head.
    HeadTooLong,
    /// Two values of Content-Length differ or one is no number, or Transfer-Encoding isn't `chunked`.
    BadLength,
    /// The bytes leave the grammar of chunks.
    BadChunk,
    /// The content is coded.
    Encoded,
    /// The connection ended before the head, or before all the content that was announced.
    EndedEarly,
    /// The content has more bytes than the limit.
    BodyTooLong,
    NoMemory,
}

impl ReplyErr {
    /// Whether memory was wanting.
    pub fn is_memory(self) -> bool
        ensures { result ≡ is_memory self }
    {
        matches!(self, ReplyErr::NoMemory)
    }
}
