//! What chunks are, as texts, and that replies are read so. The reader of replies goes over a body
//! byte by byte, by places; here stands the grammar beside it, and the law that both agree. Nothing
//! here runs.
#![tactic(auto)]

ghost use Rattle.std.specs.Prelude.{◌≡◌, ◌≤◌, ◌<◌, ◌++◌, ℕ, length};
ghost use Rattle.http_wire.specs.Fields.{Bytes};
ghost use Rattle.http_chunks.specs.Chunks.{IsChunks};
ghost use Rattle.http_chunks.specs.Readings.{IsReadWhole, BeginsChunks, IsBadChunk, LeavesChunks, IsTooLong, PassesLimit};

/// A law, with nothing to run: a body of chunks is read as its content where that fits the limit,
/// whatever follows it, and refused for its length where not. Nothing else is read as whole. Bytes
/// are refused for their chunks where one of them can stand in no body of chunks behind those before
/// it, unless they passed the limit before, and for their length only where every body of chunks
/// that begins as they do is longer than the limit.
pub fn chunks_are_read()
    ensures reads { (limit : ℕ) (text rest content : Bytes)
        → IsChunks text content → length content ≤ limit → IsReadWhole limit (text ++ rest) content }
    ensures long { (limit : ℕ) (text rest content : Bytes)
        → IsChunks text content → limit < length content → IsTooLong limit (text ++ rest) }
    ensures only { (limit : ℕ) (bytes content : Bytes)
        → IsReadWhole limit bytes content → BeginsChunks bytes content }
    ensures fault { (limit : ℕ) (bytes : Bytes) → IsBadChunk limit bytes → LeavesChunks bytes }
    ensures leaves { (limit : ℕ) (bytes : Bytes)
        → LeavesChunks bytes → ¬ IsTooLong limit bytes → IsBadChunk limit bytes }
    ensures passes { (limit : ℕ) (bytes : Bytes) → IsTooLong limit bytes → PassesLimit limit bytes }
{}
