//! What holds of every reply: laws, with nothing to run.
ghost use Rattle.std.specs.Prelude.{◌≡◌, ◌≢◌, [], ◌++◌, ◌≤◌, ℕ, IsSome, length, Err};
ghost use Rattle.http_wire.specs.declared.reply_reader.ReplyReader.{ReplyReader as Reader};
ghost use Rattle.http_wire.specs.declared.replies.ReplyErr.{ReplyErr as Refusal};
ghost use Rattle.http_wire.specs.Fields.{Bytes};
ghost use Rattle.http_wire.specs.Outcomes.{Outcome, IsOutcome, IsFinal, GoesOnTo, closed_by};
ghost use Rattle.http_wire.specs.Readers.{HasRead, IsShown, shown_head};

/// The same bytes say one thing.
pub fn one_outcome()
    ensures { (limit : ℕ) (bytes : Bytes) (one two : Outcome)
        → IsOutcome limit bytes one → IsOutcome limit bytes two → one ≡ two }
{}

/// What a reader has read says what its bytes say.
pub fn read_is_outcome()
    ensures { (reader : Reader) (limit : ℕ) (bytes : Bytes) (outcome : Outcome)
        → HasRead reader limit bytes outcome → IsOutcome limit bytes outcome }
{}

/// Once a reply is whole or refused, no further byte changes what is said, and the end of the
/// connection neither.
pub fn final_stays()
    ensures stays { (limit : ℕ) (bytes rest : Bytes) (outcome : Outcome)
        → IsOutcome limit bytes outcome → IsFinal outcome → IsOutcome limit (bytes ++ rest) outcome }
    ensures closed { (limit : ℕ) (bytes : Bytes) (outcome : Outcome)
        → IsOutcome limit bytes outcome → IsFinal outcome → outcome.closed ≡ closed_by outcome.fed }
{}

/// Once the head was read, the content so far is the beginning of the content, whatever follows.
/// Before that there is none.
pub fn content_grows()
    ensures starts { (limit : ℕ) (bytes : Bytes) (outcome : Outcome)
        → IsOutcome limit bytes outcome → outcome.content ≢ [] → IsSome outcome.seen }
    ensures grows { (limit : ℕ) (bytes rest : Bytes) (outcome : Outcome)
        → IsOutcome limit bytes outcome → IsSome outcome.seen → GoesOnTo limit (bytes ++ rest) outcome }
{}

/// The content so far is within the limit, and as long as the limit where more of it stands there.
pub fn within_limit()
    ensures within { (limit : ℕ) (bytes : Bytes) (outcome : Outcome)
        → IsOutcome limit bytes outcome → length outcome.content ≤ limit }
    ensures full { (limit : ℕ) (bytes : Bytes) (outcome : Outcome)
        → IsOutcome limit bytes outcome → outcome.closed ≡ Err Refusal.BodyTooLong → length outcome.content ≡ limit }
{}

/// The head that a reader hands out is the one that was seen.
pub fn shown_is_seen()
    ensures { (reader : Reader) (limit : ℕ) (bytes : Bytes) (outcome : Outcome)
        → HasRead reader limit bytes outcome → IsShown outcome.seen (shown_head reader) }
{}
