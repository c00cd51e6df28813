//! What a claim answers.
use res_base::FileKey;

/// What a claim answers.
#[derive(Drop)]
pub enum Claim {
    /// Nothing is left to do.
    Over,
    /// All that is needed is broken, and nothing is in flight. The key is the least need.
    Stuck(FileKey),
    /// A need is free, and all claims were made.
    TooMany,
    /// The key is the seat's now, until that seat ends the claim.
    Claimed(FileKey),
    /// Nothing is free now; some claim is in flight.
    NoneNow,
}
