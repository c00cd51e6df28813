//! What a session is run with.

/// How many claims may be made.
#[derive(Clone, Copy, Drop)]
pub struct CoreLimits {
    /// So many in all.
    pub claims: u32,
    /// Hints are claimed only while fewer claims than these were made.
    pub hint_claims: u32,
}

/// What a session is run with.
#[derive(Clone, Copy, Drop)]
pub struct Settings {
    /// The number of repositories.
    pub repos: u32,
    /// Whether hints are claimed.
    pub eager: bool,
    /// So many failures of a link a key may have. With one more it is broken.
    pub retries: u32,
    pub limits: CoreLimits,
}
