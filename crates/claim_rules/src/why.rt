//! Why claims break.

/// Why a claim broke.
#[derive(Clone, Copy, Debug, PartialEq, Eq, Drop)]
pub enum Why {
    /// The link failed.
    Link,
    /// No link is asked, and the cache has no answer.
    NotCached,
}
