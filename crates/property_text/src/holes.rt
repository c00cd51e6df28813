//! The holes of a text: names between `${` and the next `}`.
ghost use Rattle.std.specs.Prelude.{◌≡◌, ◌<◌, [], ◌∷◌, length, MatchOption};
ghost use Rattle.property_text.specs.Segments.{hole as hole_of, segments, with_bytes};

/// A hole, and what stands before and behind it.
#[derive(Clone, Copy)]
pub struct Hole<'a> {
    pub before: &'a str,
    pub name: &'a str,
    pub behind: &'a str,
}

/// The first hole of a text.
pub fn first_hole(text: &str) -> Option<Hole<'_>>
    ensures { MatchOption result
        (segments text.now ≡ with_bytes text.now [])
        (λ hole. (segments text.now ≡ with_bytes hole.before.now (hole_of hole.name.now ∷ segments hole.behind.now))
        × (length hole.behind.now < length text.now)) }
{
    let (before, opened) = text.split_once("${")?;
    let (name, behind) = opened.split_once('}')?;
    Some(Hole {
        before,
        name,
        behind,
    })
}
