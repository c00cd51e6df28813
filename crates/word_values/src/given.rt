//! The texts that words give for options.
ghost use Rattle.std.specs.Prelude.{◌≡◌, ℕ, List, Option, option_map, unwrap_or};

/// The texts that words give for options.
pub trait Given {
    ghost texts: { Self → List ℕ → Option (List ℕ) };

    /// The text of the option of that name, where one was given.
    fn text(&self, name: &str) -> Option<&str>
        ensures { option_map (λ text. text.now) result ≡ texts self.now name.now };
}

/// The text of an option, or the usual one where none is given.
pub(crate) fn text_or<'a, G: Given>(given: &'a G, name: &str, usual: &'a str) -> &'a str
    ensures { result.now ≡ unwrap_or (G.texts given.entry.now name.now) usual.entry.now }
{
    match given.text(name) {
        Some(text) => text,
        None => usual,
    }
}
