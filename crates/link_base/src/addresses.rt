//! Addresses of repositories.
ghost use Rattle.std.specs.Prelude.{◌≡◌, ◌≢◌, ◌++◌, ◌<◌, ℕ, List, IfSome, IfNone, codes, length};
ghost use Rattle.link_base.specs.Addresses.{text_of, rest_of};

/// Where a repository is: on a server, with what follows `http://`, or in a folder, with its name.
#[derive(Clone, Copy)]
pub enum Address<'a> {
    Http(&'a str),
    Folder(&'a str),
}

/// The address that a text is by how it begins: `http://` and more, or `file:` and more.
pub fn read_address(text: &str) -> Option<Address<'_>>
    ensures whole { IfSome result (λ address. text.now ≡ text_of address) }
    ensures some { IfSome result (λ address. 0 < length (rest_of address)) }
    ensures no_http { IfNone result ((rest : List ℕ) → 0 < length rest → text.now ≢ codes "http://" ++ rest) }
    ensures no_folder { IfNone result ((rest : List ℕ) → 0 < length rest → text.now ≢ codes "file:" ++ rest) }
{
    if let Some(rest) = text.strip_prefix("http://") {
        return if rest.is_empty() {
            None
        } else {
            Some(Address::Http(rest))
        };
    }
    match text.strip_prefix("file:") {
        None => None,
        Some(folder) => {
            if folder.is_empty() {
                None
            } else {
                Some(Address::Folder(folder))
            }
        }
    }
}
