//! The base URL of a server.

ghost use Rattle.std.specs.Prelude.{◌≡◌, ◌↔◌, ◌⊎◌, ◌++◌, ℕ, List, codes, true};
ghost use Rattle.command_line.specs.CommandLines.{IsBase};

/// The maximum length of the URL in bytes.
pub const MAX_BASE: usize = 256;

/// Whether the text is a valid base URL.
pub(crate) fn is_base(url: &str) -> bool
    ensures { (result ≡ true) ↔ IsBase url.now }
{
    has_scheme(url) && url.len() <= MAX_BASE && !ends_in_slash(url)
}

/// Whether the text begins with `http://` or `https://`.
fn has_scheme(text: &str) -> bool
    ensures { (result ≡ true) ↔ ((rest : List ℕ)
        × ((text.now ≡ codes "http://" ++ rest) ⊎ (text.now ≡ codes "https://" ++ rest))) }
{
    begins_with(text, "http://") || begins_with(text, "https://")
}

/// Whether the text begins with the prefix.
fn begins_with(text: &str, front: &str) -> bool
    ensures { (result ≡ true) ↔ ((rest : List ℕ) × (text.now ≡ front.now ++ rest)) }
{
    text.starts_with(front)
}

/// Whether the text ends in `/`.
fn ends_in_slash(text: &str) -> bool
    ensures { (result ≡ true) ↔ ((front : List ℕ) × (text.now ≡ front ++ codes "/")) }
{
    text.ends_with('/')
}
