ghost use Rattle.std.specs.Prelude.{◌≡◌, ◌↔◌, IsTrue};
ghost use Rattle.taxii_routes.specs.MediaType.{IsNamedRange};
ghost use Rattle.taxii_routes.specs.MediaType as spec;

/// The text without leading and trailing spaces and tabs.
pub(crate) fn trimmed(text: &str) -> &[u8]
    ensures { result.now ≡ spec.trimmed text.now }
{
    without_back(without_front(text.as_bytes()))
}

/// Whether the trimmed text equals the name, ignoring ASCII case.
pub(crate) fn is_named(text: &str, name: &str) -> bool
    ensures { IsTrue result ↔ IsNamedRange name.now text.now }
{
    trimmed(text).eq_ignore_ascii_case(name.as_bytes())
}

fn without_front(bytes: &[u8]) -> &[u8]
    ensures { result.now ≡ spec.without_front bytes.now }
{
    let mut rest = bytes;
    while let [b' ' | b'\t', after @ ..] = rest {
        rest = after;
    }
    rest
}

fn without_back(bytes: &[u8]) -> &[u8]
    ensures { result.now ≡ spec.without_back bytes.now }
{
    let mut rest = bytes;
    while let [before @ .., b' ' | b'\t'] = rest {
        rest = before;
    }
    rest
}
