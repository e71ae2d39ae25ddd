//! A resumable linear search for the empty line that ends a head. The search resumes two bytes
//! before the end of what it saw, so k bytes that arrive in n pieces take O(k + n).

ghost use Rattle.std.specs.Prelude.{◌≡◌, ◌-◌, ◌≤◌, ◌<◌, None, length, max, slice_index, IfSome};
ghost use Rattle.std.specs.Prelude.{MatchOption};
ghost use Rattle.http_messages.specs.RequestHeads.{is_last_line_end, after_empty_line, HasNoEnd};
ghost use Rattle.http_messages.specs.RequestHeads.{IsFirstEnd, IsHeadAt};
ghost use Rattle.http_messages.specs.inner.Searching.{IsSearched, SkipsTo, HasNoHead};

/// The state of the search for the end of a head in a growing buffer.
#[derive(Clone, Copy)]
pub(crate) struct HeadSearch {
    /// The offset where the head begins: all bytes before it are CR or LF.
    pub(crate) start: usize,
    /// The offset where the search resumes: no head ends before it.
    pub(crate) next: usize,
}

impl HeadSearch {
    /// A search that has seen nothing.
    pub(crate) fn new() -> HeadSearch
        ensures { (result.start ≡ 0) × (result.next ≡ 0) }
    {
        HeadSearch { start: 0, next: 0 }
    }

    /// The offset after the head that the bytes begin with, if it is complete. The head begins at
    /// `start`.
    pub(crate) fn find(&mut self, bytes: &[u8]) -> Option<usize>
        requires { IsSearched bytes.now self.old }
        ensures found { IfSome result (IsHeadAt bytes.now self.new.start) }
        ensures none { result ≡ None → HasNoHead bytes.now }
        ensures searched { IsSearched bytes.now self.new }
    {
        let start = skip_line_ends(bytes, self.start);
        let from = self.next.max(start);
        let end = last_line_end(bytes, from);
        let next = passed(bytes, from, end);
        *self = HeadSearch { start, next };
        match end {
            Some(offset) => Some(end_of_head(bytes, offset)),
            None => None,
        }
    }
}

/// The offset to resume from: that of the line end found, or the last one that later bytes cannot
/// affect.
fn passed(bytes: &[u8], from: usize, end: Option<usize>) -> usize
    ensures { MatchOption end (result ≡ max from (length bytes.now - 2))
        (λ offset. result ≡ offset) }
{
    match end {
        Some(offset) => offset,
        None => from.max(bytes.len().saturating_sub(2)),
    }
}

/// The first offset from `from` on with neither CR nor LF, or the length of the bytes.
fn skip_line_ends(bytes: &[u8], from: usize) -> usize
    requires { from ≤ length bytes.now }
    ensures { SkipsTo bytes.now from result }
{
    for offset in from..bytes.len() {
        if bytes[offset] != b'\r' && bytes[offset] != b'\n' {
            return offset;
        }
    }
    bytes.len()
}

/// The first LF from `from` on that an empty line follows.
pub fn last_line_end(bytes: &[u8], from: usize) -> Option<usize>
    ensures some { IfSome result (IsFirstEnd bytes.now from) }
    ensures none { result ≡ None → HasNoEnd bytes.now from (length bytes.now) }
{
    for offset in from..bytes.len() {
        if is_last_line_end(bytes, offset) {
            return Some(offset);
        }
    }
    None
}

/// Whether an LF followed by an empty line is at this offset.
fn is_last_line_end(bytes: &[u8], offset: usize) -> bool
    requires { offset < length bytes.now }
    ensures { result ≡ is_last_line_end bytes.now offset }
{
    let second = byte_at(bytes, offset + 1);
    byte_at(bytes, offset) == b'\n'
        && (second == b'\n' || (second == b'\r' && byte_at(bytes, offset + 2) == b'\n'))
}

/// The offset after the empty line that follows the LF.
fn end_of_head(bytes: &[u8], offset: usize) -> usize
    requires { offset < length bytes.now }
    ensures { result ≡ after_empty_line bytes.now offset }
{
    if byte_at(bytes, offset + 1) == b'\n' {
        offset + 2
    } else {
        offset + 3
    }
}

/// The byte at an offset, or 0 past the end.
fn byte_at(bytes: &[u8], offset: usize) -> u8
    ensures { result ≡ slice_index bytes.now offset }
{
    match bytes.get(offset) {
        Some(byte) => *byte,
        None => 0,
    }
}
