ghost use Rattle.std.specs.Prelude.{◌≡◌, ◌+◌, ◌≤◌, [], ◌++◌, length, Option, List, ℕ, Some};
ghost use Rattle.std.specs.Prelude.{option_map, IfSome, codes, decimal, if◌then◌else◌};
ghost use Rattle.http_messages.specs.Lines.{status_line, field_line, line_if_some};
ghost use Rattle.taxii_exchange.specs.declared.answer.TheConstants.{MAX_DATE};
ghost use Rattle.taxii_exchange.specs.Answers.{media_type, methods_of, body_bytes, HasDates};
ghost use Rattle.taxii_exchange.specs.inner.HeadText.{PushesDate, IsHeadText};

use crate::Answer;
use http_messages::Status;
use itoa::Buffer;
use std::marker::Model;
use stix_times::{from_micros, write_micros};

/// The capacity: a head has at most 304 bytes, and a small body may follow it.
const CAPACITY: usize = 4096;

/// The maximum length of a field value.
const MAX_VALUE: usize = 40;

/// The head of a response in a fixed buffer, with the body after it if that fits.
#[derive(Drop)]
pub(crate) struct HeadText {
    bytes: [u8; CAPACITY],
    end: usize,
}

impl Model for HeadText {
    ghost use Rattle.std.specs.Prelude.{ℕ, ◌≤◌, List, length, take};

    ghost Value = { List ℕ };

    ghost view = { λ head. take head.end head.bytes };

    ghost invariant = { λ head. head.end ≤ length head.bytes };
}

impl HeadText {
    /// The head of a response; `close` says that the connection ends after it.
    pub(crate) fn of(answer: &Answer, close: bool) -> HeadText
        requires { HasDates answer.now }
        ensures { IsHeadText answer.now close result }
    {
        let mut head = HeadText::new();
        head.push_status(answer.status);
        head.push_if_some(b"Content-Type", media_type(answer));
        head.push_if_some(b"Allow", methods(answer));
        head.push_date(b"X-TAXII-Date-Added-First", answer.first);
        head.push_date(b"X-TAXII-Date-Added-Last", answer.last);
        head.push_length(body_length(answer));
        head.push_close(close);
        head.push(b"\r\n");
        head
    }

    /// The bytes, borrowed.
    pub(crate) fn as_slice(&self) -> &[u8]
        ensures { result.now ≡ self.now }
    {
        &self.bytes[..self.end]
    }

    /// The free capacity in bytes.
    pub(crate) fn room(&self) -> usize
        ensures { length self.now + result ≡ CAPACITY }
    {
        CAPACITY - self.end
    }

    /// The empty head.
    fn new() -> HeadText
        ensures { result ≡ [] }
    {
        HeadText {
            bytes: [0; CAPACITY],
            end: 0,
        }
    }

    /// Appends the status line.
    fn push_status(&mut self, status: Status)
        requires empty { self.old ≡ [] }
        ensures line { self.new ≡ status_line status }
        ensures room { length self.new ≤ 100 }
    {
        self.push(b"HTTP/1.1 ");
        self.push(Buffer::new().format(status.code()).as_bytes());
        self.push(b" ");
        self.push(status.phrase().as_bytes());
        self.push(b"\r\n");
    }

    /// Appends Content-Length.
    fn push_length(&mut self, size: usize)
        requires room { length self.old + 58 ≤ CAPACITY }
        ensures line { self.new ≡ self.old ++ field_line (codes "Content-Length") (decimal size) }
        ensures room { length self.new ≤ length self.old + 58 }
    {
        self.push_line(b"Content-Length", Buffer::new().format(size).as_bytes());
    }

    /// Appends `Connection: close`, if requested.
    fn push_close(&mut self, close: bool)
        requires room { length self.old + 54 ≤ CAPACITY }
        ensures line { self.new
            ≡ self.old ++ (if close then field_line (codes "Connection") (codes "close") else []) }
        ensures room { length self.new ≤ length self.old + 54 }
    {
        if close {
            self.push_line(b"Connection", b"close");
        }
    }

    /// Appends a field with a date, if there is one.
    fn push_date(&mut self, name: &[u8], date: Option<u64>)
        requires date { IfSome date (λ micros. micros ≤ MAX_DATE) }
        requires room { length self.old + length name.now + 44 ≤ CAPACITY }
        ensures line { PushesDate name.now date self.old self.new }
        ensures room { length self.new ≤ length self.old + length name.now + 44 }
    {
        if let Some(micros) = date {
            self.push_micros(name, micros);
        }
    }

    /// Appends a field with a timestamp, from microseconds since 1970.
    fn push_micros(&mut self, name: &[u8], micros: u64)
        requires date { micros ≤ MAX_DATE }
        requires room { length self.old + length name.now + 44 ≤ CAPACITY }
        ensures line { PushesDate name.now (Some micros) self.old self.new }
        ensures room { length self.new ≤ length self.old + length name.now + 44 }
    {
        let instant = from_micros(micros).unwrap();
        let mut text = [0; 32];
        let end = write_micros(instant, &mut text);
        self.push_line(name, &text[..end]);
    }

    /// Appends a field, if it has a value.
    fn push_if_some(&mut self, name: &[u8], value: Option<&[u8]>)
        requires value { IfSome value (λ text. length text.now ≤ MAX_VALUE) }
        requires room { length self.old + length name.now + 44 ≤ CAPACITY }
        ensures line { self.new
            ≡ self.old ++ line_if_some name.now (option_map (λ text. text.now) value.entry) }
        ensures room { length self.new ≤ length self.old + length name.now + 44 }
    {
        if let Some(value) = value {
            self.push_line(name, value);
        }
    }

    /// Appends a field.
    fn push_line(&mut self, name: &[u8], value: &[u8])
        requires value { length value.now ≤ MAX_VALUE }
        requires room { length self.old + length name.now + 44 ≤ CAPACITY }
        ensures line { self.new ≡ self.old ++ field_line name.now value.now }
        ensures room { length self.new ≤ length self.old + length name.now + 44 }
    {
        self.push(name);
        self.push(b": ");
        self.push(value);
        self.push(b"\r\n");
    }

    /// Appends bytes.
    pub(crate) fn push(&mut self, piece: &[u8])
        requires { length self.old + length piece.now ≤ CAPACITY }
        ensures { self.new ≡ self.old ++ piece.now }
    {
        let end = self.end + piece.len();
        self.bytes[self.end..end].copy_from_slice(piece);
        self.end = end;
    }
}

/// The media type of the body, if there is one.
fn media_type(answer: &Answer) -> Option<&'static [u8]>
    ensures value { option_map (λ text. text.now) result
        ≡ option_map (λ body. media_type) answer.now.body }
    ensures short { IfSome result (λ text. length text.now ≤ MAX_VALUE) }
{
    match answer.body {
        Some(_) => Some(b"application/taxii+json;version=2.1"),
        None => None,
    }
}

/// The value of the Allow field, if there is one.
fn methods(answer: &Answer) -> Option<&'static [u8]>
    ensures value { option_map (λ text. text.now) result ≡ option_map methods_of answer.now.allow }
    ensures short { IfSome result (λ text. length text.now ≤ MAX_VALUE) }
{
    match answer.allow {
        Some(allow) => Some(allow.methods().as_bytes()),
        None => None,
    }
}

/// The length of the body in bytes.
fn body_length(answer: &Answer) -> usize
    ensures { result ≡ length (body_bytes answer.now.body) }
{
    match &answer.body {
        Some(body) => body.len(),
        None => 0,
    }
}
