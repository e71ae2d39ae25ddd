ghost use Rattle.std.specs.Prelude.{◌≡◌, ◌+◌, ◌*◌, ◌<◌, ◌≤◌, [], ◌++◌, length};
ghost use Rattle.stix_times.specs.Timestamp.{two_digits};
ghost use Rattle.match_generator.specs.GeneratedLog.{time_text, line_text};

use std::marker::Model;

/// The line up to its first time.
const LINE_START: &[u8] =
    br#"{"type":"bundle","id":"bundle--00000000-0000-4000-8000-000000000001","objects":[{"type":"observed-data","spec_version":"2.1","id":"observed-data--00000000-0000-4000-8000-000000000001","created":"2021-06-10T00:00:00.000Z","modified":"2021-06-10T00:00:00.000Z","first_observed":""#;

const BETWEEN_TIMES: &[u8] = br#"","last_observed":""#;

/// The text between the second time and the digit.
const BEFORE_DIGIT: &[u8] =
    br#"","number_observed":1,"object_refs":["user-account--00000000-0000-4000-8000-000000000001"]},{"type":"user-account","id":"user-account--00000000-0000-4000-8000-000000000001","account_login":"u"#;

const LINE_END: &[u8] = b"\"}]}\n";

/// The length of a line in bytes.
const LINE_LENGTH: usize = 533;

/// A buffer for one line.
#[derive(Drop)]
pub(crate) struct Line {
    bytes: [u8; LINE_LENGTH],
    end: usize,
}

impl Model for Line {
    ghost use Rattle.std.specs.Prelude.{ℕ, ◌≤◌, List, length, take};

    ghost Value = { List ℕ };

    ghost view = { λ line. take line.end line.bytes };

    ghost invariant = { λ line. line.end ≤ length line.bytes };
}

impl Line {
    /// The empty line.
    pub(crate) fn new() -> Line
        ensures { result ≡ [] }
    {
        Line {
            bytes: [0; LINE_LENGTH],
            end: 0,
        }
    }

    /// Its bytes.
    pub(crate) fn as_slice(&self) -> &[u8]
        ensures { result.now ≡ self.now }
    {
        &self.bytes[..self.end]
    }

    /// How many bytes it has.
    pub(crate) fn len(&self) -> usize
        ensures { result ≡ length self.now }
    {
        self.end
    }

    /// Writes the line of an observation this many seconds after the start of the log, over the
    /// previous one.
    #[tactic(auto, using(crate::proofs::LinesTextLemmas::lengths))]
    pub(crate) fn write(&mut self, seconds: u32, digit: u8)
        requires early { seconds < 31 * 86_400 }
        requires digit { digit < 10 }
        ensures { self.new ≡ line_text seconds digit }
    {
        self.clear();
        self.push(LINE_START);
        self.push_time(seconds);
        self.push(BETWEEN_TIMES);
        self.push_time(seconds);
        self.push(BEFORE_DIGIT);
        self.push(&[b'0' + digit]);
        self.push(LINE_END);
    }

    /// Appends the time this many seconds after the start of the log, in January.
    fn push_time(&mut self, seconds: u32)
        requires early { seconds < 31 * 86_400 }
        requires room { length self.old + 20 ≤ LINE_LENGTH }
        ensures { self.new ≡ self.old ++ time_text seconds }
    {
        self.push(b"2021-01-");
        self.push_pair(1 + seconds / 86_400);
        self.push(b"T");
        self.push_pair(seconds / 3600 % 24);
        self.push(b":");
        self.push_pair(seconds / 60 % 60);
        self.push(b":");
        self.push_pair(seconds % 60);
        self.push(b"Z");
    }

    /// Appends a number as two digits.
    fn push_pair(&mut self, number: u32)
        requires small { number < 100 }
        requires room { length self.old + 2 ≤ LINE_LENGTH }
        ensures { self.new ≡ self.old ++ two_digits number }
    {
        self.push(&[b'0' + (number / 10) as u8, b'0' + (number % 10) as u8]);
    }

    /// Appends some bytes.
    fn push(&mut self, piece: &[u8])
        requires { length self.old + length piece.now ≤ LINE_LENGTH }
        ensures { self.new ≡ self.old ++ piece.now }
    {
        let end = self.end + piece.len();
        self.bytes[self.end..end].copy_from_slice(piece);
        self.end = end;
    }

    /// Removes all bytes.
    fn clear(&mut self)
        ensures { self.new ≡ [] }
    {
        self.end = 0;
    }
}
