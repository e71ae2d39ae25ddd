//! Strings as slices of a shared source text (reference counting), with an owned copy as the
//! fallback. A slice is made only after its bytes are compared with the string, so it can't differ
//! from it.

ghost use Rattle.std.specs.Prelude.{◌≡◌, ◌≤◌, ◌<◌, IfOk, IfSome};
ghost use Rattle.std.specs.Str.{IsCharBoundary};

use flow_values::{NoMemory, Text};
use std::alloc::Global;
use std::marker::Model;
use std::rc::Rc;

/// A string of a JSON value. Its value in contracts is the list of its bytes. Most strings are
/// slices of the source text, which they share by reference counting, so they allocate nothing.
#[derive(Drop)]
pub struct JsonText {
    form: TextForm,
}

#[derive(Drop)]
enum TextForm {
    TextSlice(TextSlice),
    Owned(Box<Text>),
}

/// A slice of a shared text, by byte offsets.
#[derive(Drop)]
struct TextSlice {
    whole: Rc<Text>,
    start: u32,
    end: u32,
    ghost order: { start ≤ end },
    ghost starts: { 0 < start → IsCharBoundary whole.value start },
    ghost ends: { IsCharBoundary whole.value end },
}

impl Model for JsonText {
    ghost use Rattle.std.specs.Prelude.{List, ℕ};
    ghost use Rattle.stix_json.specs.inner.Texts.{text_of_string};

    ghost Value = { List ℕ };

    ghost view = { λ text. text_of_string text.form };
}

impl JsonText {
    /// Takes over a text and its allocation. It is boxed, so that `Json` stays small for the common
    /// case of a slice.
    pub fn from_text(alloc: Global, text: Text) -> Result<JsonText, NoMemory>
        ensures { IfOk result (λ found. found ≡ text) }
    {
        let text = Box::new(alloc, text)?;
        Ok(JsonText {
            form: TextForm::Owned(text),
        })
    }

    /// Borrows the text.
    pub fn as_str(&self) -> &str
        ensures { result.now ≡ self.now }
    {
        match &self.form {
            TextForm::TextSlice(part) => part.as_str(),
            TextForm::Owned(text) => text.as_str(),
        }
    }

    /// The string `text`, as a slice of `whole` if it stands there at byte `location`. Otherwise,
    /// as for a string with escapes, it is copied.
    pub(crate) fn within(
        alloc: Global,
        whole: &Rc<Text>,
        location: usize,
        text: &str,
    ) -> Result<JsonText, NoMemory>
        ensures { IfOk result (λ found. found ≡ text.now) }
    {
        if let Some(part) = TextSlice::at(whole, location, text) {
            return Ok(JsonText {
                form: TextForm::TextSlice(part),
            });
        }
        JsonText::from_text(alloc, Text::from_text(alloc, text)?)
    }
}

impl TextSlice {
    ghost use Rattle.stix_json.specs.inner.Texts.{slice_text};

    /// The slice of `whole` at byte `location` that equals `text`, if it does.
    fn at(whole: &Rc<Text>, location: usize, text: &str) -> Option<TextSlice>
        ensures { IfSome result (λ part. slice_text part ≡ text.now) }
    {
        let end = location.checked_add(text.len())?;
        let lent = whole.as_str();
        if !lent.is_char_boundary(location) || !lent.is_char_boundary(end) {
            return None;
        }
        if &lent[location..end] != text {
            return None;
        }
        let whole = whole.clone().ok()?;
        let start = u32::try_from(location).ok()?;
        let end = u32::try_from(end).ok()?;
        Some(TextSlice { whole, start, end })
    }

    fn as_str(&self) -> &str
        ensures { result.now ≡ slice_text self.now }
    {
        &self.whole.as_str()[self.start as usize..self.end as usize]
    }
}
