ghost use Rattle.std.specs.Prelude.{◌≡◌, MatchOption, option_map};
ghost use Rattle.taxii_client.specs.Pulls.{RequestsNext, cursor_of};
ghost use Rattle.taxii_client.specs.declared.cursor.Cursor.TheVariants.{Over};

use flow_values::Text;

/// The cursor of a pull: which page is the next one.
#[derive(Debug, Drop)]
pub enum Cursor {
    First,
    /// The page with this `next`.
    Resume(Text),
    /// No page: the last one said that no more follow.
    Over,
}

impl Cursor {
    /// The cursor after a page.
    pub(crate) fn after(more: bool, next: Option<Text>) -> Cursor
        ensures { result ≡ cursor_of more next }
    {
        match next {
            Some(next) if more => Cursor::Resume(next),
            _ => Cursor::Over,
        }
    }

    /// The `next` to request, or `None` after the last page. The first page has no `next`.
    pub(crate) fn next(&self) -> Option<Option<&str>>
        ensures { MatchOption result (self.now ≡ Over)
            (λ next. RequestsNext self.now (option_map (λ text. text.now) next)) }
    {
        match self {
            Cursor::First => Some(None),
            Cursor::Resume(next) => Some(Some(next.as_str())),
            Cursor::Over => None,
        }
    }
}
