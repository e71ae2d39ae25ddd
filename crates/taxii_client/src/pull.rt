ghost use Rattle.std.specs.Prelude.{◌≡◌, ◌≤◌, length, option_map};
ghost use Rattle.flow_links.specs.declared.dial.TheConstants.{MAX_HOST};
ghost use Rattle.taxii_client.specs.Environment.{link_view};
ghost use Rattle.taxii_client.specs.Pulls.{Answers, Dials};
ghost use Rattle.taxii_client.specs.declared.cursor.Cursor.TheVariants.{First};

use crate::{Cursor, FetchEnd, PageEnd, Target, fetch};
use flow_links::Dial;
use flow_values::Items;
use std::alloc::Global;
use std::marker::Model;
use stix_json::{Entry, Envelope};

/// The maximum number of pages of a pull.
pub const MAX_PAGES: u64 = 1_000_000;

/// An iterator over the pages of a peer's collection, with a new connection per page. Its model is
/// the target, the cursor and the number of pages received.
#[derive(Drop)]
pub struct Pull<'t> {
    alloc: Global,
    target: &'t Target,
    cursor: Cursor,
    pages: u64,
}

impl<'t> Model for Pull<'t> {
    ghost use Rattle.std.specs.Prelude.{◌≤◌, length};
    ghost use Rattle.flow_links.specs.declared.dial.TheConstants.{MAX_HOST};
    ghost use Rattle.taxii_client.specs.declared.pull.TheConstants.{MAX_PAGES};
    ghost use Rattle.taxii_client.specs.Pulls.{PullState};

    ghost Value = { PullState };

    ghost view = { λ pull. record {
      target = pull.target.now;
      cursor = pull.cursor;
      pages = pull.pages;
    } };

    ghost invariant = { λ pull. (length pull.target.now.host ≤ MAX_HOST)
        × (pull.pages ≤ MAX_PAGES) };
}

impl<'t> Pull<'t> {
    /// A pull from the first page.
    pub fn new(alloc: Global, target: &'t Target) -> Pull<'t>
        requires short { length target.now.host ≤ MAX_HOST }
        ensures { result ≡ record { target = target.now; cursor = First; pages = 0 } }
    {
        Pull {
            alloc,
            target,
            cursor: Cursor::First,
            pages: 0,
        }
    }

    /// The objects of the next page, or `None` after the last one. After an error the same page is
    /// the next one again. Each link is returned to the dial.
    pub fn next_page<D: Dial>(&mut self, dial: &mut D) -> Result<Option<Items<Entry>>, PageEnd>
        // the page at the cursor was fetched over a new link, or the cursor is unchanged
        ensures { Answers (link_view D.Link.left D.Link.written D.Link.Source.faults
            D.Link.Sink.faults) self.old self.new
            (record { observable = D.observable dial.old; faults = D.faults dial.old })
            (record { observable = D.observable dial.new; faults = D.faults dial.new }) result }
    {
        let Some(next) = self.cursor.next() else {
            return Ok(None);
        };
        if self.pages == MAX_PAGES {
            return Err(PageEnd::TooManyPages);
        }
        let envelope = dial_and_fetch(self.alloc, self.target, next, dial)?;
        self.cursor = Cursor::after(envelope.more, envelope.next);
        self.pages += 1;
        Ok(Some(envelope.entries))
    }
}

/// Connects, fetches a page, and returns the link to the dial.
fn dial_and_fetch<D: Dial>(
    alloc: Global,
    target: &Target,
    next: Option<&str>,
    dial: &mut D,
) -> Result<Envelope, FetchEnd>
    requires short { length target.now.host ≤ MAX_HOST }
    ensures { Dials (link_view D.Link.left D.Link.written D.Link.Source.faults D.Link.Sink.faults)
        target.now (option_map (λ next. next.now) next.entry)
        (record { observable = D.observable dial.old; faults = D.faults dial.old })
        (record { observable = D.observable dial.new; faults = D.faults dial.new }) result }
{
    let mut link = dial.dial(target.host.as_str(), target.port)?;
    let answer = fetch(alloc, target, next, &mut link);
    dial.finish(link);
    answer
}
