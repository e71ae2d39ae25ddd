ghost use Rattle.std.specs.Prelude.{◌≡◌, ◌≤◌, length};
ghost use Rattle.flow_edges.specs.Faults.{Counted};
ghost use Rattle.flow_links.specs.declared.dial.TheConstants.{MAX_HOST};
ghost use Rattle.taxii_client.specs.Environment.{link_view};
ghost use Rattle.command_pull.specs.Pulling.{pull_environment};
ghost use Rattle.command_pull.specs.Endings.{EndsPull, pull_status};

use crate::ending::{PullEnd, PullEnding};
use crate::writing::{count_bad, write_page};
use flow_edges::Sink;
use flow_links::Dial;
use std::alloc::Global;
use taxii_client::pull_laws::pulls_continue;
use taxii_client::{Pull, Target};

/// Fetches the pages of a collection in order, and writes the valid entries of each before the next
/// request.
pub(crate) fn pull_all<D: Dial, O: Sink>(
    alloc: Global,
    target: &Target,
    dial: &mut D,
    output: &mut O,
) -> PullEnd
    requires short { length target.now.host ≤ MAX_HOST }
    ensures end { EndsPull
        (link_view D.Link.left D.Link.written D.Link.Source.faults D.Link.Sink.faults) target.now
        (pull_environment (D.observable dial.old) (D.faults dial.old) (O.written output.old))
        (pull_environment (D.observable dial.new) (D.faults dial.new) (O.written output.new))
        result.skipped result.ending }
    ensures output { Counted (pull_status result.ending ≡ 6) (O.faults output.old)
        (O.faults output.new) }
{
    pulls_continue::<D>();
    let mut pull = Pull::new(alloc, target);
    let mut skipped: u128 = 0;
    'pages: loop {
        let entries = match pull.next_page(dial) {
            Ok(Some(entries)) => entries,
            Ok(None) => {
                return PullEnd {
                    skipped,
                    ending: PullEnding::Done,
                };
            }
            Err(end) => {
                return PullEnd {
                    skipped,
                    ending: PullEnding::Lost(end),
                };
            }
        };
        skipped += count_bad(entries.as_slice()) as u128;
        if let Err(short) = write_page(alloc, entries.as_slice(), output) {
            return PullEnd {
                skipped,
                ending: PullEnding::CutShort(short),
            };
        }
    }
}
