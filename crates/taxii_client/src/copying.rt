ghost use Rattle.std.specs.Prelude.{◌≡◌, ◌≤◌, ℕ, length, true, Err, IfOk, IfErr, IfSome, IsErrAnd};
ghost use Rattle.flow_edges.specs.Faults.{Counted};
ghost use Rattle.flow_links.specs.declared.dial.TheConstants.{MAX_HOST};
ghost use Rattle.taxii_client.specs.Environment.{link_view};
ghost use Rattle.taxii_store.specs.Loading.{IsBadAfter};
ghost use Rattle.taxii_store.specs.declared.load_refusal.LoadRefusal.TheVariants as Unloaded;
ghost use Rattle.taxii_client.specs.Filling.{copy_environment};
ghost use Rattle.taxii_client.specs.Endings.{Copies, is_store_fault};
ghost use Rattle.taxii_client.specs.inner.Opening.{stop_of, Opens};

use crate::mirror_laws::pages_continue;
use crate::pull_laws::pulls_continue;
use crate::{CopyStop, FetchStop, Mirror, PageEnd, Pull, Target, Totals};
use flow_links::{Clock, Dial};
use std::alloc::Global;
use taxii_rows::Keeper;
use taxii_store::{Library, LoadRefusal};

/// Copies a collection into the store named `file`: fetches its pages in order, and absorbs each at
/// the clock's next moment before it requests the next one. A lost fetch is retried; `LinkLost`
/// ends the copy after `tries` lost fetches in all. Pages absorbed before an error stay in the
/// store.
pub fn copy<D: Dial, K: Keeper, C: Clock>(
    alloc: Global,
    target: &Target,
    file: &str,
    tries: u32,
    dial: &mut D,
    keeper: &mut K,
    clock: &mut C,
) -> Result<Totals, CopyStop>
    requires short { length target.now.host ≤ MAX_HOST }
    requires tries { 1 ≤ tries }
    // each link is dialled and returned, each page absorbed once, and an error says which step
    // failed
    ensures copies { Copies
        (link_view D.Link.left D.Link.written D.Link.Source.faults D.Link.Sink.faults)
        (record { target = target.now; file = file.now; tries = tries })
        (copy_environment (D.observable dial.old) (D.faults dial.old) (K.kept keeper.old)
        (C.moments clock.old))
        (copy_environment (D.observable dial.new) (D.faults dial.new) (K.kept keeper.new)
        (C.moments clock.new)) result }
    // the keeper counts a fault exactly if the copy ends because the keeper failed
    ensures causes { Counted (IsErrAnd result (λ stop. is_store_fault stop ≡ true))
        (K.faults keeper.old) (K.faults keeper.new) }
{
    pulls_continue::<D>();
    pages_continue();
    let mut mirror = match open(alloc, keeper, file, target.collection) {
        Ok(mirror) => mirror,
        Err(refusal) => return Err(CopyStop::NotLoaded(refusal)),
    };
    let mut pull = Pull::new(alloc, target);
    let mut lost = 0;
    let mut totals = Totals::new();
    'attempts: loop {
        let entries = match pull.next_page(dial) {
            Ok(Some(entries)) => entries,
            Ok(None) => return Ok(totals),
            Err(end) => {
                if let Some(stop) = stop_for(end) {
                    return Err(CopyStop::NotFetched(stop));
                }
                lost += 1;
                if lost == tries {
                    return Err(CopyStop::NotFetched(FetchStop::LinkLost));
                }
                continue 'attempts;
            }
        };
        let moment = clock.now();
        match mirror.absorb(keeper, moment, entries) {
            Ok(tally) => totals.add(&tally),
            Err(refusal) => return Err(CopyStop::NotAbsorbed(refusal)),
        }
    }
}

/// Loads the store with this name.
fn open<K: Keeper>(
    alloc: Global,
    keeper: &mut K,
    file: &str,
    collection: u128,
) -> Result<Mirror, LoadRefusal>
    ensures ok { IfOk result (Opens file.now (K.kept keeper.old) (K.kept keeper.new)) }
    ensures collection { IfOk result (λ mirror. mirror.collection ≡ collection) }
    ensures bad { IfErr result (λ refusal. (after : ℕ) → refusal ≡ Unloaded.BadRow after
        → IfSome (K.kept keeper.old).observable (λ state. IsBadAfter state after)) }
    ensures observable { (K.kept keeper.new).observable ≡ (K.kept keeper.old).observable }
    ensures causes { Counted (result ≡ Err Unloaded.KeeperFault) (K.faults keeper.old)
        (K.faults keeper.new) }
{
    let library = Library::load(alloc, keeper, file)?;
    Ok(Mirror::new(alloc, library, collection))
}

/// Why the copy ends after a failed fetch; `None` if the fetch was lost and may be retried.
fn stop_for(end: PageEnd) -> Option<FetchStop>
    ensures { result ≡ stop_of end }
{
    match end {
        PageEnd::Fault | PageEnd::Cut => None,
        PageEnd::Refused(refusal) => Some(FetchStop::Refused(refusal)),
        PageEnd::TooManyPages => Some(FetchStop::TooManyPages),
        PageEnd::NoMemory => Some(FetchStop::NoMemory),
    }
}
