//! Theorems about the definitions. Each `ensures` states one; the functions have no effect.

ghost use Rattle.std.specs.Prelude.{◌≡◌, ℕ, List, Option};
ghost use Rattle.stix_ids.specs.declared.id.Id.{Id};
ghost use Rattle.http_messages.specs.declared.status.Status.TheVariants.{Okay};
ghost use Rattle.taxii_routes.specs.declared.query.Query.{Query};
ghost use Rattle.taxii_exchange.specs.declared.config.Config.{Config};
ghost use Rattle.taxii_service.specs.Reading.{IsPageOf, IsEnvelope};
ghost use Rattle.taxii_service.specs.declared.state.State.{State};
ghost use Rattle.taxii_store.specs.History.{IsDated, IsHistory};
ghost use Rattle.taxii_service.specs.Exchanges.{Exchange, IsExchange, WasDone, HasServed};
ghost use Rattle.taxii_service.specs.Visits.{Asks, WalksSkipNoRow};

use stix_ids::laws::one_identifier;
use taxii_routes::laws::{one_query, one_route, one_target};
use taxii_store::walk_laws::{one_page, walks_skip_no_row};

/// Any sequence of requests changes the store only by additions and deletions. So a walk may
/// continue after a restart, which leaves the store as it is.
pub fn requests_make_history()
    ensures history { (config : Config) (before after : State) (exchanges : List Exchange)
        → HasServed config before exchanges after → IsHistory before.library after.library }
    ensures dated { (config : Config) (before after : State) (exchanges : List Exchange)
        → HasServed config before exchanges after → IsDated before.library → IsDated after.library }
{}

/// Whatever was answered with 200 was done: no reason against the request held.
pub fn answered_requests_were_done()
    ensures { (config : Config) (e : Exchange) → IsExchange config e → e.answer.status ≡ Okay
        → WasDone config e }
{}

/// A GET of objects that was answered with 200 got a page of the store at that time.
pub fn gets_are_paged()
    ensures { (config : Config) (e : Exchange) (collection : ℕ) (only : Option Id) (query : Query)
        → IsExchange config e → e.answer.status ≡ Okay
        → Asks config e.request collection only query
        → IsPageOf e.before.library.rows collection only query IsEnvelope e.answer }
{
    one_target();
    one_route();
    one_query();
    one_identifier();
}

/// Every walk among a server's requests gives each requested row that is still stored at the last
/// page, once each, in the order of dates.
pub fn walks_among_requests_skip_no_row()
    ensures { (config : Config) (before after : State) (exchanges : List Exchange)
        → IsDated before.library → HasServed config before exchanges after
        → WalksSkipNoRow config exchanges }
{
    gets_are_paged();
    one_page();
    walks_skip_no_row();
}
