//! Theorems about the definitions. Each `ensures` states one; the functions have no effect.

ghost use Rattle.std.specs.Prelude.{◌≤◌, List, ◌∷◌};
ghost use Rattle.taxii_rows.specs.declared.stored_row.TheConstants.{LAST_DATE};
ghost use Rattle.taxii_rows.specs.StoreState.{StoreState};
ghost use Rattle.taxii_store.specs.History.{IsDated, IsHistory};
ghost use Rattle.taxii_store.specs.Walk.{Wanted};
ghost use Rattle.taxii_theorems.specs.Runs.{Run, Round, Continue, rounds_of};
ghost use Rattle.taxii_theorems.specs.Following.{HasFollowed, ReceivesEachRow};

use taxii_bodies::laws::nexts_read_back;
use taxii_service::history_laws::{gets_are_paged, requests_make_history};
use taxii_store::walk_laws::walks_skip_no_row;

/// Over all runs of a server, the store changes only by additions and deletions.
pub fn runs_make_history()
    ensures { (store after : StoreState) (runs : List Run) → Continue store runs after
        → IsHistory store after }
{
    requests_make_history();
}

/// A client that sends as `next` what the previous page gave receives each requested row that is
/// still stored at the last page, once each, in the order of dates. This holds whatever others
/// request in between, over restarts, and with changing configurations.
pub fn clients_skip_no_row()
    ensures { (store after : StoreState) (runs : List Run) (wanted : Wanted) (first : Round)
        (others : List Round)
        → IsDated store → store.watermark ≤ LAST_DATE → Continue store runs after
        → HasFollowed wanted (rounds_of runs) first others
        → ReceivesEachRow wanted (first ∷ others) }
{
    gets_are_paged();
    nexts_read_back();
    requests_make_history();
    walks_skip_no_row();
}
