//! Theorems about the definitions. Each `ensures` states one; the functions have no effect.

ghost use Rattle.std.specs.Prelude.{◌≡◌, [], ◌∷◌, ◌++◌, ℕ, List, Option, All, true};
ghost use Rattle.flow_links.specs.Dials.{DialState};
ghost use Rattle.taxii_client.specs.Environment.{ClientLinkView};
ghost use Rattle.taxii_client.specs.Fetches.{FetchOutcome, IsFetchOutcome};
ghost use Rattle.taxii_client.specs.Pulls.{Lent, Page, PassThroughDial, IsPageAt, IsPull};
ghost use Rattle.taxii_client.specs.Pulls.{cursor_after};
ghost use Rattle.taxii_client.specs.declared.target.Target.{Target};
ghost use Rattle.taxii_client.specs.declared.cursor.Cursor.{Cursor};

use flow_links::Dial;

/// The outcome of a byte string is unique.
pub fn one_outcome()
    ensures { (bytes : List ℕ) (first second : FetchOutcome) → IsFetchOutcome bytes first
        → IsFetchOutcome bytes second → first ≡ second }
{
    http_messages::reply_laws::one_outcome();
}

/// A page received at the cursor of a pull extends it, and its link extends the pull's links.
pub fn pulls_continue<D: Dial>()
    ensures pages { (view : D.Link
        → ClientLinkView) (target : Target) (pages : List (Page D.Link)) (cursor : Cursor)
        (page : Page D.Link)
        → IsPull view target pages cursor → IsPageAt view target cursor page
        → IsPull view target (pages ++ page ∷ []) (cursor_after page.envelope) }
    ensures no_link { (target : Target) (observable : Option (DialState D.Link))
        → PassThroughDial target [] observable observable }
    ensures links { (target : Target) (links more : List (Lent D.Link))
        (before middle after : Option (DialState D.Link))
        → PassThroughDial target links before middle → PassThroughDial target more middle after
        → PassThroughDial target (links ++ more) before after }
{}

/// Each page of a pull but the last said that more follow.
pub fn pulls_continue_for_more<D: Dial>()
    ensures { (view : D.Link
        → ClientLinkView) (target : Target) (pages : List (Page D.Link)) (last : Page D.Link)
        (cursor : Cursor)
        → IsPull view target (pages ++ last ∷ []) cursor
        → All (λ page. page.envelope.more ≡ true) pages }
{}
