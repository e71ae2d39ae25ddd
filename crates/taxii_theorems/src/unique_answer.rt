//! Theorems about the definitions. Each `ensures` states one; the functions have no effect.

ghost use Rattle.std.specs.Prelude.{◌≡◌, ◌≢◌, ℕ};
ghost use Rattle.http_messages.specs.declared.method.Method.TheVariants as method;
ghost use Rattle.http_messages.specs.declared.request.Request.{Request};
ghost use Rattle.taxii_exchange.specs.declared.answer.Answer.{Answer};
ghost use Rattle.taxii_exchange.specs.declared.config.Config.{Config};
ghost use Rattle.taxii_service.specs.declared.state.State.{State};
ghost use Rattle.taxii_service.specs.Step.{Step};
ghost use Rattle.taxii_store.specs.History.{IsDated};

use stix_ids::laws::one_identifier;
use stix_objects::laws::{one_id, one_list, one_timestamp};
use stix_times::laws::one_text_of_digits;
use taxii_routes::laws::{never_both, one_query, one_refusal, one_route, one_target};
use taxii_rows::laws::one_version;
use taxii_service::history_laws::requests_make_history;
use taxii_store::walk_laws::one_page;

/// From one state, at one moment, a request has one successful step: one response (`answer`) and
/// one next state (`state`). Out of memory and keeper faults change nothing, and are not steps.
pub fn one_step()
    ensures answer { (config : Config) (before first second : State) (moment : ℕ)
        (request : Request) (answer other : Answer)
        → IsDated before.library → Step config before moment request answer first
        → Step config before moment request other second
        → answer ≡ other }
    ensures state { (config : Config) (before first second : State) (moment : ℕ)
        (request : Request) (answer other : Answer)
        → IsDated before.library → Step config before moment request answer first
        → Step config before moment request other second
        → first ≡ second }
{
    one_target();
    one_route();
    one_query();
    one_refusal();
    never_both();
    one_identifier();
    one_text_of_digits();
    one_page();
    one_list();
    one_id();
    one_timestamp();
    one_version();
    requests_make_history();
}

/// A request other than POST and DELETE has the same response whenever it is made (`answer`), and
/// leaves the state unchanged (`state`).
pub fn readings_change_nothing()
    ensures answer { (config : Config) (before first second : State) (moment later : ℕ)
        (request : Request) (answer other : Answer)
        → request.method ≢ method.Post → request.method ≢ method.Delete
        → Step config before moment request answer first
        → Step config before later request other second → answer ≡ other }
    ensures state { (config : Config) (before after : State) (moment : ℕ) (request : Request)
        (answer : Answer)
        → request.method ≢ method.Post → request.method ≢ method.Delete
        → Step config before moment request answer after
        → after ≡ before }
{
    one_target();
    one_route();
    one_query();
    one_refusal();
    never_both();
    one_identifier();
    one_text_of_digits();
    one_page();
}
