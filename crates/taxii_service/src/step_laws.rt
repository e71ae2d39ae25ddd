//! Theorems about the definitions. Each `ensures` states one; the functions have no effect.

ghost use Rattle.std.specs.Prelude.{◌≢◌, ℕ};
ghost use Rattle.http_messages.specs.declared.request.Request.{Request};
ghost use Rattle.http_messages.specs.declared.status.Status.TheVariants as Code;
ghost use Rattle.taxii_exchange.specs.declared.answer.Answer.{Answer};
ghost use Rattle.taxii_exchange.specs.declared.config.Config.{Config};
ghost use Rattle.taxii_service.specs.declared.state.State.{State};
ghost use Rattle.taxii_service.specs.Step.{Step};

/// No successful step has status 500: a server that sends it has a failed keeper.
pub fn no_step_reports_a_store_fault()
    ensures { (config : Config) (before : State) (moment : ℕ) (request : Request) (answer : Answer)
        (after : State)
        → Step config before moment request answer after
        → answer.status ≢ Code.InternalServerError }
{}
