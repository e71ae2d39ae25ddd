//! Theorems about the definitions. Each `ensures` states one; the functions have no effect.

ghost use Rattle.std.specs.Prelude.{◌≡◌, ◌≢◌, ◌++◌, ℕ, List, []};
ghost use Rattle.http_messages.specs.declared.reply_refusal.HeadRefusal.{HeadRefusal};
ghost use Rattle.http_messages.specs.Replies.{Outcome, IsOutcome, IsReply, IsRefusedReply};
ghost use Rattle.http_messages.specs.Replies.{IsCutReply};
ghost use Rattle.http_messages.specs.Replies.{IsNeeded};

/// The outcome of a byte string is unique.
pub fn one_outcome()
    ensures { (bytes : List ℕ) (first second : Outcome) → IsOutcome bytes first
        → IsOutcome bytes second → first ≡ second }
{}

/// Later bytes change neither an accepted response nor a refusal.
pub fn later_bytes_change_nothing()
    ensures { (bytes more : List ℕ) (outcome : Outcome) → IsOutcome bytes outcome
        → outcome ≢ Outcome.Ends → IsOutcome (bytes ++ more) outcome }
{}

/// The empty string is an incomplete response, and no proper prefix of a response or of a refused
/// head decides it. So a reader consumes no byte too many.
pub fn all_are_needed()
    ensures none { IsCutReply [] }
    ensures reply { (reply body : List ℕ) → IsReply reply body → IsNeeded reply }
    ensures refused { (bytes : List ℕ) (refusal : HeadRefusal) → IsRefusedReply bytes refusal
        → IsNeeded bytes }
{}
