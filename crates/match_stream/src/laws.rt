//! Theorems about the definitions of this crate. The contracts state them; the functions do nothing
//! at run time.

ghost use Rattle.std.specs.Prelude.{◌≡◌, ◌++◌, ◌<ℤ◌, ℕ, true, List};
ghost use Rattle.match_bindings.specs.declared.log_entry.LogEntry.{LogEntry};
ghost use Rattle.match_bindings.specs.NumberedPattern.{NumberedPattern, Within};
ghost use Rattle.match_bindings.specs.Span.{later_by};
ghost use Rattle.match_bindings.specs.BindTree.{BindTree};
ghost use Rattle.match_bindings.specs.Log.{observed_in};
ghost use Rattle.match_bindings.specs.Listing.{IsListing};
ghost use Rattle.match_pruning.specs.PartialMatchTree.{PartialMatchTree};
ghost use Rattle.match_pruning.specs.RowNumbers.{is_kept};
ghost use Rattle.match_stream.specs.RetainedPart.{IsRetainedPart, time_of};
ghost use Rattle.match_stream.specs.Answer.{IsRetainedCount, AreAnswers, joined_answers};

/// The retained count of a pattern over a log is unique.
pub fn one_retained_count()
    ensures { (p : NumberedPattern) (log : List LogEntry) (m n : ℕ) → IsRetainedCount p log m
        → IsRetainedCount p log n → m ≡ n }
{
    match_bindings::laws::test_is_the_rule();
}

/// The answers to the rows of a log, concatenated, are its listing.
pub fn answers_are_the_listing()
    ensures { (p : NumberedPattern) (log : List LogEntry) (answers : List (List BindTree))
        → AreAnswers p log answers
        → IsListing (observed_in log) p (joined_answers answers) }
{
    match_bindings::laws::test_is_the_rule();
    match_bindings::laws::listing_is_by_the_test();
}

/// The listing of a log is a prefix of the listing of any longer log.
pub fn listings_continue()
    ensures { (p : NumberedPattern) (log more : List LogEntry) (xs ys : List BindTree)
        → IsListing (observed_in log) p xs
        → IsListing (observed_in (log ++ more)) p ys → (zs : List BindTree) × (ys ≡ xs ++ zs) }
{
    match_bindings::laws::listing_is_by_the_test();
    match_bindings::laws::one_listing();
    match_bindings::laws::ascending_lists_are_ordered();
}

/// Under an outermost `WITHIN`, each row that a store keeps began less than the qualifier's seconds
/// before the time of the log.
pub fn kept_rows_are_recent()
    ensures { (p : NumberedPattern) (seconds number : ℕ) (log : List LogEntry)
        (contents : List (List PartialMatchTree)) → IsRetainedPart (Within p seconds) log contents
        → is_kept number contents ≡ true
        → time_of log <ℤ later_by seconds ((observed_in log).first number) }
{
    match_bindings::laws::test_is_the_rule();
}
