//! Theorems about the definitions. Each `ensures` states one; the functions have no effect.

ghost use Rattle.std.specs.Prelude.{◌≡◌, ℕ, List, Bool};
ghost use Rattle.taxii_exchange.specs.declared.answer.Answer.{Answer};
ghost use Rattle.taxii_exchange.specs.Answers.{IsAnswerText};

use stix_times::laws::one_text_of_digits;

/// The text of a response is unique.
pub fn one_answer_text()
    ensures { (answer : Answer) (close : Bool) (text other : List ℕ)
        → IsAnswerText answer close text → IsAnswerText answer close other → text ≡ other }
{
    one_text_of_digits();
}
