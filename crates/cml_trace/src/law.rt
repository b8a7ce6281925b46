//! What holds of every keyword and of every trace. Each function does nothing, and its contract is the law.

ghost use Rattle.cml_trace.specs.Laws.{HasOneAnswer, LiveAnswersAsTrace, SpellingNamesKeyword};

use cml_text::law::{spelled_has_no_fault, spelled_or_faulty, spells_one_at_most};

/// Every trace has an answer, and no other one.
pub fn has_one_answer()
    ensures { HasOneAnswer }
{
    spelled_or_faulty();
    spelled_has_no_fault();
    spells_one_at_most();
}

/// A live trace is answered as the trace of the same bytes, where that is not too long.
pub fn live_answers_as_trace()
    ensures { LiveAnswersAsTrace }
{}

/// Every keyword is the one that its spelling names.
pub fn spelling_names_keyword()
    ensures { SpellingNamesKeyword }
{}
