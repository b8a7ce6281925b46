//! What holds of every keyword. The function does nothing, and its contract is the law.

ghost use Rattle.cml_check.specs.Laws.{SpellingNamesWord};

/// The spelling of every keyword names that keyword; `mvar` is one keyword in both its uses.
pub fn spelling_names_word()
    ensures { SpellingNamesWord }
{}
