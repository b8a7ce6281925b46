//! What holds of every text. Each function does nothing, and its contract is the law.
ghost use Rattle.cml_text.specs.Laws.{SpellsOneAtMost, SpelledHasNoFault, SpelledOrFaulty, EachAtItsSpan, PrintedIsRead, SpellsByTheGrammar, SpelledIsWithinLimits, PrintedAgainIsSame, WrittenLineIsFirst, PrintedLineIsRead, PrintedLineIsOneLine, AListIsItsForms, FaultIsFirst, BeforeFaultIsBegun};

/// A text spells at most one list of forms, and only one way: the spans are told too.
pub fn spells_one_at_most()
    ensures { SpellsOneAtMost }
{}

/// Each form of a text, also inside lists, is spelled by the slice of the text at its span.
pub fn each_at_its_span()
    ensures { EachAtItsSpan }
{}

/// A text that spells forms has no fault.
pub fn spelled_has_no_fault()
    ensures { SpelledHasNoFault }
{}

/// A text that has no fault spells forms.
pub fn spelled_or_faulty()
    ensures { SpelledOrFaulty }
{}

/// What is printed of forms is read back as these forms, spans aside: if they are within the limits and their text is not too long.
pub fn printed_is_read()
    ensures { PrintedIsRead }
{}

/// A text spells forms exactly where the grammar of texts gives them, within the limits.
pub fn spells_by_the_grammar()
    ensures { SpellsByTheGrammar }
{}

/// What a text spells is within the limits of what is printed and read back.
pub fn spelled_is_within_limits()
    ensures { SpelledIsWithinLimits }
{}

/// What was read and printed is read back, if it is not too long, and printed again it is the same text.
pub fn printed_again_is_same()
    ensures { PrintedAgainIsSame }
{}

/// Bytes without a line feed, written as a line in front of a text, are the first line of the whole, and the lines of the text follow.
pub fn written_line_is_first()
    ensures { WrittenLineIsFirst }
{}

/// What is printed on one line is read back as these forms, spans aside: if they are within the limits and the line is not too long.
pub fn printed_line_is_read()
    ensures { PrintedLineIsRead }
{}

/// What is printed on one line, of forms within the limits, has no line feed in it.
pub fn printed_line_is_one_line()
    ensures { PrintedLineIsOneLine }
{}

/// Where there is room for the parentheses, a text in parentheses spells a list exactly where the text alone spells the list's forms, spans
/// aside, and these nest less deep than the limit.
pub fn a_list_is_its_forms()
    ensures { AListIsItsForms }
{}

/// Of a text that is UTF-8 and not too long, the fault is that of the first lexeme with which, whatever follows, no forms are spelled; or
/// only closing parentheses are missing.
pub fn fault_is_first()
    ensures { FaultIsFirst }
{}

/// Of a text that is UTF-8 and not too long, what stands before a fault that is not `Unclosed` could still become forms.
pub fn before_fault_is_begun()
    ensures { BeforeFaultIsBegun }
{}
