//! What holds of every text of properties, of every printed value, and of all runs. Each function does nothing, and its contract is the law.
ghost use Rattle.cml_properties.specs.Laws.{SaysOneThing, EachHasItsWord, MatchesItself, StaysBroken, AgreeByAThird, NoBreachIsLeftOut};

use cml_text::law::{
    printed_line_is_read, spelled_has_no_fault, spelled_or_faulty, spells_one_at_most,
};

/// A text says properties or a fault, and one thing only. So what `properties` returns is settled, unless memory runs out.
pub fn says_one_thing()
    ensures { SaysOneThing }
{
    spelled_or_faulty();
    spells_one_at_most();
    spelled_has_no_fault();
}

/// The word of a kind is that of no other.
pub fn each_has_its_word()
    ensures { EachHasItsWord }
{}

/// A value matches the line on which it is printed.
pub fn matches_itself()
    ensures { MatchesItself }
{
    printed_line_is_read();
    spells_one_at_most();
}

/// A property that is broken stays broken, however the run goes on and ends: so a run may be stopped where it breaks one.
pub fn stays_broken()
    ensures { StaysBroken }
{}

/// Two runs that each print like a third print alike: so all do if each prints like the first.
pub fn agree_by_a_third()
    ensures { AgreeByAThird }
{}

/// Where `breaches` finds none, each run keeps the property, and any two print alike, if the property asks that.
pub fn no_breach_is_left_out()
    ensures { NoBreachIsLeftOut }
{}
