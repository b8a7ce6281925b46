//! What is needed to go through a run by hand.

ghost use Rattle.std.specs.Prelude.{◌≡◌};
ghost use Rattle.cml_facts.specs.Narrators.{places_of};
ghost use Rattle.cml_phrase.specs.Spots.{all_places};

use cml_facts::narrative::Narrator;
use cml_text::Sexpr;

/// What is needed to go through a run by hand: the text of its script and its forms, and who tells its items.
#[derive(Drop)]
pub struct Stepper<'a> {
    pub(crate) text: &'a [u8],
    pub(crate) forms: &'a [Sexpr],
    pub(crate) narrator: Narrator,
    ghost placed: { places_of narrator ≡ all_places text.now forms.now },
}
