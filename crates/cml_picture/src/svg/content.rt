//! What stands in an element.

ghost use Rattle.cml_picture.specs.WellFormed.{IsContent};

/// What stands in an element, as it is written.
#[derive(Drop)]
pub(crate) struct Content {
    pub(crate) text: Vec<u8>,
    ghost content: { ∥ IsContent text.items ∥₁ },
}
