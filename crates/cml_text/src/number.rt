//! Forms that are numbers without a sign.
ghost use Rattle.std.specs.Prelude.{◌≡◌};
ghost use Rattle.cml_text.specs.Numbers as spec;

use crate::sexpr::{Sexpr, Shape};

/// The number that the form is, from 0 to 4,294,967,295, if it is one.
pub fn number_from(form: &Sexpr) -> Option<u32>
    ensures { result ≡ spec.number_from form.now }
{
    match form.shape() {
        Shape::Int(z) => u32::try_from(z).ok(),
        _ => None,
    }
}

/// The tick that the form is, from 0 to 9,223,372,036,854,775,807, if it is one.
pub fn tick_from(form: &Sexpr) -> Option<u64>
    ensures { result ≡ spec.tick_from form.now }
{
    match form.shape() {
        Shape::Int(z) => u64::try_from(z).ok(),
        _ => None,
    }
}
