//! The parts of forms.

ghost use Rattle.std.specs.Prelude.{◌≡◌, false, IfSome, IfNone};
ghost use Rattle.cml_text.specs.Forms.{plain_list, plain_forms, forms_and, span_of};
ghost use Rattle.cml_check.specs.Parts.{is_list, is_headed};

use cml_text::{Sexpr, Shape};

/// The forms of a list.
pub fn parts(form: &Sexpr) -> Option<&[Sexpr]>
    ensures some { IfSome result (λ forms.
        form.now ≡ plain_list (span_of form.now) (plain_forms forms.now)) }
    ensures none { IfNone result (is_list form.now ≡ false) }
{
    match form.shape() {
        Shape::List(forms) => Some(forms),
        Shape::Name(_) => None,
        Shape::Int(_) => None,
        Shape::Text(_) => None,
    }
}

/// The first form of a list, and the forms after it.
pub fn headed(form: &Sexpr) -> Option<(&Sexpr, &[Sexpr])>
    ensures some { IfSome result (λ found. form.now
        ≡ plain_list (span_of form.now) (forms_and found.0.now (plain_forms found.1.now))) }
    ensures none { IfNone result (is_headed form.now ≡ false) }
{
    let Some(forms) = parts(form) else {
        return None;
    };
    match forms {
        [] => None,
        [first, behind @ ..] => Some((first, behind)),
    }
}
