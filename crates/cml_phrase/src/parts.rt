//! The parts of forms.
ghost use Rattle.std.specs.Prelude.{◌≡◌, false, IfSome, IfNone};
ghost use Rattle.cml_text.specs.Forms.{plain_forms, plain_list, forms_and, span_of};
ghost use Rattle.cml_check.specs.Parts.{is_headed};
ghost use Rattle.cml_phrase.specs.{Names.{form_name}, Statements.{parts_of}};

use cml_text::{Sexpr, Shape};

/// The forms of a list; none where it is no list.
pub fn parts(form: &Sexpr) -> &[Sexpr]
    ensures { plain_forms result.now ≡ parts_of form.now }
{
    match form.shape() {
        Shape::List(forms) => forms,
        Shape::Name(_) => &[],
        Shape::Int(_) => &[],
        Shape::Text(_) => &[],
    }
}

/// The first form of a list, and the forms after it.
pub fn headed(form: &Sexpr) -> Option<(&Sexpr, &[Sexpr])>
    ensures some { IfSome result (λ found. form.now
        ≡ plain_list (span_of form.now) (forms_and found.0.now (plain_forms found.1.now))) }
    ensures none { IfNone result (is_headed form.now ≡ false) }
{
    match form.shape() {
        Shape::List([first, behind @ ..]) => Some((first, behind)),
        Shape::List([]) => None,
        Shape::Name(_) => None,
        Shape::Int(_) => None,
        Shape::Text(_) => None,
    }
}

/// How a form is spelled that is a name; nothing of another.
pub fn form_name(form: &Sexpr) -> &str
    ensures { result.now ≡ form_name form.now }
{
    match form.shape() {
        Shape::Name(name) => name.as_str(),
        Shape::List(_) => "",
        Shape::Int(_) => "",
        Shape::Text(_) => "",
    }
}
