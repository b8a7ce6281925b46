//! Patterns of printed values.

ghost use Rattle.std.specs.Prelude.{◌≡◌, false, IfSome, IfNone};
ghost use Rattle.cml_text.specs.Forms.{plain_list, plain_forms, span_of};
ghost use Rattle.cml_properties.specs.Lines.{value_seen};
ghost use Rattle.cml_properties.specs.Patterns as spec;

use crate::line::Line;
use cml_text::{Sexpr, Shape};
use std::marker::Model;

/// A value as it is printed, in which `_` stands for anything.
#[derive(Drop)]
pub struct Pattern {
    form: Sexpr,
}

impl Model for Pattern {
    ghost use Rattle.cml_text.specs.Forms.{PlainSexpr};

    ghost Value = { PlainSexpr };

    ghost use Rattle.cml_text.specs.FormCodes.{form_code};

    ghost coded = { form_code };

    ghost view = { λ pattern. pattern.form };
}

impl Pattern {
    /// The pattern that a form is.
    pub fn new(form: Sexpr) -> Pattern
        ensures { result ≡ form }
    {
        Pattern { form }
    }

    /// The form that the pattern is.
    pub fn form(&self) -> &Sexpr
        ensures { result.now ≡ self.now }
    {
        &self.form
    }

    /// Whether the line matches.
    pub fn matches(&self, line: &Line<'_>) -> bool
        ensures { result ≡ spec.matches self.now line.now }
    {
        match self.form.shape() {
            Shape::Text(content) => content.as_bytes() == line.text(),
            Shape::Name(name) => is_blank(name.as_str()) || fits_value(&self.form, line.value()),
            Shape::Int(_) => fits_value(&self.form, line.value()),
            Shape::List(_) => fits_value(&self.form, line.value()),
        }
    }
}

// Whether there is a value, and it fits.
fn fits_value(pattern: &Sexpr, value: Option<&Sexpr>) -> bool
    ensures { result ≡ spec.fits_value pattern.now (value_seen value.entry) }
{
    match value {
        Some(form) => fits(pattern, form),
        None => false,
    }
}

// Whether the form fits.
fn fits(pattern: &Sexpr, form: &Sexpr) -> bool
    ensures { result ≡ spec.fits pattern.now form.now }
{
    let patterns = match pattern.shape() {
        Shape::Name(name) => return is_blank(name.as_str()) || is_named(name.as_str(), form),
        Shape::Int(value) => return is_int(value, form),
        Shape::Text(content) => return is_text(content, form),
        Shape::List(patterns) => patterns,
    };
    let Some(forms) = parts(form) else {
        return false;
    };
    if patterns.len() != forms.len() {
        return false;
    }
    for (index, pattern) in patterns.iter().enumerate() {
        if !fits(pattern, &forms[index]) {
            return false;
        }
    }
    true
}

// The forms of a list.
fn parts(form: &Sexpr) -> Option<&[Sexpr]>
    ensures some { IfSome result (λ forms.
        form.now ≡ plain_list (span_of form.now) (plain_forms forms.now)) }
    ensures none { IfNone result (spec.is_form_list form.now ≡ false) }
{
    match form.shape() {
        Shape::List(forms) => Some(forms),
        Shape::Name(_) => None,
        Shape::Int(_) => None,
        Shape::Text(_) => None,
    }
}

// Whether the name stands for anything.
fn is_blank(name: &str) -> bool
    ensures { result ≡ spec.is_blank name.now }
{
    name == "_"
}

fn is_named(name: &str, form: &Sexpr) -> bool
    ensures { result ≡ spec.is_name_form name.now form.now }
{
    match form.shape() {
        Shape::Name(other) => name == other.as_str(),
        _ => false,
    }
}

fn is_int(value: i64, form: &Sexpr) -> bool
    ensures { result ≡ spec.is_int_form value form.now }
{
    match form.shape() {
        Shape::Int(other) => value == other,
        _ => false,
    }
}

fn is_text(content: &str, form: &Sexpr) -> bool
    ensures { result ≡ spec.is_text_form content.now form.now }
{
    match form.shape() {
        Shape::Text(other) => content == other,
        _ => false,
    }
}
