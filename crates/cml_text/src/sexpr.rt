//! The forms of a text, each with the bytes that spell it.
ghost use Rattle.std.specs.Prelude.{◌≡◌, ◌++◌, IsTrue, OnOk};

use crate::printer::push_quoted;
use std::alloc::AllocError;
use std::fmt::Write;
use std::marker::Model;

/// The bytes of a text from `start` up to `end`.
#[derive(Clone, Copy, PartialEq, Eq)]
pub struct Span {
    pub start: usize,
    pub end: usize,
}

/// The spelling of a name. Every value of this type is spelled as one.
#[derive(Drop)]
pub struct Name {
    spelling: String,
}

impl Model for Name {
    ghost use Rattle.std.specs.Prelude.{ℕ, List, IsTrue};

    ghost Value = { List ℕ };

    ghost use Rattle.std.specs.String.{string_bytes};
    ghost use Rattle.cml_text.specs.Lexemes.{is_name};

    ghost view = { λ name. string_bytes name.spelling };

    ghost invariant = { λ name. IsTrue (is_name (string_bytes name.spelling)) };
}

impl Name {
    ghost use Rattle.std.specs.String.{string_bytes};
    ghost use Rattle.cml_text.specs.Lexemes.{is_name};

    /// A name with this spelling.
    pub(crate) fn new(spelling: String) -> Name
        requires { IsTrue (is_name (string_bytes spelling)) }
        ensures { result ≡ string_bytes spelling }
    {
        Name { spelling }
    }

    /// How the name is spelled.
    pub fn as_str(&self) -> &str
        ensures spelling { result.now ≡ self.now }
        ensures name { IsTrue (is_name self.now) }
    {
        self.spelling.as_str()
    }
}

/// A form: a name, a number, a text or a list, and where it stands.
///
/// Forms are made by reading a text, so they nest at most 256 deep.
#[cycle(data)]
#[derive(Drop)]
pub struct Sexpr {
    span: Span,
    node: Node,
}

#[cycle(data)]
#[derive(Drop)]
enum Node {
    Name(Name),
    Int(i64),
    Text(String),
    List(Vec<Sexpr>),
}

impl Model for Sexpr {
    ghost use Rattle.cml_text.specs.{Forms.{PlainSexpr, nesting}, FormCodes.{form_code}};

    ghost Value = { PlainSexpr };

    ghost coded = { form_code };

    ghost use Rattle.cml_text.specs.FormViews.{form_of};

    ghost view = { λ form. form_of form.span form.node };

    ghost size = { nesting };

    ghost use Rattle.cml_text.specs.FormFalls.{deep_le-nesting};

    ghost size_decreases = { λ form h. deep_le-nesting form.span form.node };
}

/// What kind of form it is, and what it holds.
#[derive(Clone, Copy)]
pub enum Shape<'a> {
    Name(&'a Name),
    Int(i64),
    Text(&'a str),
    List(&'a [Sexpr]),
}

impl Sexpr {
    ghost use Rattle.std.specs.String.{string_bytes};
    ghost use Rattle.cml_text.specs.{Forms.{span_of, plain_name, plain_int, plain_text, plain_list, plain_forms}, Shapes.{HasShape}, Printed.{printed_form}};

    pub(crate) fn name(span: Span, name: Name) -> Sexpr
        ensures { result ≡ plain_name span name }
    {
        Sexpr {
            span,
            node: Node::Name(name),
        }
    }

    pub(crate) fn int(span: Span, value: i64) -> Sexpr
        ensures { result ≡ plain_int span value }
    {
        Sexpr {
            span,
            node: Node::Int(value),
        }
    }

    pub(crate) fn text(span: Span, content: String) -> Sexpr
        ensures { result ≡ plain_text span (string_bytes content) }
    {
        Sexpr {
            span,
            node: Node::Text(content),
        }
    }

    pub(crate) fn list(span: Span, forms: Vec<Sexpr>) -> Sexpr
        ensures { result ≡ plain_list span (plain_forms forms.items) }
    {
        Sexpr {
            span,
            node: Node::List(forms),
        }
    }

    /// The bytes that spell the form.
    pub fn span(&self) -> Span
        ensures { result ≡ span_of self.now }
    {
        self.span
    }

    /// What kind of form it is, and what it holds.
    pub fn shape(&self) -> Shape<'_>
        ensures { HasShape result self.now }
    {
        match &self.node {
            Node::Name(name) => Shape::Name(name),
            Node::Int(value) => Shape::Int(*value),
            Node::Text(content) => Shape::Text(content.as_str()),
            Node::List(forms) => Shape::List(forms.as_slice()),
        }
    }

    /// Appends the form as it is printed.
    pub(crate) fn push_to(&self, text: &mut String) -> Result<(), AllocError>
        ensures { OnOk result
            (string_bytes text.new ≡ string_bytes text.old ++ printed_form self.now) }
    {
        match &self.node {
            Node::Name(name) => text.push_str(name.as_str()),
            Node::Int(value) => write!(text, "{value}"),
            Node::Text(content) => push_quoted(text, content.as_str()),
            Node::List(forms) => {
                text.push('(')?;
                let mut is_first = true;
                for form in forms {
                    if !is_first {
                        text.push(' ')?;
                    }
                    is_first = false;
                    form.push_to(text)?;
                }
                text.push(')')
            }
        }
    }
}
