//! Properties in words, as they are read.

use crate::pattern::Pattern;
use crate::property::Property;
use cml_text::{Sexpr, Shape};
use std::fmt;
use std::fmt::Write;

impl fmt::Display for Pattern {
    fn fmt<W: fmt::Write>(&self, f: &mut fmt::Formatter<W>) -> fmt::Result {
        write_form(self.form(), f)
    }
}

impl fmt::Display for Property {
    fn fmt<W: fmt::Write>(&self, f: &mut fmt::Formatter<W>) -> fmt::Result {
        let word = self.kind().word();
        match self {
            Property::Never(pattern) | Property::Always(pattern) | Property::Once(pattern) => {
                write!(f, "{word} {pattern}")
            }
            Property::Before { first, later } => write!(f, "{word} {first} {later}"),
            Property::SameLines | Property::SameOrder | Property::Empty => write!(f, "{word}"),
        }
    }
}

// Writes a form as it is printed.
fn write_form<W: fmt::Write>(form: &Sexpr, f: &mut fmt::Formatter<W>) -> fmt::Result {
    let forms = match form.shape() {
        Shape::Name(name) => return f.write_str(name.as_str()),
        Shape::Int(value) => return write!(f, "{value}"),
        Shape::Text(content) => return write_quoted(content, f),
        Shape::List(forms) => forms,
    };
    f.write_char('(')?;
    for (index, form) in forms.iter().enumerate() {
        if index > 0 {
            f.write_char(' ')?;
        }
        write_form(form, f)?;
    }
    f.write_char(')')
}

// Writes a text literal that stands for the content.
fn write_quoted<W: fmt::Write>(content: &str, f: &mut fmt::Formatter<W>) -> fmt::Result {
    f.write_char('"')?;
    for character in content.chars() {
        match character {
            '"' => f.write_str("\\\"")?,
            '\\' => f.write_str("\\\\")?,
            '\n' => f.write_str("\\n")?,
            _ => f.write_char(character)?,
        }
    }
    f.write_char('"')
}
