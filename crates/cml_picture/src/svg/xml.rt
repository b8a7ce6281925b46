//! How elements are written in XML.

ghost use Rattle.std.specs.Prelude.{◌≡◌, ◌++◌, ◌∷◌, [], IfOk, OnOk, IsTrue, map, codes};
ghost use Rattle.cml_picture.specs.{WellFormed.{AreAttributes, IsWellFormed, is_tag, declaration}, Views.{attribute_name}};
ghost use Rattle.cml_picture.specs.Xml as spec;

use super::content::Content;
use super::escape::push_escaped;
use std::alloc::{AllocError, Global};

/// An attribute of an element.
#[derive(Clone, Copy)]
pub(crate) struct Attribute<'a> {
    pub(crate) name: &'static str,
    pub(crate) value: &'a [u8],
}

// Appends an attribute.
fn push_attribute(
    alloc: Global,
    out: &mut Vec<u8>,
    attribute: Attribute<'_>,
) -> Result<(), AllocError>
    ensures { OnOk result (out.new.items ≡ out.old.items
        ++ spec.attribute (attribute_name attribute.entry) (spec.escaped_words attribute.entry.value.now)) }
{
    out.extend_from_slice(b" ")?;
    out.extend_from_slice(attribute.name.as_bytes())?;
    out.extend_from_slice(b"='")?;
    push_escaped(alloc, out, attribute.value)?;
    out.extend_from_slice(b"'")
}

// The text of these attributes.
fn attributes_text(alloc: Global, attributes: &[Attribute<'_>]) -> Result<Vec<u8>, AllocError>
    ensures { IfOk result (λ text. AreAttributes (map attribute_name attributes.now) text.items) }
{
    let mut text = Vec::new(alloc);
    for attribute in attributes {
        push_attribute(alloc, &mut text, *attribute)?;
    }
    Ok(text)
}

// The text of an element with nothing in it.
fn lone_text(alloc: Global, name: &str, own: &[u8]) -> Result<Vec<u8>, AllocError>
    ensures { IfOk result (λ text. text.items ≡ spec.lone_element name.now own.now) }
{
    let mut text = Vec::from_slice(alloc, b"<")?;
    text.extend_from_slice(name.as_bytes())?;
    text.extend_from_slice(own)?;
    text.extend_from_slice(b"/>")?;
    Ok(text)
}

// The text of an element.
fn element_text(alloc: Global, name: &str, own: &[u8], inner: &[u8]) -> Result<Vec<u8>, AllocError>
    ensures { IfOk result (λ text. text.items ≡ spec.element name.now own.now inner.now) }
{
    let mut text = Vec::from_slice(alloc, b"<")?;
    text.extend_from_slice(name.as_bytes())?;
    text.extend_from_slice(own)?;
    text.extend_from_slice(b">")?;
    text.extend_from_slice(inner)?;
    text.extend_from_slice(b"</")?;
    text.extend_from_slice(name.as_bytes())?;
    text.extend_from_slice(b">")?;
    Ok(text)
}

impl Content {
    /// Nothing.
    pub(crate) fn new(alloc: Global) -> Content {
        Content {
            text: Vec::new(alloc),
        }
    }

    /// Adds words.
    pub(crate) fn add_words(&mut self, alloc: Global, words: &[u8]) -> Result<(), AllocError> {
        let mut text = Vec::new(alloc);
        push_escaped(alloc, &mut text, words)?;
        self.text.extend_from_slice(text.as_slice())
    }

    /// Adds an element with nothing in it.
    pub(crate) fn add_lone(
        &mut self,
        alloc: Global,
        name: &str,
        attributes: &[Attribute<'_>],
    ) -> Result<(), AllocError>
        requires { IsTrue (is_tag name.now (map attribute_name attributes.now)) }
    {
        let own = attributes_text(alloc, attributes)?;
        let text = lone_text(alloc, name, own.as_slice())?;
        self.text.extend_from_slice(text.as_slice())
    }

    /// Adds an element that holds this.
    pub(crate) fn add_element(
        &mut self,
        alloc: Global,
        name: &str,
        attributes: &[Attribute<'_>],
        inner: &Content,
    ) -> Result<(), AllocError>
        requires { IsTrue (is_tag name.now (map attribute_name attributes.now)) }
    {
        let own = attributes_text(alloc, attributes)?;
        let text = element_text(alloc, name, own.as_slice(), inner.text.as_slice())?;
        self.text.extend_from_slice(text.as_slice())
    }
}

/// A file of one element, which holds this.
pub(crate) fn file_of(
    alloc: Global,
    name: &str,
    attributes: &[Attribute<'_>],
    inner: &Content,
) -> Result<Vec<u8>, AllocError>
    requires { IsTrue (is_tag name.now (map attribute_name attributes.now)) }
    ensures { IfOk result (λ text. ∥ IsWellFormed text.items ∥₁) }
{
    let own = attributes_text(alloc, attributes)?;
    let element = element_text(alloc, name, own.as_slice(), inner.text.as_slice())?;
    let mut text = Vec::from_slice(alloc, b"<?xml version='1.0' encoding='UTF-8'?>\n")?;
    text.extend_from_slice(element.as_slice())?;
    text.extend_from_slice(b"\n")?;
    Ok(text)
}
