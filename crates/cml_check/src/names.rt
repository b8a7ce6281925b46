//! The names that a script declares, each at its position.

ghost use Rattle.std.specs.{Prelude.{◌≡◌, ◌<◌, false, List, [], length, IfSome, IfNone, IfOk, OnOk, OnErr, true, position, map}, String.{string_bytes}};
ghost use Rattle.std.specs.Str.{bytes_eq};
ghost use Rattle.cml_check.specs.{Checked.{Finds}, Names.{has_name, with_name, AreDistinct}, Syntax.{name_at}};
ghost use Rattle.cml_check.specs.Names as spec;

use crate::fault::{CheckFault, CheckKind, fault_at};
use crate::word::word_of;
use cml_text::{Sexpr, Shape};
use indexmap::IndexSet;
use std::alloc::{AllocError, Global};
use std::marker::Model;

/// Names, none twice, each at the position at which it was declared.
#[derive(Drop)]
pub struct Names<'a> {
    set: IndexSet<&'a str>,
}

impl<'a> Model for Names<'a> {
    ghost use Rattle.std.specs.Prelude.{List, map};
    ghost use Rattle.cml_check.specs.{Syntax.{Name}, Names.{AreDistinct}};

    ghost Value = { List Name };

    ghost view = { λ a. map (λ name. name.now) a.set.keys };

    ghost invariant = { λ a. AreDistinct (map (λ name. name.now) a.set.keys) };
}

impl<'a> Names<'a> {
    /// No names.
    pub fn new(alloc: Global) -> Names<'a>
        ensures { result ≡ [] }
    {
        Names {
            set: IndexSet::new(alloc),
        }
    }

    /// How many names there are.
    pub fn len(&self) -> usize
        ensures len { result ≡ length self.now }
        ensures distinct { AreDistinct self.now }
    {
        self.set.len()
    }

    /// The position of a name, if it was declared.
    pub fn position(&self, name: &str) -> Option<usize>
        ensures first { result ≡ position (bytes_eq name.now) self.now }
        ensures below { IfSome result (λ at. at < length self.now) }
    {
        self.set.get_index_of(name)
    }

    /// Whether the name was declared.
    pub fn has(&self, name: &str) -> bool
        ensures { result ≡ has_name self.now name.now }
    {
        self.set.contains(name)
    }

    /// The position of a name, which is declared if it was not.
    pub fn declare(&mut self, name: &'a str) -> Result<usize, AllocError>
        ensures names { OnOk result (self.new ≡ with_name self.old name.now) }
        ensures below { IfOk result (λ slot. slot < length self.new) }
        ensures named { IfOk result (λ slot. name_at self.new slot ≡ name.now) }
    {
        let (slot, _added) = self.set.insert_full(name)?;
        Ok(slot)
    }

    /// The names as texts of their own.
    pub fn to_strings(&self, alloc: Global) -> Result<Vec<String>, AllocError>
        ensures names { IfOk result (λ names. map string_bytes names.items ≡ self.now) }
        ensures distinct { AreDistinct self.now }
    {
        strings(alloc, self.set.as_slice())
    }

    /// The same names.
    pub fn copy(&self) -> Result<Names<'a>, AllocError>
        ensures { IfOk result (λ names. names ≡ self.now) }
    {
        let set = self.set.clone()?;
        Ok(Names { set })
    }
}

// These texts as texts of their own.
fn strings(alloc: Global, texts: &[&str]) -> Result<Vec<String>, AllocError>
    ensures { IfOk result (λ strings.
        map string_bytes strings.items ≡ map (λ text. text.now) texts.now) }
{
    let mut strings = Vec::new(alloc);
    for text in texts {
        strings.push(String::from_str(alloc, text)?)?;
    }
    Ok(strings)
}

/// The name of a function or a variable that the form is.
#[tactic(auto, unfolding(crate::specs::Names::free_name))]
pub fn free_name(form: &Sexpr) -> Result<&str, CheckFault>
    ensures { Finds (λ name. name.now) result (spec.free_name form.now) }
{
    match form.shape() {
        Shape::Name(name) => {
            if word_of(name.as_str()).is_some() {
                return Err(fault_at(CheckKind::Form, form));
            }
            Ok(name.as_str())
        }
        _ => Err(fault_at(CheckKind::Form, form)),
    }
}

/// The position of the declared variable that the form names.
#[tactic(auto, unfolding(crate::specs::Names::variable_in))]
pub fn variable(names: &Names<'_>, form: &Sexpr) -> Result<usize, CheckFault>
    ensures gives { Finds (name_at names.now) result (spec.variable_in names.now form.now) }
    ensures below { IfOk result (λ slot. slot < length names.now) }
{
    let name = free_name(form)?;
    match names.position(name) {
        Some(slot) => Ok(slot),
        None => Err(fault_at(CheckKind::Unbound, form)),
    }
}
