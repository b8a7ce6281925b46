//! Where a form stands in a script.

ghost use Rattle.std.specs.{Prelude.{◌≡◌, None}, Option.{option_map}};
ghost use Rattle.cml_text.specs.Forms.{plain_forms};
ghost use Rattle.cml_explain.specs.Views.{plain_stand};
ghost use Rattle.cml_explain.specs.Stands as spec;

use crate::keyword::{Role, keyword_entry};
use cml_check::{Word, word_from};
use cml_text::{Sexpr, Shape};

/// A form, what it is, and of the list whose part it is, the keyword with which that begins, and how many parts there are behind the first.
#[derive(Clone, Copy)]
pub struct Stand<'a> {
    pub role: Role,
    pub word: Option<Word>,
    pub given: usize,
    pub form: &'a Sexpr,
}

// The keyword with which these forms begin.
fn first_word(forms: &[Sexpr]) -> Option<Word>
    ensures { result ≡ spec.first_word (plain_forms forms.now) }
{
    match forms {
        [] => None,
        [first, ..] => word_from(first),
    }
}

// What the part of this number is, where the first is the keyword.
fn nth_role(k: usize, first: Role, second: Role, others: Role) -> Role
    ensures { result ≡ spec.nth_role k first second others }
{
    match k {
        0 => Role::Keyword,
        1 => first,
        2 => second,
        _ => others,
    }
}

// What the part of this number is, in a list that begins with this keyword.
fn role_at(k: usize, word: Option<Word>) -> Role
    ensures { result ≡ spec.role_at k word }
{
    match word {
        Some(word) => {
            let keyword = keyword_entry(word);
            nth_role(k, keyword.first, keyword.second, keyword.others)
        }
        None => nth_role(k, Role::Value, Role::Value, Role::Value),
    }
}

// What the part of this number is, in a list of this role.
fn part_role(k: usize, role: Role, word: Option<Word>) -> Role
    ensures { result ≡ spec.part_role k role word }
{
    match role {
        Role::Parameters => Role::Parameter,
        _ => role_at(k, word),
    }
}

// The form that starts at this byte, where it is this one or stands inside it.
#[cycle(stand)]
#[tactic(auto, using(crate::proofs::StandLemmas::stand_here, crate::proofs::StandLemmas::stand_below, crate::proofs::StandLemmas::stand_name, crate::proofs::StandLemmas::stand_int, crate::proofs::StandLemmas::stand_text))]
fn stand_in(
    form: &Sexpr,
    at: usize,
    role: Role,
    word: Option<Word>,
    given: usize,
) -> Option<Stand<'_>>
    ensures { option_map plain_stand result ≡ spec.standing_in at role word given form.now }
{
    if form.span().start == at {
        return Some(Stand {
            role,
            word,
            given,
            form,
        });
    }
    match form.shape() {
        Shape::List(forms) => {
            let word = first_word(forms);
            stand_among(forms, at, role, word, forms.len().saturating_sub(1))
        }
        Shape::Name(_) => None,
        Shape::Int(_) => None,
        Shape::Text(_) => None,
    }
}

// The same among the parts of a list of this role.
#[cycle(stand)]
fn stand_among(
    forms: &[Sexpr],
    at: usize,
    role: Role,
    word: Option<Word>,
    given: usize,
) -> Option<Stand<'_>>
    ensures { option_map plain_stand result
        ≡ spec.stand_among at role word given 0 (plain_forms forms.now) }
{
    for (k, form) in forms.iter().enumerate() {
        if at < form.span().end {
            return stand_in(form, at, part_role(k, role, word), word, given);
        }
    }
    None
}

/// The first item that ends behind this byte.
pub fn item_over(at: usize, items: &[Sexpr]) -> Option<&Sexpr>
    ensures { option_map (λ item. item.now) result ≡ spec.item_over at items.now }
{
    items.iter().find(|item| at < item.span().end)
}

/// The form of a script that starts at this byte.
pub fn stand_at(at: usize, items: &[Sexpr]) -> Option<Stand<'_>>
    ensures { option_map plain_stand result ≡ spec.standing_at at items.now }
{
    let item = item_over(at, items)?;
    stand_in(item, at, Role::Item, None, 0)
}
