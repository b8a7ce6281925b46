//! The statements of a script's functions, and where they stand.
ghost use Rattle.std.specs.Prelude.{◌≡◌, ◌++◌, ◌∷◌, [], ℕ, List, Ok, IfOk, OnOk, IfSome, length, map, slice_get};
ghost use Rattle.cml_text.specs.Forms.{plain_forms, span_of};
ghost use Rattle.cml_check.specs.{Shape.{shape}, Sizes.{stmts_count}, Syntax.{PlainItem, written}};
ghost use Rattle.cml_phrase.specs.declared.keyword.Keyword.TheVariants as keywords;
ghost use Rattle.cml_phrase.specs.Statements as spec;

use crate::keyword::{Keyword, keyword_of};
use crate::parts::{headed, parts};
use cml_text::{Sexpr, Span};
use std::alloc::{AllocError, Global};

// Adds the statements that these forms are.
#[cycle(statements)]
#[tactic(auto, using(crate::proofs::StatementLemmas::statements_next, crate::proofs::StatementLemmas::statements_all))]
fn add_statements<'a>(found: &mut Vec<&'a Sexpr>, forms: &'a [Sexpr]) -> Result<(), AllocError>
    ensures { OnOk result (map (λ s. s.now) found.new.items
        ≡ map (λ s. s.now) found.old.items ++ spec.all_statements (plain_forms forms.now)) }
{
    for form in forms {
        add_statement(found, form)?;
    }
    Ok(())
}

// Adds one more.
fn add_own<'a>(found: &mut Vec<&'a Sexpr>, form: &'a Sexpr) -> Result<(), AllocError>
    ensures { OnOk result (map (λ s. s.now) found.new.items
        ≡ map (λ s. s.now) found.old.items ++ form.now ∷ []) }
{
    Ok(found.push(form)?)
}

// Adds the statement that the form is, and those inside it.
#[cycle(statements)]
#[tactic(auto, using(crate::proofs::StatementLemmas::headed_statements, crate::proofs::StatementLemmas::no_statements))]
fn add_statement<'a>(found: &mut Vec<&'a Sexpr>, form: &'a Sexpr) -> Result<(), AllocError>
    ensures { OnOk result (map (λ s. s.now) found.new.items
        ≡ map (λ s. s.now) found.old.items ++ spec.statements_in form.now) }
{
    add_own(found, form)?;
    match headed(form) {
        Some((first, behind)) => {
            add_inner(found, keyword_of(first), behind)?;
            Ok(())
        }
        None => Ok(()),
    }
}

// Adds those inside a statement, by its keyword and the forms after it.
#[cycle(statements)]
#[tactic(auto, using(crate::proofs::StatementLemmas::none_added))]
fn add_inner<'a>(
    found: &mut Vec<&'a Sexpr>,
    keyword: Keyword,
    behind: &'a [Sexpr],
) -> Result<(), AllocError>
    ensures { OnOk result (map (λ s. s.now) found.new.items
        ≡ map (λ s. s.now) found.old.items ++ spec.inner_statements keyword (plain_forms behind.now)) }
{
    match keyword {
        Keyword::If => add_branches(found, behind),
        Keyword::Tested => add_body(found, behind),
        _ => Ok(()),
    }
}

// Adds those of two branches, behind the condition.
#[cycle(statements)]
#[tactic(auto, using(crate::proofs::StatementLemmas::no_branches))]
fn add_branches<'a>(found: &mut Vec<&'a Sexpr>, behind: &'a [Sexpr]) -> Result<(), AllocError>
    ensures { OnOk result (map (λ s. s.now) found.new.items
        ≡ map (λ s. s.now) found.old.items ++ spec.inner_statements keywords.If (plain_forms behind.now)) }
{
    let [_, then, other] = behind else {
        return Ok(());
    };
    add_both(found, then, other)?;
    Ok(())
}

// Adds those of one branch and then of another.
#[cycle(statements)]
#[tactic(auto, using(crate::proofs::StatementLemmas::both_added))]
fn add_both<'a>(
    found: &mut Vec<&'a Sexpr>,
    then: &'a Sexpr,
    other: &'a Sexpr,
) -> Result<(), AllocError>
    ensures { OnOk result (map (λ s. s.now) found.new.items
        ≡ map (λ s. s.now) found.old.items ++ (spec.block_statements then.now ++ spec.block_statements other.now)) }
{
    add_block(found, then)?;
    add_block(found, other)?;
    Ok(())
}

// Adds those behind a condition.
#[cycle(statements)]
#[tactic(auto, using(crate::proofs::StatementLemmas::no_body))]
fn add_body<'a>(found: &mut Vec<&'a Sexpr>, behind: &'a [Sexpr]) -> Result<(), AllocError>
    ensures { OnOk result (map (λ s. s.now) found.new.items
        ≡ map (λ s. s.now) found.old.items ++ spec.inner_statements keywords.Tested (plain_forms behind.now)) }
{
    let [_, body @ ..] = behind else {
        return Ok(());
    };
    add_statements(found, body)?;
    Ok(())
}

// Adds those of a branch.
#[cycle(statements)]
#[tactic(auto, using(crate::proofs::StatementLemmas::headed_block, crate::proofs::StatementLemmas::no_block))]
fn add_block<'a>(found: &mut Vec<&'a Sexpr>, form: &'a Sexpr) -> Result<(), AllocError>
    ensures { OnOk result (map (λ s. s.now) found.new.items
        ≡ map (λ s. s.now) found.old.items ++ spec.block_statements form.now) }
{
    match headed(form) {
        Some((_, behind)) => {
            add_statements(found, behind)?;
            Ok(())
        }
        None => Ok(()),
    }
}

/// The statements of the function that an item is, in the order of the text.
pub(crate) fn statements(alloc: Global, item: &Sexpr) -> Result<Vec<&Sexpr>, AllocError>
    ensures { IfOk result (λ found. map (λ s. s.now) found.items ≡ spec.item_statements item.now) }
{
    let mut found = Vec::new(alloc);
    add_body_of(&mut found, parts(item))?;
    Ok(found)
}

// Adds the statements of the function whose parts these are.
#[tactic(auto, using(crate::proofs::StatementLemmas::short_function))]
fn add_body_of<'a>(found: &mut Vec<&'a Sexpr>, forms: &'a [Sexpr]) -> Result<(), AllocError>
    ensures { OnOk result (map (λ s. s.now) found.new.items
        ≡ map (λ s. s.now) found.old.items ++ spec.body_statements (plain_forms forms.now)) }
{
    let [_, _, _, body @ ..] = forms else {
        return Ok(());
    };
    add_statements(found, body)?;
    Ok(())
}

/// Where the statements of the function of this number stand in the text of these forms: the span of the form of each, in the order of
/// the text, which is that of the function's instructions. Where the forms are a program, there is one for each instruction.
///
/// # Errors
/// Out of memory.
#[tactic(auto, using(crate::proofs::StatementCounts::each_span))]
pub fn statement_spans(alloc: Global, forms: &[Sexpr], func: u32) -> Result<Vec<Span>, AllocError>
    ensures spans { IfOk result (λ spans. spans.items ≡ spec.spans_of (slice_get forms.now func)) }
    ensures each { (program : List (PlainItem ℕ)) → shape forms.now ≡ Ok (map written program) →
        IfOk result (λ spans. IfSome (slice_get program func)
        (λ f. length spans.items ≡ stmts_count f.body)) }
{
    let spans = function_spans(alloc, forms, func)?;
    Ok(spans)
}

// The same.
fn function_spans(alloc: Global, forms: &[Sexpr], func: u32) -> Result<Vec<Span>, AllocError>
    ensures { IfOk result (λ spans. spans.items ≡ spec.spans_of (slice_get forms.now func)) }
{
    match forms.get(func as usize) {
        Some(item) => spans_in(alloc, item),
        None => Ok(Vec::new(alloc)),
    }
}

// Where the statements of an item stand.
fn spans_in(alloc: Global, item: &Sexpr) -> Result<Vec<Span>, AllocError>
    ensures { IfOk result (λ spans. spans.items ≡ map span_of (spec.item_statements item.now)) }
{
    let found = statements(alloc, item)?;
    spans(alloc, found.as_slice())
}

// Where these forms stand.
fn spans(alloc: Global, forms: &[&Sexpr]) -> Result<Vec<Span>, AllocError>
    ensures { IfOk result (λ spans. spans.items ≡ map span_of (map (λ s. s.now) forms.now)) }
{
    let mut spans = Vec::new(alloc);
    for form in forms {
        spans.push(form.span())?;
    }
    Ok(spans)
}
