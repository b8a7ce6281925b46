//! Which of several names is nearest to one.

ghost use Rattle.std.specs.{Prelude.{◌≡◌, drop, find, map}, Option.{option_map}, Str.{bytes_eq}};
ghost use Rattle.cml_explain.specs.Names as spec;

use crate::keyword::spellings;

// What is left of two names behind the letters with which both begin.
#[tactic(auto, using(crate::proofs::NearLemmas::common_same, crate::proofs::NearLemmas::common_other, crate::proofs::NearLemmas::common_short, crate::proofs::NearLemmas::common_end))]
fn past_common<'a>(first: &'a [u8], second: &'a [u8]) -> (&'a [u8], &'a [u8])
    ensures { (result.0.now, result.1.now) ≡ spec.past_common first.now second.now }
{
    for (k, letter) in first.iter().enumerate() {
        if k == second.len() {
            return (&first[k..], &second[k..]);
        }
        if *letter != second[k] {
            return (&first[k..], &second[k..]);
        }
    }
    (&first[first.len()..], &second[first.len()..])
}

// Whether the names are the same.
fn same(first: &[u8], second: &[u8]) -> bool
    ensures { result ≡ bytes_eq first.now second.now }
{
    first == second
}

// The name without its first letter.
fn shorter(name: &[u8]) -> &[u8]
    ensures { result.now ≡ drop 1 name.now }
{
    match name {
        [] => name,
        [_, later @ ..] => later,
    }
}

// Whether the names differ by one letter at most.
fn within_one(first: &[u8], second: &[u8]) -> bool
    ensures { result ≡ spec.within_one first.now second.now }
{
    let (first, second) = past_common(first, second);
    same(shorter(first), second)
        || same(first, shorter(second))
        || same(shorter(first), shorter(second))
}

// Whether the names differ by two letters at most.
fn within_two(first: &[u8], second: &[u8]) -> bool
    ensures { result ≡ spec.within_two first.now second.now }
{
    let (first, second) = past_common(first, second);
    within_one(shorter(first), second)
        || within_one(first, shorter(second))
        || within_one(shorter(first), shorter(second))
}

/// Whether the other name differs from this one by one letter at most, and not by all.
pub fn is_next(name: &str, other: &str) -> bool
    ensures { result ≡ spec.is_next name.now other.now }
{
    name.len() > 1 && within_one(name.as_bytes(), other.as_bytes())
}

/// Whether the other name differs from this one by two letters at most, and not by all.
pub fn is_close(name: &str, other: &str) -> bool
    ensures { result ≡ spec.is_close name.now other.now }
{
    name.len() > 2 && within_two(name.as_bytes(), other.as_bytes())
}

// The first of these names that differs from a name by one letter.
fn first_next<'a>(name: &str, found: &[&'a str]) -> Option<&'a str>
    ensures { result ≡ find (λ other. spec.is_next name.now other.now) found.now }
{
    found.iter().copied().find(|other| is_next(name, other))
}

// The first of these names that differs from a name by two letters at most.
fn first_close<'a>(name: &str, found: &[&'a str]) -> Option<&'a str>
    ensures { result ≡ find (λ other. spec.is_close name.now other.now) found.now }
{
    found.iter().copied().find(|other| is_close(name, other))
}

// The same by what the names are.
fn next_name<'a>(name: &str, found: &[&'a str]) -> Option<&'a str>
    ensures { option_map (λ other. other.now) result
        ≡ find (spec.is_next name.now) (map (λ other. other.now) found.now) }
{
    first_next(name, found)
}

// The same by what the names are.
fn close_name<'a>(name: &str, found: &[&'a str]) -> Option<&'a str>
    ensures { option_map (λ other. other.now) result
        ≡ find (spec.is_close name.now) (map (λ other. other.now) found.now) }
{
    first_close(name, found)
}

// The nearest of these names, if one is near.
#[tactic(auto, using(crate::proofs::OptionLemmas::or_first, crate::proofs::OptionLemmas::or_second))]
fn nearest_name<'a>(name: &str, found: &[&'a str]) -> Option<&'a str>
    ensures { option_map (λ other. other.now) result
        ≡ spec.nearest (λ other. other) name.now (map (λ other. other.now) found.now) }
{
    match next_name(name, found) {
        Some(other) => Some(other),
        None => close_name(name, found),
    }
}

/// How the keyword is spelled that is nearest to a name, if one is near.
pub fn nearest_keyword(name: &str) -> Option<&'static str>
    ensures { option_map (λ spelling. spelling.now) result ≡ spec.keyword_near name.now }
{
    nearest_name(name, spellings())
}
