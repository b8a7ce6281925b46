//! The functions of servers, as the arguments name them.

ghost use Rattle.std.specs.Prelude.{◌≡◌, ◌++◌, IfOk, IfErr, None, OnOk, map, option_map};
ghost use Rattle.cml_host.specs.{Refused.{RefusesAs}, Scripts.{plain_script}, Servers.{IsNoFunction, numbers_in, unknown_line}};
ghost use Rattle.cml_host.specs.Servers as spec;

use crate::refusal::Refusal;
use crate::script::Script;
use cml_phrase::function_name;
use std::alloc::{AllocError, Global};

/// The numbers of the functions of these names.
///
/// # Errors
/// The first name that no function of the script has; or out of memory.
pub fn find_servers(alloc: Global, script: &Script, names: &[&str]) -> Result<Vec<u32>, Refusal>
    ensures known { IfOk result (λ _. spec.first_unknown (plain_script script.now) (map (λ name. name.now) names.now) ≡ None) }
    ensures found { IfOk result (λ servers. servers.items ≡ spec.server_numbers (plain_script script.now) (map (λ name. name.now) names.now)) }
    ensures err { IfErr result (RefusesAs (IsNoFunction (plain_script script.now) (map (λ name. name.now) names.now))) }
{
    match first_unknown(script, names) {
        Some(name) => Err(Refusal::Told(told_unknown(alloc, name)?, 1)),
        None => Ok(numbers(alloc, script, names)?),
    }
}

// The first of these names that no function of the script has.
fn first_unknown<'a>(script: &Script, names: &[&'a str]) -> Option<&'a str>
    ensures { option_map (λ name. name.now) result ≡ spec.first_unknown (plain_script script.now) (map (λ name. name.now) names.now) }
{
    for name in names {
        if function_number(script, name).is_none() {
            return Some(*name);
        }
    }
    None
}

// The numbers of the functions of these names.
fn numbers(alloc: Global, script: &Script, names: &[&str]) -> Result<Vec<u32>, AllocError>
    ensures { IfOk result (λ found. found.items ≡ spec.server_numbers (plain_script script.now) (map (λ name. name.now) names.now)) }
{
    let mut found = Vec::new(alloc);
    for name in names {
        push_number(&mut found, script, name)?;
    }
    Ok(found)
}

// Appends the number of the function of this name, if there is one.
fn push_number(found: &mut Vec<u32>, script: &Script, name: &str) -> Result<(), AllocError>
    ensures { OnOk result (found.new.items ≡ found.old.items ++ numbers_in (spec.function_numbered (plain_script script.now) name.now)) }
{
    match function_number(script, name) {
        Some(func) => Ok(found.push(func)?),
        None => Ok(()),
    }
}

// What is said where no function has this name.
fn told_unknown(alloc: Global, name: &str) -> Result<Vec<u8>, AllocError>
    ensures { IfOk result (λ told. told.items ≡ unknown_line name.now) }
{
    Ok(format!(in alloc; "no function {name}\n")?.into_bytes())
}

// The number of the function of this name.
#[tactic(auto, using(crate::proofs::ServerLemmas::found_on))]
fn function_number(script: &Script, name: &str) -> Option<u32>
    ensures { result ≡ spec.function_numbered (plain_script script.now) name.now }
{
    let count = script.program.size().functions;
    let forms = script.forms.as_slice();
    for func in 0..count {
        if function_name(forms, func) == name {
            return Some(func);
        }
    }
    None
}
