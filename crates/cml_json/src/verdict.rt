//! What `verify` tells.

ghost use Rattle.std.specs.Prelude.{◌≡◌, ◌++◌, IfOk, OnOk, map};
ghost use Rattle.cml_json.specs.Json.{array, optional};
ghost use Rattle.cml_json.specs.Verdicts as spec;

use crate::run::push_run;
use crate::text::{
    push_comma, push_null, push_number, push_optional_number, push_string, push_truth,
};
use cml_explore::{EndTold, EndsTold, FaultTold};
use cml_text::Sexpr;
use std::alloc::{AllocError, Global};

/// What `verify` found of a script.
#[derive(Clone, Copy)]
pub struct Verified<'a> {
    /// The name of the script.
    pub name: &'a str,
    /// Its forms.
    pub forms: &'a [Sexpr],
    /// The functions of servers.
    pub servers: &'a [u32],
    /// How many states there are.
    pub states: usize,
    /// Up to how many items the schedules were examined, if not all were.
    pub reach: Option<usize>,
    /// What is told of the ends.
    pub ends: &'a EndsTold,
    /// What is told of the faults.
    pub faults: &'a [FaultTold],
    /// How many items a schedule has that can't go on to an end, if there is one.
    pub unending: Option<usize>,
    /// Whether nothing bad was found.
    pub clean: bool,
}

// Appends a class of ends.
#[tactic(auto, unfolding(crate::specs::Verdicts::end_json))]
fn push_end(
    alloc: Global,
    text: &mut Vec<u8>,
    forms: &[Sexpr],
    servers: &[u32],
    end: &EndTold,
) -> Result<(), AllocError>
    ensures { OnOk result (text.new.items ≡ text.old.items ++ spec.end_json forms.now servers.now end.now) }
{
    push_truth(text, b"{\"good\":", end.well)?;
    push_number(alloc, text, b",\"items\":", end.items as u64)?;
    push_run(alloc, text, b",\"run\":", forms, servers, &end.run)?;
    text.extend_from_slice(b"}")
}

// Appends the class of ends of this number, or `null`.
#[tactic(auto, unfolding(crate::specs::Json::optional))]
fn push_some_end(
    alloc: Global,
    text: &mut Vec<u8>,
    forms: &[Sexpr],
    servers: &[u32],
    ends: &[EndTold],
    number: usize,
) -> Result<(), AllocError>
    ensures { OnOk result (text.new.items ≡ text.old.items ++ spec.numbered_json forms.now servers.now ends.now number) }
{
    match ends.get(number) {
        Some(end) => push_end(alloc, text, forms, servers, end),
        None => push_null(text, b""),
    }
}

// Appends a list of those of these numbers.
#[tactic(auto, unfolding(crate::specs::Json::array))]
fn push_ends(
    alloc: Global,
    text: &mut Vec<u8>,
    forms: &[Sexpr],
    servers: &[u32],
    ends: &[EndTold],
    order: &[usize],
) -> Result<(), AllocError>
    ensures { OnOk result (text.new.items ≡ text.old.items ++ array (map (spec.numbered_json forms.now servers.now ends.now) order.now)) }
{
    text.extend_from_slice(b"[")?;
    for place in 0..order.len() {
        push_comma(text, place)?;
        push_some_end(alloc, text, forms, servers, ends, order[place])?;
    }
    text.extend_from_slice(b"]")
}

// The number of a thread, if there is one, in 64 bits.
fn thread_number(thread: Option<u32>) -> Option<u64>
    ensures { result ≡ thread }
{
    match thread {
        Some(number) => Some(u64::from(number)),
        None => None,
    }
}

// Appends a fault.
#[tactic(auto, unfolding(crate::specs::Verdicts::fault_json))]
fn push_fault(
    alloc: Global,
    text: &mut Vec<u8>,
    forms: &[Sexpr],
    servers: &[u32],
    fault: &FaultTold,
) -> Result<(), AllocError>
    ensures { OnOk result (text.new.items ≡ text.old.items ++ spec.fault_json forms.now servers.now fault.now) }
{
    push_number(alloc, text, b"{\"items\":", fault.items as u64)?;
    push_optional_number(alloc, text, b",\"thread\":", thread_number(fault.thread))?;
    push_run(alloc, text, b",\"run\":", forms, servers, &fault.run)?;
    text.extend_from_slice(b"}")
}

// Appends a list of faults.
#[tactic(auto, unfolding(crate::specs::Json::array))]
fn push_faults(
    alloc: Global,
    text: &mut Vec<u8>,
    forms: &[Sexpr],
    servers: &[u32],
    faults: &[FaultTold],
) -> Result<(), AllocError>
    ensures { OnOk result (text.new.items ≡ text.old.items ++ array (map (spec.fault_json forms.now servers.now) faults.now)) }
{
    text.extend_from_slice(b"[")?;
    for place in 0..faults.len() {
        push_comma(text, place)?;
        push_fault(alloc, text, forms, servers, &faults[place])?;
    }
    text.extend_from_slice(b"]")
}

// The verdict.
#[tactic(auto, unfolding(crate::specs::Verdicts::verdict_name))]
fn verdict_name(reach: Option<usize>, clean: bool) -> &'static str
    ensures { result.now ≡ spec.verdict_name reach clean }
{
    if !clean {
        "bad"
    } else if reach.is_some() {
        "bound"
    } else {
        "good"
    }
}

impl Verified<'_> {
    // Appends how far the search came.
    #[tactic(auto, unfolding(crate::specs::Verdicts::search_members))]
    fn push_search(&self, alloc: Global, text: &mut Vec<u8>) -> Result<(), AllocError>
        ensures { OnOk result (text.new.items ≡ text.old.items ++ spec.search_members self.now.name.now self.now.states self.now.reach) }
    {
        push_string(text, b"{\"command\":", b"verify")?;
        push_string(text, b",\"script\":", self.name.as_bytes())?;
        push_number(alloc, text, b",\"states\":", self.states as u64)?;
        push_truth(text, b",\"whole\":", self.reach.is_none())?;
        push_optional_number(alloc, text, b",\"items\":", wide(self.reach))
    }

    // Appends what it found.
    #[tactic(auto, unfolding(crate::specs::Verdicts::found_members))]
    fn push_found(&self, alloc: Global, text: &mut Vec<u8>) -> Result<(), AllocError>
        ensures { OnOk result (text.new.items ≡ text.old.items ++ spec.found_members self.now.forms.now self.now.servers.now self.now.ends.now self.now.faults.now) }
    {
        let ends = self.ends.classes.as_slice();
        let order = self.ends.order.as_slice();
        text.extend_from_slice(b",\"ends\":")?;
        push_ends(alloc, text, self.forms, self.servers, ends, order)?;
        text.extend_from_slice(b",\"faults\":")?;
        push_faults(alloc, text, self.forms, self.servers, self.faults)
    }
}

// A number, if there is one, in 64 bits.
fn wide(number: Option<usize>) -> Option<u64>
    ensures { result ≡ number }
{
    match number {
        Some(number) => Some(number as u64),
        None => None,
    }
}

/// What `verify` tells, as an object and a line feed.
///
/// # Errors
/// Out of memory.
#[tactic(auto, unfolding(crate::specs::Verdicts::verify_json, crate::specs::Verdicts::search_members, crate::specs::Verdicts::found_members))]
pub fn verify_json(alloc: Global, found: &Verified<'_>) -> Result<Vec<u8>, AllocError>
    ensures { let v = found.now in
        IfOk result (λ text. text.items ≡ spec.verify_json v.name.now v.forms.now v.servers.now v.states v.reach v.ends.now v.faults.now v.unending v.clean) }
{
    let mut text = Vec::new(alloc);
    found.push_search(alloc, &mut text)?;
    found.push_found(alloc, &mut text)?;
    push_optional_number(alloc, &mut text, b",\"unending\":", wide(found.unending))?;
    let verdict = verdict_name(found.reach, found.clean);
    push_string(&mut text, b",\"verdict\":", verdict.as_bytes())?;
    text.extend_from_slice(b"}\n")?;
    Ok(text)
}
