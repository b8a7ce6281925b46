//! How a run is closed that has come to its end: its status, and what is said of that end.

ghost use Rattle.std.specs.Prelude.{◌≡◌, ◌&&◌, ◌||◌, IfOk, is_some};
ghost use Rattle.cml_facts.specs.Stuck.{is_stuck};
ghost use Rattle.cml_host.specs.Closed.{IsClosing, MaySay, PlainAsked, is_asked, plain_asked};
ghost use Rattle.cml_host.specs.Closed as closed;
ghost use Rattle.cml_host.specs.Told as spec;

use crate::broken::push_judged;
use crate::script::Script;
use cml_check::Prog;
use cml_facts::ending::{explain_end, is_stuck};
use cml_facts::fault::{faults_of, write_faults};
use cml_hub::{End, Hub};
use cml_judge::{are_all_kept, judge_alone};
use cml_phrase::statement_places;
use cml_properties::Property;
use cml_text::Sexpr;
use std::alloc::{AllocError, Global};

// The status of a run that breaks a property, or is stuck, where it is judged strictly.
const UNWELL: u8 = 6;

/// A script that is spoken of.
#[derive(Drop)]
pub struct Subject<'a> {
    /// The name under which it lies.
    pub name: &'a str,
    /// Its text.
    pub text: Vec<u8>,
    /// Its forms.
    pub forms: Vec<Sexpr>,
}

/// What is asked of the end of a run.
#[derive(Drop)]
pub struct Asked<'a> {
    /// The script, where it is kept.
    pub subject: Option<Subject<'a>>,
    /// Whether the end is explained.
    pub explains: bool,
    /// Whether it is judged strictly.
    pub strict: bool,
    /// The numbers of the functions of servers.
    pub servers: Vec<u32>,
    /// What must hold of the run.
    pub properties: Vec<Property>,
    /// Whether it stops where that does not hold, or a thread ends at a fault.
    pub stops: bool,
}

/// How a run is closed.
#[derive(Drop)]
pub struct Closing {
    /// The status with which it ends.
    pub status: u8,
    /// What is said of its end: nothing, where that is not explained.
    pub words: Vec<u8>,
}

/// The program of the script, and the script as one that is spoken of.
pub fn subject_of<'a>(name: &'a str, script: Script) -> (Prog, Subject<'a>)
    ensures program { result.0 ≡ script.program }
    ensures text { result.1.text.items ≡ script.text.items }
    ensures forms { result.1.forms.items ≡ script.forms.items }
{
    let Script {
        text,
        forms,
        program,
    } = script;
    (program, Subject { name, text, forms })
}

/// The program of the script, and what is asked of the end of its run. Text and forms are kept only where the end is explained, a picture of the
/// run is drawn, or properties are wanted.
pub fn ask<'a>(
    name: &'a str,
    script: Script,
    explains: bool,
    draws: bool,
    strict: bool,
    servers: Vec<u32>,
    properties: Vec<Property>,
    stops: bool,
) -> (Prog, Asked<'a>)
    ensures program { result.0 ≡ script.program }
    ensures asked { let asked : PlainAsked = record { explains = explains; strict = strict; servers = servers.items; properties = properties.items; stops = stops } in
        plain_asked result.1 ≡ asked }
    ensures kept { is_some result.1.subject ≡ explains || (draws || is_asked properties.items) }
{
    let (program, subject) = subject_of(name, script);
    let keeps = either(draws, some_asked(properties.as_slice()));
    let subject = keep_where(subject, explains, keeps);
    let asked = Asked {
        subject,
        explains,
        strict,
        servers,
        properties,
        stops,
    };
    (program, asked)
}

// Whether properties are wanted.
fn some_asked(properties: &[Property]) -> bool
    ensures { result ≡ is_asked properties.now }
{
    !properties.is_empty()
}

// Whether one of them holds.
fn either(one: bool, other: bool) -> bool
    ensures { result ≡ one || other }
{
    one || other
}

// The script, where the end is explained or it is asked for.
fn keep_where<'a>(subject: Subject<'a>, explains: bool, keeps: bool) -> Option<Subject<'a>>
    ensures { is_some result ≡ explains || keeps }
{
    if explains || keeps {
        Some(subject)
    } else {
        drop(subject);
        None
    }
}

/// How the run of this hub is closed, which has come to its end.
///
/// # Errors
/// Out of memory, which it takes only where the end is explained or properties are wanted.
pub fn close(alloc: Global, hub: &Hub, asked: &Asked<'_>) -> Result<Closing, AllocError>
    ensures { IfOk result (IsClosing (plain_asked asked.now) hub.now) }
{
    let judged = judge_alone(alloc, asked.properties.as_slice(), hub)?;
    let status = closing_status(hub, asked, are_all_kept(judged.as_slice()));
    let words = closing_words(alloc, hub, asked, judged.as_slice())?;
    Ok(Closing { status, words })
}

// What is said of the end: of the properties that are wanted, and how the run ended, where that is explained.
fn closing_words(
    alloc: Global,
    hub: &Hub,
    asked: &Asked<'_>,
    judged: &[Option<usize>],
) -> Result<Vec<u8>, AllocError>
    ensures { IfOk result (λ words. MaySay ((plain_asked asked.now).explains || is_asked (plain_asked asked.now).properties) words.items) }
{
    let mut words = Vec::new(alloc);
    push_judged(
        alloc,
        &mut words,
        asked.properties.as_slice(),
        asked.subject.as_ref(),
        asked.explains,
        hub,
        judged,
    )?;
    let more = asked_words(alloc, hub, asked)?;
    words.extend_from_slice(more.as_slice())?;
    Ok(words)
}

/// Whether the end is explained: where that is asked for, and the script is kept.
pub fn is_explained(asked: &Asked<'_>) -> bool
    ensures { result ≡ (plain_asked asked.now).explains }
{
    asked.explains && asked.subject.is_some()
}

// How the run ended, where that is asked for and the script is kept.
fn asked_words(alloc: Global, hub: &Hub, asked: &Asked<'_>) -> Result<Vec<u8>, AllocError>
    ensures { IfOk result (λ words. MaySay (plain_asked asked.now).explains words.items) }
{
    match &asked.subject {
        Some(subject) => kept_words(
            alloc,
            hub,
            asked.explains,
            subject,
            asked.servers.as_slice(),
        ),
        None => Ok(Vec::new(alloc)),
    }
}

// The same of a script that is kept.
fn kept_words(
    alloc: Global,
    hub: &Hub,
    explains: bool,
    subject: &Subject<'_>,
    servers: &[u32],
) -> Result<Vec<u8>, AllocError>
    ensures { IfOk result (λ words. MaySay explains words.items) }
{
    if explains {
        end_words(alloc, hub, subject, servers)
    } else {
        Ok(Vec::new(alloc))
    }
}

/// What explains the end of the run of this hub: which threads are left and for what they wait, which of them are servers, and where and why
/// threads ended at faults.
///
/// # Errors
/// Out of memory.
#[inline(never)]
pub fn end_words(
    alloc: Global,
    hub: &Hub,
    subject: &Subject<'_>,
    servers: &[u32],
) -> Result<Vec<u8>, AllocError> {
    let text = subject.text.as_slice();
    let forms = subject.forms.as_slice();
    let mut words = explain_end(alloc, subject.name, text, forms, hub, servers)?;
    push_faults(alloc, &mut words, hub, subject)?;
    Ok(words)
}

// Where and why threads ended at faults.
#[inline(never)]
fn push_faults(
    alloc: Global,
    words: &mut Vec<u8>,
    hub: &Hub,
    subject: &Subject<'_>,
) -> Result<(), AllocError> {
    let text = subject.text.as_slice();
    let forms = subject.forms.as_slice();
    let places = statement_places(alloc, text, forms)?;
    let faults = faults_of(alloc, forms, places.as_slice(), hub)?;
    drop(places);
    write_faults(alloc, words, subject.name, text, forms, &faults)
}

// With which status it ends.
fn closing_status(hub: &Hub, asked: &Asked<'_>, kept: bool) -> u8
    ensures { result ≡ closed.closing_status (plain_asked asked.now) hub.now kept }
{
    let unwell = is_unwell(hub, asked, kept);
    if unwell {
        UNWELL
    } else {
        end_status(hub.end())
    }
}

// Whether a property is broken, or it stops at a fault, or is judged strictly and stuck.
fn is_unwell(hub: &Hub, asked: &Asked<'_>, kept: bool) -> bool
    ensures { result ≡ closed.is_unwell (plain_asked asked.now) hub.now kept }
{
    either(
        !kept,
        either(has_a_fault(hub, asked), stays_stuck(hub, asked)),
    )
}

// Whether it is to stop where a thread ends at a fault, and one has.
fn has_a_fault(hub: &Hub, asked: &Asked<'_>) -> bool
    ensures { result ≡ closed.has_a_fault (plain_asked asked.now) hub.now }
{
    asked.stops && hub.faults() > 0
}

// Whether it is judged strictly, and stuck.
fn stays_stuck(hub: &Hub, asked: &Asked<'_>) -> bool
    ensures { result ≡ ((plain_asked asked.now).strict && is_stuck (plain_asked asked.now).servers hub.now) }
{
    asked.strict && is_stuck(hub, asked.servers.as_slice())
}

fn end_status(end: End) -> u8
    ensures { result ≡ spec.end_status end }
{
    match end {
        End::Quiet => 0,
        End::Budget => 4,
        End::Partial => 0,
    }
}
