//! What is said of what is wrong with a script.

use crate::hint::{Hint, HintKind};
use crate::keyword::Role;
use crate::piece::name_spelled;
use crate::say_keyword::{needs, takes};
use crate::script::{ScriptTrouble, script_trouble};
use crate::trouble::{Later, Trouble};
use cml_check::{CheckKind, Word};
use cml_phrase::{Diagnosis, Note, render};
use cml_text::Sexpr;
use std::alloc::{AllocError, Global};

/// What is wrong with a script: the text that is shown of the fault of this kind at this byte, for a script of this name and text, whose
/// forms these are.
///
/// # Errors
/// Out of memory.
pub fn explain_script(
    alloc: Global,
    name: &str,
    text: &[u8],
    forms: &[Sexpr],
    kind: CheckKind,
    at: usize,
) -> Result<Vec<u8>, AllocError> {
    let trouble = script_trouble(alloc, forms, kind, at)?;
    write_script(alloc, name, text, &trouble)
}

/// Says what is wrong with a script of this name, and shows where it stands in this text.
///
/// # Errors
/// Out of memory.
pub fn write_script(
    alloc: Global,
    name: &str,
    text: &[u8],
    trouble: &ScriptTrouble<'_>,
) -> Result<Vec<u8>, AllocError> {
    let diagnosis = Diagnosis {
        at: trouble.at,
        marked_to: trouble.marked_to,
        message: message(alloc, trouble)?.into_bytes(),
        notes: notes(alloc, trouble.hint)?,
    };
    render(alloc, name, text, &diagnosis)
}

// The sentence on the trouble.
fn message(alloc: Global, trouble: &ScriptTrouble<'_>) -> Result<String, AllocError> {
    match (trouble.trouble, trouble.parameters) {
        (Trouble::Given(values, later), Some(parameters)) => {
            given_message(alloc, trouble.name, parameters, values, later)
        }
        _ => said(alloc, sentence_of(trouble.trouble), trouble.name),
    }
}

// What is added.
fn notes(alloc: Global, hint: Option<Hint<'_>>) -> Result<Vec<Note>, AllocError> {
    let mut notes = Vec::new(alloc);
    if let Some(hint) = hint {
        notes.push(Note {
            words: said(alloc, hint_sentence(hint.kind), hint.name)?.into_bytes(),
            at: hint.at,
        })?;
    }
    Ok(notes)
}

// A sentence, in which a name may stand.
#[derive(Clone, Copy)]
enum Sentence {
    // These words alone.
    Alone(&'static str),
    // The name, and these words behind it.
    Behind(&'static str),
    // These words before the name, and those behind it.
    Around(&'static str, &'static str),
    // What a keyword of this name takes, and which part is missing.
    Lacks(Word, usize),
    // What a keyword of this name takes, and how many parts it is given.
    Exceeds(Word, usize),
}

// A sentence with this name.
fn said(alloc: Global, how: Sentence, name: &str) -> Result<String, AllocError> {
    match how {
        Sentence::Alone(words) => String::from_str(alloc, words),
        Sentence::Behind(words) => format!(in alloc; "{name}{words}"),
        Sentence::Around(before, behind) => format!(in alloc; "{before}{name}{behind}"),
        Sentence::Lacks(word, missing) => lacking(alloc, word, missing, name),
        Sentence::Exceeds(word, given) => exceeding(alloc, word, given, name),
    }
}

// What a keyword takes, and which part is missing.
fn lacking(alloc: Global, word: Word, missing: usize, name: &str) -> Result<String, AllocError> {
    let takes = takes(word);
    match needs(word).get(missing) {
        Some(part) => format!(in alloc; "{name} takes {takes}; {part} is missing"),
        None => exceeding(alloc, word, missing, name),
    }
}

// What a keyword takes, and how many parts it is given.
fn exceeding(alloc: Global, word: Word, given: usize, name: &str) -> Result<String, AllocError> {
    let takes = takes(word);
    let plural = plural(given);
    format!(in alloc; "{name} takes {takes}, and is given {given} part{plural}")
}

// One of a thing, or more.
fn plural(n: usize) -> &'static str {
    if n == 1 { "" } else { "s" }
}

// What is said of a trouble.
fn sentence_of(trouble: Trouble) -> Sentence {
    match trouble {
        Trouble::Wanted(role) => Sentence::Alone(wanted(role)),
        Trouble::Unknown(role) => Sentence::Around("`", no_such(role)),
        Trouble::Lacks(word, missing) => Sentence::Lacks(word, missing),
        Trouble::Exceeds(word, given) => Sentence::Exceeds(word, given),
        Trouble::Hollow => Sentence::Alone("() is no value; the value that says nothing is unit"),
        Trouble::Reserved => Sentence::Around("`", "` is a keyword, so it can't be a name"),
        Trouble::Twice => Sentence::Around("the parameter `", "` stands twice"),
        Trouble::Outside => {
            Sentence::Behind(" can't stand outside a function: (fn NAME (PARAMETER*) STATEMENT*)")
        }
        Trouble::Nested => Sentence::Behind(
            " begins a function, which can't stand inside another; is the one before it closed?",
        ),
        Trouble::Loose => Sentence::Behind(" begins a block, which stands only in an if"),
        Trouble::Bare => Sentence::Behind(" stands without parentheses"),
        Trouble::Acts => Sentence::Behind(
            " has an effect, so it can't stand inside another form; give it a name with let first",
        ),
        Trouble::ActsInSet => Sentence::Behind(
            " has an effect, and set takes a value; give it a name with let first",
        ),
        Trouble::Commands => {
            Sentence::Behind(" is a statement, so it can't stand inside an expression")
        }
        Trouble::Unused => {
            Sentence::Behind(" gives a value, which is not used here; give it a name with let")
        }
        Trouble::Undeclared => Sentence::Around("`", "` is not declared"),
        Trouble::NoFunction => Sentence::Around("there is no function `", "`"),
        Trouble::Again => Sentence::Around("there is a function `", "` already"),
        Trouble::Given(_, _) => Sentence::Around("`", "` takes another number of values"),
        Trouble::MainTakes => {
            Sentence::Alone("`main` takes no values, so it can't have parameters")
        }
        Trouble::ManyFunctions => Sentence::Alone("a script has at most 1024 functions"),
        Trouble::ManyStatements => Sentence::Alone("a script has at most 4096 statements"),
    }
}

// What must stand where a form of this role does.
fn wanted(role: Role) -> &'static str {
    match role {
        Role::Item => "a function is wanted here: (fn NAME (PARAMETER*) STATEMENT*)",
        Role::FunctionName => "the name of the function is wanted here",
        Role::Parameters => "the parameters are wanted here, in parentheses",
        Role::Parameter => "the name of a parameter is wanted here",
        Role::Statement => "a statement or an effect is wanted here, in parentheses",
        Role::Block => "a block is wanted here: (do STATEMENT*)",
        Role::Variable => "the name of a variable is wanted here",
        Role::Source => "a value or an effect is wanted here",
        Role::SetValue | Role::Value => "a value is wanted here",
        Role::Called => "the name of a function is wanted here",
        Role::Keyword => "this form does not fit here",
    }
}

// What the name is not with which a list of this role begins.
fn no_such(role: Role) -> &'static str {
    match role {
        Role::Item => {
            "` begins no function: a script has only (fn NAME (PARAMETER*) STATEMENT*)"
        }
        Role::Statement => "` is no statement or effect",
        Role::Source => "` is no event, effect or other expression",
        _ => "` is no event or other expression",
    }
}

// What is said of what helps.
fn hint_sentence(kind: HintKind) -> Sentence {
    match kind {
        HintKind::Nearest => Sentence::Around("the nearest is `", "`"),
        HintKind::Declared => Sentence::Around("`", "` is declared"),
        HintKind::First => Sentence::Around("the first `", "` is declared"),
        HintKind::NoVariable => Sentence::Around("`", "` is a function, declared"),
        HintKind::NoKeyword => {
            Sentence::Around("`", "` is a function, for call or spawn, declared")
        }
        HintKind::KnownLater => Sentence::Around("`", "` is known only behind its let,"),
        HintKind::Surplus => Sentence::Alone("the first too many stands"),
        HintKind::FirstParameter => Sentence::Alone("the first one stands"),
    }
}

// How many values a function of this name takes, and how many it is given.
fn given_message(
    alloc: Global,
    name: &str,
    parameters: &[Sexpr],
    values: usize,
    later: Later,
) -> Result<String, AllocError> {
    let takes = values_taken(alloc, parameters)?;
    let behind = match later {
        Later::Nothing => "",
        Later::EventValue => ", the last of them the value of the event",
        Later::Nack => ", the last of them the nack",
    };
    format!(in alloc; "`{name}` takes {takes}, and is given {values}{behind}")
}

// How many values a function of these parameters takes, and how they are called.
fn values_taken(alloc: Global, parameters: &[Sexpr]) -> Result<String, AllocError> {
    match parameters {
        [] => String::from_str(alloc, "no values"),
        [first, behind @ ..] => {
            let n = parameters.len();
            let plural = plural(n);
            let names = names_listed(alloc, first, behind)?;
            format!(in alloc; "{n} value{plural}, ({names})")
        }
    }
}

// These names, with a space between two.
fn names_listed(alloc: Global, first: &Sexpr, behind: &[Sexpr]) -> Result<String, AllocError> {
    let mut text = String::from_str(alloc, name_spelled(first))?;
    for form in behind {
        text.push_str(" ")?;
        text.push_str(name_spelled(form))?;
    }
    Ok(text)
}
