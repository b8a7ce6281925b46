//! Scripts: the forms and the program that the text of a file is, or why it is none; and the commands that tell only that.

ghost use Rattle.std.specs.{Prelude.{◌≡◌, ◌++◌, IfOk, IfErr, codes, length}, Fmt.{decimal}};
ghost use Rattle.cml_host.specs.{Refused.{RefusesAs}, Stores.{IsUnchanged}};
ghost use Rattle.cml_host.specs.Scripts.{ArePrinted, HasForms, HasNoForms, IsCounted, IsFaulty, IsNoScript, IsOpened, IsProgramOf, IsUnshaped, plain_script};
ghost use Rattle.cml_text.specs.{Lines.{line}, Texts.{Spells}};

use crate::refusal::{Refusal, load};
use crate::source::{Source, TEXT_LIMIT, tell_script, tell_text};
use crate::store::Store;
use cml_check::{CheckFault, Prog, check};
use cml_text::{Sexpr, TextFault, print, read};
use std::alloc::{AllocError, Global};

/// A script.
#[derive(Drop)]
pub struct Script {
    /// Its text.
    pub text: Vec<u8>,
    /// The forms that the text spells.
    pub forms: Vec<Sexpr>,
    /// The program that they are.
    pub program: Prog,
}

/// The command `check`: how many functions the script has that lies under the name.
///
/// # Errors
/// Why there is none, explained where that is asked for.
pub fn check_file<S: Store>(
    alloc: Global,
    name: &str,
    explains: bool,
    store: &mut S,
) -> Result<Vec<u8>, Refusal>
    ensures ok { IfOk result (λ told. IsCounted (S.holds store.old name.now) told.items) }
    ensures err { IfErr result (RefusesAs (IsNoScript explains name.now (S.holds store.old name.now))) }
    ensures same { IsUnchanged (S.holds store.old) (S.holds store.new) }
{
    let script = open_script(alloc, name, explains, store)?;
    Ok(count_functions(alloc, &script.program)?)
}

// How many functions the program has.
fn count_functions(alloc: Global, program: &Prog) -> Result<Vec<u8>, AllocError>
    ensures { IfOk result (λ told. told.items ≡ line (codes "ok functions " ++ decimal (length program.now))) }
{
    let count = program.functions();
    Ok(format!(in alloc; "ok functions {count}\n")?.into_bytes())
}

/// The command `fmt`: the forms of the text that lies under the name, each on a line.
///
/// # Errors
/// Why it spells none, explained where that is asked for.
pub fn print_file<S: Store>(
    alloc: Global,
    name: &str,
    explains: bool,
    store: &mut S,
) -> Result<Vec<u8>, Refusal>
    ensures ok { IfOk result (λ told. ArePrinted (S.holds store.old name.now) told.items) }
    ensures err { IfErr result (RefusesAs (HasNoForms explains name.now (S.holds store.old name.now))) }
    ensures same { IsUnchanged (S.holds store.old) (S.holds store.new) }
{
    let (text, forms) = open_forms(alloc, name, explains, store)?;
    drop(text);
    Ok(print(alloc, forms.as_slice())?.into_bytes())
}

/// The script that lies under the name.
///
/// # Errors
/// Why there is none, explained where that is asked for.
pub fn open_script<S: Store>(
    alloc: Global,
    name: &str,
    explains: bool,
    store: &mut S,
) -> Result<Script, Refusal>
    ensures ok { IfOk result (λ script. IsOpened (S.holds store.old name.now) (plain_script script)) }
    ensures err { IfErr result (RefusesAs (IsNoScript explains name.now (S.holds store.old name.now))) }
    ensures same { IsUnchanged (S.holds store.old) (S.holds store.new) }
{
    let (text, forms) = open_forms(alloc, name, explains, store)?;
    let source = Source {
        name,
        text: text.as_slice(),
        explains,
    };
    let program = check_forms(alloc, &source, forms.as_slice())?;
    Ok(Script {
        text,
        forms,
        program,
    })
}

// The text that lies under the name, and the forms that it spells.
fn open_forms<S: Store>(
    alloc: Global,
    name: &str,
    explains: bool,
    store: &mut S,
) -> Result<(Vec<u8>, Vec<Sexpr>), Refusal>
    ensures ok { IfOk result (λ found. HasForms (S.holds store.old name.now) found.0.items found.1.items) }
    ensures err { IfErr result (RefusesAs (HasNoForms explains name.now (S.holds store.old name.now))) }
    ensures same { IsUnchanged (S.holds store.old) (S.holds store.new) }
{
    let text = load(alloc, name, explains, TEXT_LIMIT, store)?;
    let source = Source {
        name,
        text: text.as_slice(),
        explains,
    };
    let forms = read_forms(alloc, &source)?;
    Ok((text, forms))
}

// The forms that the text spells.
fn read_forms(alloc: Global, source: &Source<'_>) -> Result<Vec<Sexpr>, Refusal>
    ensures ok { IfOk result (λ forms. Spells source.now.text.now forms.items) }
    ensures err { IfErr result (RefusesAs (IsFaulty source.now.explains source.now.text.now)) }
{
    match read(alloc, source.text) {
        Ok(forms) => Ok(forms),
        Err(TextFault::At { kind, at }) => {
            Err(Refusal::Told(tell_text(alloc, source, kind, at)?, 2))
        }
        Err(TextFault::Memory) => Err(Refusal::Memory),
    }
}

// The program that the forms are.
fn check_forms(alloc: Global, source: &Source<'_>, forms: &[Sexpr]) -> Result<Prog, Refusal>
    ensures ok { IfOk result (IsProgramOf forms.now) }
    ensures err { IfErr result (RefusesAs (IsUnshaped source.now.explains forms.now)) }
{
    match check(alloc, forms) {
        Ok(program) => Ok(program),
        Err(CheckFault::At { kind, at }) => {
            Err(Refusal::Told(tell_script(alloc, source, forms, kind, at)?, 2))
        }
        Err(CheckFault::Memory) => Err(Refusal::Memory),
    }
}
