//! The name of the fault at which a turn ended.

ghost use Rattle.std.specs.Prelude.{◌≡◌, ◌++◌, ◌∷◌, [], ℕ, List, IfOk, length, drop, codes};
ghost use Rattle.std.specs.Fmt.{decimal};
ghost use Rattle.cml_hub.specs.{Performed.{fails}, Runs.{output_of}};

use cml_hub::Hub;
use cml_value::Tid;
use std::alloc::{AllocError, Global};

// With how many bytes the line of a fault of a thread begins, before the fault's name.
fn start_len(alloc: Global, thread: Tid) -> Result<usize, AllocError>
    ensures { IfOk result (λ len. len
        ≡ length (codes "thread " ++ (decimal thread.0 ++ codes " fault "))) }
{
    let number = thread.0;
    let text = format!(in alloc; "thread {number} fault ")?;
    Ok(text.len())
}

/// The name of the fault at which the turn of this thread ended, by the line that was printed behind so many bytes.
///
/// # Errors
/// Out of memory.
pub(crate) fn fault_of(
    alloc: Global,
    hub: &Hub,
    thread: Tid,
    printed: usize,
) -> Result<Vec<u8>, AllocError>
    ensures { (before name : List ℕ) → length before ≡ printed
        → hub.now.course.output ≡ before ++ output_of thread.0 (fails name)
        → IfOk result (λ found. found.items ≡ name) }
{
    let start = start_len(alloc, thread)?;
    Vec::from_slice(alloc, fault_name(hub.out().as_bytes(), printed, start))
}

// What is left behind so many bytes.
fn behind(bytes: &[u8], count: usize) -> &[u8]
    ensures { result.now ≡ drop count bytes.now }
{
    &bytes[count.min(bytes.len())..]
}

// The name of a fault in what was printed: behind so many bytes, and the start of its line, up to the line feed at the end.
#[tactic(auto, using(crate::proofs::NameLemmas::name_is))]
fn fault_name(printed: &[u8], from: usize, start: usize) -> &[u8]
    ensures { (before text name : List ℕ) → length before ≡ from → length text ≡ start
        → printed.now ≡ before ++ (text ++ (name ++ 10 ∷ [])) → result.now ≡ name }
{
    let line = behind(behind(printed, from), start);
    if line.len() == 0 {
        line
    } else {
        &line[..line.len() - 1]
    }
}
