//! How threads are spoken of.

use crate::name::function_name;
use crate::value::push_given;
use cml_text::Sexpr;
use cml_value::{FnRef, Tid};
use std::alloc::{AllocError, Global};

/// A thread, and the function with which it began, where that is known.
#[derive(Clone, Copy)]
pub struct Who<'a> {
    pub thread: Tid,
    pub began: Option<&'a FnRef>,
}

/// Appends a function with what it is given: `phil(0 (mvar 0) (mvar 1) 3)`, `main`. The values are cut at 40 characters together.
///
/// # Errors
/// Out of memory.
pub fn push_began(
    alloc: Global,
    out: &mut Vec<u8>,
    forms: &[Sexpr],
    began: &FnRef,
) -> Result<(), AllocError> {
    out.extend_from_slice(function_name(forms, began.func()).as_bytes())?;
    push_given(alloc, out, began.args())
}

/// Appends a thread with the function with which it began: `thread 0 main`, `thread 1 worker(0)`.
///
/// # Errors
/// Out of memory.
pub fn push_thread(
    alloc: Global,
    out: &mut Vec<u8>,
    forms: &[Sexpr],
    who: Who<'_>,
) -> Result<(), AllocError> {
    let text = format!(in alloc; "thread {}", who.thread.0)?;
    out.extend_from_slice(text.as_bytes())?;
    match who.began {
        None => Ok(()),
        Some(began) => {
            out.extend_from_slice(b" ")?;
            push_began(alloc, out, forms, began)
        }
    }
}
