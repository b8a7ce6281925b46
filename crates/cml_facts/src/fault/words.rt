//! Where and why threads of a run ended at faults, in words.

use crate::fault::fact::ThreadFault;
use crate::fault::faults::Faults;
use crate::fault::frame::Frame;
use crate::fault::why::push_reason;
use cml_phrase::{
    Diagnosis, Who, function_name, push_place, push_thread, push_variable, render, slot_names,
};
use cml_text::Sexpr;
use std::alloc::{AllocError, Global};

// How many calls are told.
const FRAME_LIMIT: usize = 10;

// The script that is spoken of.
#[derive(Clone, Copy)]
struct Script<'a> {
    alloc: Global,
    name: &'a str,
    text: &'a [u8],
    forms: &'a [Sexpr],
}

/// Appends where and why threads of a run ended at faults: a block of lines for each that is known, and how many more did. Nothing is said where
/// none did. The script has this name, text and forms.
///
/// # Errors
/// Out of memory.
pub fn write_faults(
    alloc: Global,
    out: &mut Vec<u8>,
    name: &str,
    text: &[u8],
    forms: &[Sexpr],
    faults: &Faults,
) -> Result<(), AllocError> {
    let script = Script {
        alloc,
        name,
        text,
        forms,
    };
    for fault in &faults.first {
        script.push_fault(out, fault)?;
    }
    script.push_others(out, faults.others)
}

impl Script<'_> {
    // Appends the block of a thread: who is at fault, where and why; the functions on its stack, from the top; and the variables of the first.
    fn push_fault(&self, out: &mut Vec<u8>, fault: &ThreadFault) -> Result<(), AllocError> {
        self.push_head(out, fault)?;
        self.push_calls(out, fault.calls.as_slice())?;
        self.push_variables(out, fault)
    }

    // Who is at fault, and why.
    fn who_and_why(&self, fault: &ThreadFault) -> Result<Vec<u8>, AllocError> {
        let mut out = Vec::new(self.alloc);
        let who = Who {
            thread: fault.thread,
            began: fault.began.as_ref(),
        };
        push_thread(self.alloc, &mut out, self.forms, who)?;
        out.extend_from_slice(b" ends at a fault: ")?;
        push_reason(self.alloc, &mut out, &fault.reason)?;
        Ok(out)
    }

    // Appends who is at fault, and why, with the line of the statement, where that is known.
    fn push_head(&self, out: &mut Vec<u8>, fault: &ThreadFault) -> Result<(), AllocError> {
        let message = self.who_and_why(fault)?;
        let Some(span) = fault.statement else {
            out.extend_from_slice(message.as_slice())?;
            return out.extend_from_slice(b"\n");
        };
        let diagnosis = Diagnosis {
            at: span.start,
            marked_to: Some(span.end),
            message,
            notes: Vec::new(self.alloc),
        };
        let shown = render(self.alloc, self.name, self.text, &diagnosis)?;
        out.extend_from_slice(shown.as_slice())
    }

    // Appends the lines of the first calls, and how many more there are.
    fn push_calls(&self, out: &mut Vec<u8>, calls: &[Frame]) -> Result<(), AllocError> {
        let count = calls.len().min(FRAME_LIMIT);
        for i in 0..count {
            self.push_call(out, &calls[i], calls.get(i + 1))?;
        }
        self.push_more(out, calls.len() - count)
    }

    // Appends the line of a call, and where it was called: where the call below it stands.
    fn push_call(
        &self,
        out: &mut Vec<u8>,
        call: &Frame,
        below: Option<&Frame>,
    ) -> Result<(), AllocError> {
        out.extend_from_slice(b"   in ")?;
        out.extend_from_slice(function_name(self.forms, call.function).as_bytes())?;
        let called_at = match below {
            Some(caller) => caller.place,
            None => None,
        };
        if let Some(place) = called_at {
            out.extend_from_slice(b", called at ")?;
            push_place(self.alloc, out, self.name, place)?;
        }
        out.extend_from_slice(b"\n")
    }

    // Appends how many calls more there are, if any are.
    fn push_more(&self, out: &mut Vec<u8>, count: usize) -> Result<(), AllocError> {
        if count == 0 {
            return Ok(());
        }
        let line = format!(in self.alloc; "   and {count} more\n")?;
        out.extend_from_slice(line.as_bytes())
    }

    // Appends the line of the variables of the top call, if it has any.
    fn push_variables(&self, out: &mut Vec<u8>, fault: &ThreadFault) -> Result<(), AllocError> {
        let Some(call) = fault.calls.get(0) else {
            return Ok(());
        };
        let names = slot_names(self.alloc, self.forms, call.function)?;
        let count = names.len().min(fault.variables.len());
        for i in 0..count {
            out.extend_from_slice(if i == 0 { b"   " } else { b", " })?;
            push_variable(self.alloc, out, names[i], &fault.variables[i])?;
        }
        if count == 0 {
            return Ok(());
        }
        out.extend_from_slice(b"\n")
    }

    // Appends how many threads more ended at faults, if any did.
    fn push_others(&self, out: &mut Vec<u8>, count: usize) -> Result<(), AllocError> {
        if count == 0 {
            return Ok(());
        }
        if count == 1 {
            return out.extend_from_slice(b"and 1 more thread ended at a fault\n");
        }
        let line = format!(in self.alloc; "and {count} more threads ended at faults\n")?;
        out.extend_from_slice(line.as_bytes())
    }
}
