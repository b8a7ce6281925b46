//! The cases that blocks say.
//!
//! Below the head of a case stand lines of its own, of which those that begin with `;` say what it shows:
//!
//! - `args: WORDS`: the program is run on these arguments; with `terminal: WORDS` its errors go to a terminal. Each such line is a run of its own;
//! - `again: WORDS`: after each of them it is run on these too, over the same store, and everything must come out as before;
//! - `status: N`: its status, if not 0;
//! - `room: N`: so many files can be saved;
//! - `saves: NAME`: something is saved under this name.
//!
//! The texts of a case are `file NAME`, `input`, `output`, `errors`, `session`, which is input and output in one, and `saved NAME`: what lies under
//! the name afterwards. Where one is not there it is empty, but the input is the line `spawn`. What else lies in the
//! store stays as it was.

use crate::blocks::Block;
use std::alloc::{AllocError, Global};
use std::str;

/// The arguments of a run, and whether its errors go to a terminal.
#[derive(Clone, Copy)]
pub struct Words<'a> {
    pub line: &'a str,
    pub terminal: bool,
}

/// A name, and what lies under it.
#[derive(Clone, Copy)]
pub struct File<'a> {
    pub name: &'a str,
    pub text: &'a [u8],
}

/// A case.
#[derive(Drop)]
pub struct Case<'a> {
    /// What it is called.
    pub name: &'a str,
    /// The runs, each over a store of its own.
    pub runs: Vec<Words<'a>>,
    /// What is run after each of them.
    pub again: Option<&'a str>,
    /// What lies in the store.
    pub files: Vec<File<'a>>,
    /// How many files can be saved.
    pub room: Option<usize>,
    /// The input.
    pub input: &'a [u8],
    /// What must be written to the output.
    pub output: &'a [u8],
    /// What must be written to the errors.
    pub errors: &'a [u8],
    /// What the status must be.
    pub status: u8,
    /// What must lie in the store afterwards.
    pub saved: Vec<File<'a>>,
    /// Under which names something must lie afterwards.
    pub saves: Vec<&'a str>,
}

/// Cases, and the line of the first fault in them, if there is one: no case comes behind it.
#[derive(Drop)]
pub struct Read<'a> {
    pub cases: Vec<Case<'a>>,
    pub fault: Option<usize>,
}

impl<'a> Case<'a> {
    fn new(alloc: Global, name: &'a str) -> Case<'a> {
        Case {
            name,
            runs: Vec::new(alloc),
            again: None,
            files: Vec::new(alloc),
            room: None,
            input: b"spawn\n",
            output: &[],
            errors: &[],
            status: 0,
            saved: Vec::new(alloc),
            saves: Vec::new(alloc),
        }
    }

    // One run more.
    fn push_run(&mut self, line: &'a str, terminal: bool) -> Result<bool, AllocError> {
        self.runs.push(Words { line, terminal })?;
        Ok(true)
    }

    // What one of its own lines says. Returns whether it can be read.
    fn take_line(&mut self, line: &'a str) -> Result<bool, AllocError> {
        if line.starts_with(';') {
            return Ok(true);
        }
        match line.split_once(": ") {
            Some(("args", words)) => self.push_run(words, false),
            Some(("terminal", words)) => self.push_run(words, true),
            Some((key, value)) => self.take_value(key, value),
            None => Ok(false),
        }
    }

    // The value of this key. Returns whether it can be read.
    fn take_value(&mut self, key: &str, value: &'a str) -> Result<bool, AllocError> {
        if key == "saves" {
            self.saves.push(value)?;
            return Ok(true);
        }
        if key == "again" {
            self.again = Some(value);
            return Ok(true);
        }
        if key == "room" {
            self.room = value.parse::<usize>().ok();
            return Ok(self.room.is_some());
        }
        let Ok(status) = value.parse::<u8>() else {
            return Ok(false);
        };
        self.status = status;
        Ok(key == "status")
    }

    // Its own lines. Returns whether they can be read.
    fn take_lines(&mut self, text: &'a [u8]) -> Result<bool, AllocError> {
        let Ok(text) = str::from_utf8(text) else {
            return Ok(false);
        };
        for line in text.lines() {
            if !self.take_line(line)? {
                return Ok(false);
            }
        }
        Ok(!self.runs.is_empty())
    }

    // A text with its head. Returns whether there is one of this head.
    fn take_text(&mut self, head: &'a str, block: &'a Block) -> Result<bool, AllocError> {
        let text = block.text.as_slice();
        match head.split_once(' ') {
            Some(("file", name)) => self.files.push(File { name, text })?,
            Some(("saved", name)) => self.saved.push(File { name, text })?,
            Some(_) => return Ok(false),
            None => return Ok(self.take_stream(head, block)),
        }
        Ok(true)
    }

    // The text of a stream. Returns whether there is one of this name.
    fn take_stream(&mut self, name: &str, block: &'a Block) -> bool {
        let text = block.text.as_slice();
        match name {
            "input" => self.input = text,
            "output" => self.output = text,
            "errors" => self.errors = text,
            "session" => {
                self.input = block.typed.as_slice();
                self.output = text;
            }
            _ => return false,
        }
        true
    }
}

// What a block says: a case, or a text of the last one. Returns whether it can be read.
fn read_block<'a>(
    alloc: Global,
    cases: &mut Vec<Case<'a>>,
    block: &'a Block,
) -> Result<bool, AllocError> {
    let head = block.head.as_str();
    if let Some(name) = head.strip_prefix("== ") {
        let mut case = Case::new(alloc, name);
        let is_read = case.take_lines(block.text.as_slice())?;
        cases.push(case)?;
        return Ok(is_read);
    }
    let Some(head) = head.strip_prefix("-- ") else {
        return Ok(true);
    };
    if head.starts_with("text ") {
        return Ok(true);
    }
    match cases.last_mut() {
        Some(case) => case.take_text(head, block),
        None => Ok(false),
    }
}

/// The cases of these blocks.
pub fn read_cases<'a>(alloc: Global, blocks: &'a [Block]) -> Result<Read<'a>, AllocError> {
    let mut cases = Vec::new(alloc);
    for block in blocks {
        if !read_block(alloc, &mut cases, block)? {
            return Ok(Read {
                cases,
                fault: Some(block.line),
            });
        }
    }
    Ok(Read { cases, fault: None })
}
