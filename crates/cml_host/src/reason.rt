//! Why a file can't be read or written: the reasons, most in the words of the system, and the line that says one of them.

ghost use Rattle.std.specs.Prelude.{IfOk};
ghost use Rattle.cml_host.specs.Refused.{IsExplained};

use std::alloc::{AllocError, Global};

/// Why a file can't be read or written.
#[derive(Clone, Copy, Debug, PartialEq, Eq)]
pub enum Reason {
    /// Nothing lies under the name.
    NotFound,
    /// It may not be touched.
    Denied,
    /// A folder lies there.
    IsFolder,
    /// A part of the name that should be a folder is none.
    NoFolder,
    /// The name is too long.
    LongName,
    /// Links lead on and on.
    Loop,
    /// What lies there may only be read.
    ReadOnly,
    /// No room is left.
    Full,
    /// The user has no room left.
    Quota,
    /// It would be too large.
    TooLarge,
    /// It is a program that runs.
    Busy,
    /// It holds what the script holds.
    Script,
}

impl Reason {
    /// The reason, in the words of the system where it has any.
    pub fn words(self) -> &'static str {
        match self {
            Reason::NotFound => "No such file or directory",
            Reason::Denied => "Permission denied",
            Reason::IsFolder => "Is a directory",
            Reason::NoFolder => "Not a directory",
            Reason::LongName => "File name too long",
            Reason::Loop => "Too many levels of symbolic links",
            Reason::ReadOnly => "Read-only file system",
            Reason::Full => "No space left on device",
            Reason::Quota => "Disk quota exceeded",
            Reason::TooLarge => "File too large",
            Reason::Busy => "Text file busy",
            Reason::Script => "It holds the script",
        }
    }
}

/// The line, and then why the file of this name is refused, where that is explained and known.
///
/// # Errors
/// Out of memory.
pub fn with_why(
    alloc: Global,
    line: &[u8],
    name: &str,
    explains: bool,
    why: Option<Reason>,
) -> Result<Vec<u8>, AllocError>
    ensures { IfOk result (λ told. IsExplained explains line.now told.items) }
{
    match why {
        Some(reason) if explains => {
            let words = reason.words();
            let behind = format!(in alloc; "{name}: {words}\n")?;
            explained(alloc, line, explains, behind.as_bytes())
        }
        _ => explained(alloc, line, explains, b""),
    }
}

/// The line, and behind it these words, where it is explained.
///
/// # Errors
/// Out of memory.
pub fn explained(
    alloc: Global,
    line: &[u8],
    explains: bool,
    words: &[u8],
) -> Result<Vec<u8>, AllocError>
    ensures { IfOk result (λ told. IsExplained explains line.now told.items) }
{
    if !explains {
        return Vec::from_slice(alloc, line);
    }
    let mut told = Vec::from_slice(alloc, line)?;
    told.extend_from_slice(words)?;
    Ok(told)
}
