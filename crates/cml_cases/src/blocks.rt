//! The blocks of a file of cases: each has a head and a text below it.
//!
//! A line that begins with `== ` is the head of a case, and one that begins with `-- ` the head of a text of it. Some of the latter are no
//! heads, and add to the text in which they stand:
//!
//! - `-- times N TEXT`: the text so many times, with no line feed behind it;
//! - `-- count A B TEXT`: the text for each number from A to B, which stands in the place of each `#` of it;
//! - `-- put NAME`: what stands below `-- text NAME`;
//! - `-- unended`: the last line feed is taken away.
//!
//! In these texts a line feed is written `\n`, a backslash `\\`, and a byte by two hexadecimal digits, as `\xff`. Empty lines at the end of a
//! text don't count.

use std::alloc::{AllocError, Global};

/// A head, and the text below it.
#[derive(Drop)]
pub struct Block {
    /// The head, with the marks that make it one.
    pub head: String,
    /// At which line it stands.
    pub line: usize,
    /// The text.
    pub text: Vec<u8>,
    /// The lines of a session that are typed.
    pub typed: Vec<u8>,
    // How many empty lines came last.
    blank: usize,
}

// What a backslash has begun.
#[derive(Clone, Copy)]
enum Escape {
    // Nothing.
    Out,
    // An escape.
    Begun,
    // Two digits.
    Byte,
    // A second digit; this is the first.
    Digit(u8),
}

impl Block {
    fn new(alloc: Global, head: &str, line: usize) -> Result<Block, AllocError> {
        Ok(Block {
            head: String::from_str(alloc, head)?,
            line,
            text: Vec::new(alloc),
            typed: Vec::new(alloc),
            blank: 0,
        })
    }

    // The empty lines that came last are of the text, since more comes.
    fn go_on(&mut self) -> Result<(), AllocError> {
        for _ in 0..self.blank {
            self.text.push(b'\n')?;
        }
        self.blank = 0;
        Ok(())
    }

    // One line more. In a session it is typed where it begins with `>`.
    fn push_line(&mut self, line: &str) -> Result<(), AllocError> {
        if line.is_empty() {
            self.blank = self.blank.saturating_add(1);
            return Ok(());
        }
        self.go_on()?;
        match line.strip_prefix('>') {
            Some(typed) if self.head.as_str() == "-- session" => {
                self.typed.extend_from_slice(typed.as_bytes())?;
                self.typed.push(b'\n')?;
            }
            _ => {
                self.text.extend_from_slice(line.as_bytes())?;
                self.text.push(b'\n')?;
            }
        }
        Ok(())
    }

    // So many times these bytes.
    fn push_times(&mut self, times: u32, bytes: &[u8]) -> Result<(), AllocError> {
        self.go_on()?;
        for _ in 0..times {
            self.text.extend_from_slice(bytes)?;
        }
        Ok(())
    }

    // These bytes, with the number in the place of each `#`.
    fn push_numbered(&mut self, number: &str, bytes: &[u8]) -> Result<(), AllocError> {
        for byte in bytes {
            if *byte == b'#' {
                self.text.extend_from_slice(number.as_bytes())?;
            } else {
                self.text.push(*byte)?;
            }
        }
        Ok(())
    }

    // These bytes for each of the numbers.
    fn push_count(
        &mut self,
        alloc: Global,
        (first, last): (u32, u32),
        bytes: &[u8],
    ) -> Result<(), AllocError> {
        self.go_on()?;
        for number in first..=last {
            let digits = format!(in alloc; "{number}")?;
            self.push_numbered(digits.as_str(), bytes)?;
        }
        Ok(())
    }
}

// The digit of base 16.
fn digit(byte: u8) -> Option<u8> {
    match byte {
        b'0'..=b'9' => Some(byte - b'0'),
        b'a'..=b'f' => Some(byte - b'a' + 10),
        _ => None,
    }
}

// One byte of a text with escapes: the byte that it makes, if it makes one, and what is begun then; nothing where no escape is written so.
fn unescape(begun: Escape, byte: u8) -> Option<(Option<u8>, Escape)> {
    match begun {
        Escape::Out if byte == b'\\' => Some((None, Escape::Begun)),
        Escape::Out => Some((Some(byte), Escape::Out)),
        Escape::Begun => match byte {
            b'\\' => Some((Some(b'\\'), Escape::Out)),
            b'n' => Some((Some(b'\n'), Escape::Out)),
            b'x' => Some((None, Escape::Byte)),
            _ => None,
        },
        Escape::Byte => Some((None, Escape::Digit(digit(byte)?))),
        Escape::Digit(first) => {
            let made = first.wrapping_mul(16).wrapping_add(digit(byte)?);
            Some((Some(made), Escape::Out))
        }
    }
}

// The bytes of a text with escapes, if it is one.
fn unescaped(alloc: Global, text: &str) -> Result<Option<Vec<u8>>, AllocError> {
    let mut bytes = Vec::new(alloc);
    let mut begun = Escape::Out;
    for byte in text.bytes() {
        let Some((made, next)) = unescape(begun, byte) else {
            return Ok(None);
        };
        if let Some(byte) = made {
            bytes.push(byte)?;
        }
        begun = next;
    }
    Ok(if matches!(begun, Escape::Out) {
        Some(bytes)
    } else {
        None
    })
}

// The text of this name that stands last.
fn find<'a>(blocks: &'a [Block], name: &str) -> Option<&'a [u8]> {
    for block in blocks.iter().rev() {
        if block.head.as_str().strip_prefix("-- text ") == Some(name) {
            return Some(block.text.as_slice());
        }
    }
    None
}

// Adds the text of this name to the last block. Returns whether there is one.
fn put(blocks: &mut [Block], name: &str) -> Result<bool, AllocError> {
    let Some((last, before)) = blocks.split_last_mut() else {
        return Ok(false);
    };
    let Some(text) = find(before, name) else {
        return Ok(false);
    };
    last.push_times(1, text)?;
    Ok(true)
}

// Adds the text so many times to the block. Returns whether the words say how often.
fn repeat(alloc: Global, block: &mut Block, words: &str) -> Result<bool, AllocError> {
    let Some((times, text)) = words.split_once(' ') else {
        return Ok(false);
    };
    let Some(bytes) = unescaped(alloc, text)? else {
        return Ok(false);
    };
    let Ok(times) = times.parse::<u32>() else {
        return Ok(false);
    };
    block.push_times(times, bytes.as_slice())?;
    Ok(true)
}

// The numbers and the text of a count.
fn count_of(words: &str) -> Option<((u32, u32), &str)> {
    let (first, rest) = words.split_once(' ')?;
    let (last, text) = rest.split_once(' ')?;
    Some((
        (first.parse::<u32>().ok()?, last.parse::<u32>().ok()?),
        text,
    ))
}

// Adds the text for each number to the block. Returns whether the words say for which.
fn count(alloc: Global, block: &mut Block, words: &str) -> Result<bool, AllocError> {
    let Some((numbers, text)) = count_of(words) else {
        return Ok(false);
    };
    let Some(bytes) = unescaped(alloc, text)? else {
        return Ok(false);
    };
    block.push_count(alloc, numbers, bytes.as_slice())?;
    Ok(true)
}

// Does what a line with a mark says that is no head. Returns whether it is such a line, and can be read.
fn add(alloc: Global, blocks: &mut Vec<Block>, mark: &str) -> Result<Option<bool>, AllocError> {
    if let Some(name) = mark.strip_prefix("put ") {
        return Ok(Some(put(blocks.as_mut_slice(), name)?));
    }
    let Some(block) = blocks.last_mut() else {
        return Ok(None);
    };
    if let Some(words) = mark.strip_prefix("times ") {
        return Ok(Some(repeat(alloc, block, words)?));
    }
    if let Some(words) = mark.strip_prefix("count ") {
        return Ok(Some(count(alloc, block, words)?));
    }
    if mark == "unended" {
        return Ok(Some(block.text.pop() == Some(b'\n')));
    }
    Ok(None)
}

// Reads the line of this number. Returns whether it can be read.
fn read_line(
    alloc: Global,
    blocks: &mut Vec<Block>,
    number: usize,
    line: &str,
) -> Result<bool, AllocError> {
    if let Some(mark) = line.strip_prefix("-- ") {
        if let Some(is_read) = add(alloc, blocks, mark)? {
            return Ok(is_read);
        }
    } else if !line.starts_with("== ") {
        if let Some(block) = blocks.last_mut() {
            block.push_line(line)?;
        }
        return Ok(true);
    }
    blocks.push(Block::new(alloc, line, number)?)?;
    Ok(true)
}

/// Puts the blocks of the text behind the others; the first has what stands before any head. Returns the number of the first line that can't be
/// read, if there is one.
pub fn read_blocks(
    alloc: Global,
    blocks: &mut Vec<Block>,
    text: &str,
) -> Result<Option<usize>, AllocError> {
    blocks.push(Block::new(alloc, "", 0)?)?;
    let mut number: usize = 0;
    for line in text.split_terminator('\n') {
        number = number.saturating_add(1);
        if !read_line(alloc, blocks, number, line)? {
            return Ok(Some(number));
        }
    }
    Ok(None)
}
