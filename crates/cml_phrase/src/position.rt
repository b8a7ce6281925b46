//! Lines and columns.
ghost use Rattle.std.specs.{Prelude.{◌≡◌, ◌<◌, ◌+◌, ◌^◌, length, take, drop, count_by}, List.{prefix_len, suffix_len}};
ghost use Rattle.cml_phrase.specs.Places as spec;

/// The bytes of a text before a place, and those from it on.
pub fn split_place(text: &[u8], at: usize) -> (&[u8], &[u8])
    ensures before { result.0.now ≡ take at text.now }
    ensures behind { result.1.now ≡ drop at text.now }
    ensures fits { at + length result.1.now < 2 ^ 64 }
{
    if at <= text.len() {
        text.split_at(at)
    } else {
        text.split_at(text.len())
    }
}

/// Whether a character of UTF-8 begins with the byte.
pub(crate) fn begins_character(byte: u8) -> bool
    ensures { result ≡ spec.begins_character byte }
{
    byte < 128 || byte > 191
}

/// How many characters begin in the bytes.
pub(crate) fn characters(bytes: &[u8]) -> usize
    ensures { result ≡ spec.characters bytes.now }
{
    bytes.iter().filter(|byte| begins_character(**byte)).count()
}

// How many line feeds are among the bytes.
fn line_feeds(bytes: &[u8]) -> usize
    ensures { result ≡ count_by spec.is_line_feed bytes.now }
{
    bytes.iter().filter(|byte| **byte == b'\n').count()
}

// How many bytes stand after the last line feed.
fn last_line_len(bytes: &[u8]) -> usize
    ensures { result ≡ suffix_len spec.is_inside_line bytes.now }
{
    bytes
        .iter()
        .rev()
        .take_while(|byte| **byte != b'\n')
        .count()
}

// How many bytes stand before the first line feed.
fn first_line_len(bytes: &[u8]) -> usize
    ensures { result ≡ prefix_len spec.is_inside_line bytes.now }
{
    bytes.iter().take_while(|byte| **byte != b'\n').count()
}

/// The line of a place of a text, from 1.
pub fn line_at(text: &[u8], at: usize) -> usize
    ensures { result ≡ spec.line_at text.now at }
{
    let (before, _) = split_place(text, at);
    line_feeds(before) + 1
}

/// The column of a place of a text, from 1, in characters.
pub fn column_at(text: &[u8], at: usize) -> usize
    ensures { result ≡ spec.column_at text.now at }
{
    characters(line_before(text, at)) + 1
}

/// The bytes of its line that stand before a place.
pub(crate) fn line_before(text: &[u8], at: usize) -> &[u8]
    ensures { result.now ≡ spec.line_before text.now at }
{
    let (before, _) = split_place(text, at);
    &before[before.len() - last_line_len(before)..]
}

/// The bytes of its line that stand from a place on.
pub(crate) fn line_behind(text: &[u8], at: usize) -> &[u8]
    ensures { result.now ≡ spec.line_behind text.now at }
{
    let (_, behind) = split_place(text, at);
    without_return(first_line(behind))
}

// The bytes before the first line feed.
fn first_line(bytes: &[u8]) -> &[u8]
    ensures { result.now ≡ spec.first_line bytes.now }
{
    let (line, _) = split_place(bytes, first_line_len(bytes));
    line
}

// The line without a carriage return at its end.
fn without_return(line: &[u8]) -> &[u8]
    ensures { result.now ≡ spec.without_return line.now }
{
    if !line.is_empty() && line[line.len() - 1] == b'\r' {
        return &line[..line.len() - 1];
    }
    line
}
