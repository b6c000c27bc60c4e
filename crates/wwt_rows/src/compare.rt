//! What a command came to beside what is wanted of it.
use crate::wanted::{Output, Want};
use anyhow::Result;
use std::alloc::Global;

/// What a command came to.
#[derive(Clone, Copy)]
pub struct Ran<'a> {
    pub status: u8,
    /// What the output took.
    pub out: &'a [u8],
    /// What the error sink took.
    pub err: &'a [u8],
}

/// The first difference of what a command came to, as a text for people. None if there is none.
pub fn difference(alloc: Global, ran: Ran<'_>, wanted: &Want<'_>) -> Result<Option<String>> {
    if ran.status != wanted.status {
        let text = format!(in alloc; "the status is {}, wanted {}", ran.status, wanted.status)?;
        return Ok(Some(text));
    }
    let mut error = Vec::new(alloc);
    if let Some(line) = wanted.error {
        error.push(line.as_bytes())?;
    }
    error.push(b"".as_slice())?;
    let difference = of_whole(alloc, "error", ran.err, &error)?;
    if difference.is_some() {
        return Ok(difference);
    }
    match wanted.output {
        Output::Whole(lines, rest) => {
            of_whole(alloc, "output", ran.out, &parts_of(alloc, lines, rest)?)
        }
        Output::Some(lines) => of_some(alloc, ran.out, lines),
    }
}

/// These lines, and what follows the last newline.
fn parts_of<'a>(alloc: Global, lines: &'a [String], rest: &'a [u8]) -> Result<Vec<&'a [u8]>> {
    let mut parts = Vec::new(alloc);
    for line in lines {
        parts.push(line.as_bytes())?;
    }
    parts.push(rest)?;
    Ok(parts)
}

/// The first part between newlines of a text that isn't the wanted one.
fn of_whole(alloc: Global, of: &str, text: &[u8], wanted: &[&[u8]]) -> Result<Option<String>> {
    let mut wanted = wanted.iter().copied();
    let mut number = 0u64;
    for part in text.split(|byte| *byte == b'\n') {
        number = number.saturating_add(1);
        let next = wanted.next();
        if next != Some(part) {
            return Ok(Some(told(alloc, of, number, Some(part), next)?));
        }
    }
    match wanted.next() {
        Some(next) => Ok(Some(told(alloc, of, number.saturating_add(1), None, Some(next))?)),
        None => Ok(None),
    }
}

/// Tells that a line isn't the wanted one.
fn told(
    alloc: Global,
    of: &str,
    number: u64,
    line: Option<&[u8]>,
    wanted: Option<&[u8]>,
) -> Result<String> {
    let line = text_of(alloc, line, "missing")?;
    let wanted = text_of(alloc, wanted, "none")?;
    Ok(format!(in alloc; "line {number} of the {of} is {line}, wanted {wanted}")?)
}

/// A line as a text, or this word where there is none.
fn text_of(alloc: Global, line: Option<&[u8]>, none: &str) -> Result<String> {
    match line {
        Some(bytes) => Ok(String::from_utf8_lossy(alloc, bytes)?),
        None => Ok(String::from_str(alloc, none)?),
    }
}

/// The first of these lines that the text doesn't have after the ones before it.
fn of_some(alloc: Global, text: &[u8], wanted: &[String]) -> Result<Option<String>> {
    let mut wanted = wanted.iter();
    let mut next = wanted.next();
    let mut parts = text.split(|byte| *byte == b'\n');
    // What follows the last newline is no line.
    parts.next_back();
    for part in parts {
        if next.map(|line| line.as_bytes()) == Some(part) {
            next = wanted.next();
        }
    }
    match next {
        Some(line) => Ok(Some(format!(in alloc; "the output has no line {line} here")?)),
        None => Ok(None),
    }
}
