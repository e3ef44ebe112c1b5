//! Reads cases from standard input and prints, for each, the line that the bench prints for its bytes.
//!
//! A case is a line: a name, a colon, and tokens with a space in front of each. A token is an even number of
//! hexadecimal digits, or such digits and `*N`, which stands for their bytes N times. Lines that are empty or begin
//! with `#` are comments.
#![tactic(auto)]

ghost use Rattle.std.specs.Prelude.{◌≡◌, IfOk, string_bytes};
ghost use Rattle.cases.specs.Printed.{CasePrinted, Printed, is_comment, malformed};

mod spelling;
#[cfg(test)]
mod tests;

use crate::spelling::{SpellError, bytes_of};
use lines::line_of;
use std::alloc::{AllocError, Global};
use std::io;
use std::io::{BufRead, BufReader};

/// Reads the cases and prints a line for each.
fn main(rt: HostRuntime) -> io::Result<()> {
    let heap = rt.alloc();
    for line in BufReader::new(heap, rt.stdin())?.lines(heap) {
        let text = line?;
        rt.print(answer(heap, text.as_str())?.as_str())?;
    }
    Ok(())
}

/// What is printed for a line of the input: nothing for a comment, else the case's name and its line.
fn answer(heap: Global, text: &str) -> Result<String, AllocError>
    ensures { IfOk result (λ s. Printed text.now (string_bytes s)) }
{
    if is_comment(text) {
        return Ok(String::new(heap));
    }
    match text.split_once(':') {
        Some((name, tokens)) => named(heap, name, tokens),
        None => malformed(heap, text),
    }
}

/// Whether a line of the input is a comment.
fn is_comment(text: &str) -> bool
    ensures { result ≡ is_comment text.now }
{
    text.is_empty() || text.starts_with('#')
}

/// What is printed for a case with this name and these tokens.
fn named(heap: Global, name: &str, tokens: &str) -> Result<String, AllocError>
    ensures { IfOk result (λ s. CasePrinted name.now tokens.now (string_bytes s)) }
{
    match bytes_of(heap, tokens) {
        Ok(bytes) => {
            let line = line_of(bytes.as_slice());
            format!(in heap; "{name}: {line}")
        }
        Err(SpellError::OutOfMemory) => Err(AllocError),
        Err(SpellError::Malformed | SpellError::TooLong) => malformed(heap, name),
    }
}

/// The line for a case that spells no bytes.
fn malformed(heap: Global, name: &str) -> Result<String, AllocError>
    ensures { IfOk result (λ s. string_bytes s ≡ malformed name.now) }
{
    format!(in heap; "{name}: malformed\n")
}
