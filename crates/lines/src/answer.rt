//! The line that answers an input.
ghost use Rattle.std.specs.Prelude.{◌≡◌, IfOk, string_bytes};
ghost use Rattle.sheet.specs.Opening.{basis_of};
ghost use Rattle.lines.specs.Answer.{Answers, By};
ghost use Rattle.lines.specs.Lines.{text};

use crate::choice::{Chosen, choose};
use crate::lines::Line;
use counting::Counting;
use fault::Fault;
use sheet::{OpenedSheet, open};
use std::alloc::{AllocError, Global};

/// The most bytes that a sheet may have.
pub const LIMIT: usize = 16384;

/// The line for an input, as text.
pub fn line_for(heap: Global, bytes: &[u8]) -> Result<String, AllocError>
    ensures { IfOk result (λ s. Answers bytes.now (string_bytes s)) }
{
    line_of(bytes).to_string(heap)
}

/// The line for an input: it is opened with the counting that its head asks for, unless it is too long.
pub fn line_of(bytes: &[u8]) -> Line
    ensures { Answers bytes.now (text result) }
{
    if bytes.len() > LIMIT {
        return Line::Refused(Fault::WrongOrder(0));
    }
    // Two arms and no value of both kinds: what follows is generic, and compiled for each counting.
    match choose(bytes) {
        Chosen::Parts(parts) => line_by(parts, bytes),
        Chosen::Once(once) => line_by(once, bytes),
    }
}

/// The line for bytes that are opened with this counting.
fn line_by<C: Counting>(counting: C, bytes: &[u8]) -> Line
    ensures { By (basis_of (C.Counting.tag counting) (C.Counting.operations counting)) bytes.now (text result) }
{
    let mut place = OpenedSheet::new(counting);
    match open(bytes, &mut place) {
        Ok(()) => Line::Opened(place.as_tables().nodes.len()),
        Err(fault) => Line::Refused(fault),
    }
}
