//! The bench: reads a sheet from standard input and prints one line about it.
#![tactic(auto)]

use std::io;
use std::io::Read;

/// One byte more than a sheet may have, which tells that an input is longer.
const PAST: u64 = lines::LIMIT as u64 + 1;

/// Reads the input and prints its line. Only a failed read, a failed write or a want of memory ends with another
/// status than 0.
fn main(rt: HostRuntime) -> io::Result<()> {
    let heap = rt.alloc();
    let mut bytes = Vec::new(heap);
    rt.stdin().take(PAST).read_to_end(&mut bytes)?;
    let line = lines::line_for(heap, bytes.as_slice())?;
    rt.print(line.as_str())
}
